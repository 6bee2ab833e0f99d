//! The capacities of parcels.

ghost use Rattle.std.specs.Prelude.{◌≡◌};
ghost use Rattle.item_buffer.specs.Capacity.{is_capacity};

/// The most entries that a parcel can be made to hold.
pub const MOST_ENTRIES: usize = 1_024;

/// The capacities that the product is compiled for.
const CAPACITIES: [u32; 11] = [1, 2, 4, 8, 16, 32, 64, 128, 256, 512, 1_024];

/// Whether the product is compiled for parcels of this capacity: a power of two from 1 to 1,024.
pub fn is_capacity(cap: u32) -> bool
    ensures { result ≡ is_capacity cap }
{
    CAPACITIES.contains(&cap)
}
