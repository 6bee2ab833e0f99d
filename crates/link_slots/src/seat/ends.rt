//! What a rank's seat counts for each of its links, beside the table.
ghost use Rattle.std.specs.Prelude.{◌≡◌, ℕ, ◌+◌, ◌*◌, ◌%◌, ◌^◌};
ghost use Rattle.port_bank.specs.Port.{IsSlots};

/// The sender's end of a link.
#[derive(Clone, Copy)]
pub(crate) struct OutEnd {
    /// Parcels posted, modulo 2^64.
    pub(crate) sent: u64,
    /// Empty slots at hand.
    pub(crate) spare: u32,
}

/// The reader's end of a link.
#[derive(Clone, Copy)]
pub(crate) struct InEnd {
    /// Parcels taken, modulo 2^64.
    pub(crate) taken: u64,
    /// Parcels seen and not taken.
    pub(crate) waiting: u32,
    /// How often the doorbell of the link's hop had been heard at the end of its latest collect.
    pub(crate) noted: u64,
    /// Fills an end up to 32 bytes: its place in a list is a shift of its number.
    pub(crate) _filler: u64,
}

/// The slot through which parcel number `count` of a link goes, if the count is known modulo
/// 2^64. The number of slots is a power of two.
#[inline]
#[tactic(auto, unfolding(port_bank::specs::Port::IsSlots))]
pub(crate) fn slot_of(slots: u32, link: u32, count: u64) -> usize
    requires { IsSlots slots }
    ensures { (n : ℕ) → count ≡ n % 2 ^ 64 → result ≡ slots * link + n % slots }
{
    slots as usize * link as usize + (count & (slots - 1) as u64) as usize
}
