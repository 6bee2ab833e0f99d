//! What all conveyors of a measurement have in common.
ghost use Rattle.std.specs.Prelude.{◌≡◌, length};
ghost use Rattle.item_buffer.specs.Capacity.{IsCap};

use route_tensor::Grid;

/// A grid of `HOPS` numbers, for parcels of `CAP` entries.
#[derive(Clone, Copy, Drop)]
pub(crate) struct Shape<const CAP: usize, const HOPS: usize> {
    pub(crate) grid: Grid,
    pub(crate) ghost cap: { IsCap CAP },
    pub(crate) ghost hops: { length grid ≡ HOPS },
}
