//! Where the bank rings for a link.
ghost use Rattle.std.specs.Prelude.{◌≡◌, ◌<◌, length, IfOk};
ghost use Rattle.list_laws.specs.Lists.{EachAt};
ghost use Rattle.route_tensor.specs.Link.{links};
ghost use Rattle.link_slots.specs.Counts.{IsWire};

use bale_items::NoMemory;
use route_tensor::Grid;
use std::alloc::Global;

/// The doorbell of the link's reader for its hop, and the link's bit of it.
#[derive(Clone, Copy)]
pub(crate) struct Wire {
    /// The doorbell's word.
    pub(crate) bell: usize,
    /// The one bit that is the link's.
    pub(crate) mask: u64,
    /// The link's hop, from 0.
    pub(crate) hop: usize,
    /// Fills a wire up to 32 bytes: its place in a list is a shift of its number.
    _filler: u64,
}

/// The wire of the link with this number.
fn wire_of(grid: &Grid, link: u32) -> Wire
    requires { link < links grid.now }
    ensures { IsWire grid.now link result.bell result.mask result.hop }
{
    let (h, a, b) = grid.ends(link);
    let bells = b as usize * grid.hops() as usize + (h as usize - 1);
    Wire {
        bell: 16 * (2 * grid.links() as usize + bells),
        mask: 1 << grid.coord(a, h),
        hop: h as usize - 1,
        _filler: 0,
    }
}

/// The wires of all links, by number.
pub(crate) fn wires_of(alloc: Global, grid: &Grid) -> Result<Vec<Wire>, NoMemory>
    ensures many { IfOk result (λ v. length v.items ≡ links grid.now) }
    ensures each { IfOk result (λ v. EachAt (λ l w. IsWire grid.now l w.bell w.mask w.hop) v.items) }
{
    let count = grid.links();
    let mut wires = Vec::with_capacity(alloc, count as usize)?;
    for link in 0..count {
        if wires.push(wire_of(grid, link)).is_err() {
            return Err(NoMemory);
        }
    }
    Ok(wires)
}
