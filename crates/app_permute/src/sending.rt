//! What a rank sends, put together from the cells that it keeps: so a list of items isn't made.

ghost use Rattle.std.specs.Prelude.{◌≡◌, ◌<◌, ◌-◌, Some, length, slice_get};
ghost use Rattle.round_program.specs.Handing.{MayHandOver, HandsUpTo};
ghost use Rattle.app_permute.specs.code.Sent.{permute_sent, to_cell_owner};

use crate::carried::cell_sent;
use bale_items::{Item, Triple};
use round_program::Departures;

/// Hands on what is sent, from number `from` on, until one is refused or all are handed over, and
/// says how many are by then. What a rank keeps is looked up once for them all.
#[inline(always)]
pub(crate) fn emit_sent<D: Departures>(
    round: u64,
    ranks: u32,
    cells: &[Triple],
    from: u64,
    out: &mut D,
) -> u64
    requires some { 0 < ranks }
    requires may { MayHandOver (D.may out.old) (permute_sent round ranks cells.now) from }
    ensures { HandsUpTo D.hands (permute_sent round ranks cells.now) from result out.old out.new }
{
    let count = cells.len() as u64;
    let mut next = from;
    while next < count {
        let (to, item) = emission_of(round, ranks, cells, next);
        if !out.push(to, item) {
            return next;
        }
        next += 1;
    }
    next
}

/// Number `i` of what is sent, with the rank that it goes to.
#[inline(always)]
pub(crate) fn emission_of(round: u64, ranks: u32, cells: &[Triple], i: u64) -> (u32, Item)
    requires some { 0 < ranks }
    requires within { i < length (permute_sent round ranks cells.now) }
    ensures { slice_get (permute_sent round ranks cells.now) i ≡ Some result }
{
    to_owner(round, ranks, cells[i as usize])
}

/// A cell in transit: to the owner of its column in round 1, and else to that of its row.
#[inline(always)]
fn to_owner(round: u64, ranks: u32, cell: Triple) -> (u32, Item)
    requires some { 0 < ranks }
    ensures { result ≡ to_cell_owner round ranks cell }
{
    let owned = if round == 1 { cell.j } else { cell.i };
    (owned % ranks, cell_sent(cell))
}
