//! What a rank of topo sends, put together from the pairs of numbers that it keeps: so a list of
//! items isn't made.

ghost use Rattle.std.specs.Prelude.{◌≡◌, ◌<◌, ◌-◌, ◌%◌, ℕ, Some, length, map, slice_get, slice_index_or};
ghost use Rattle.std.specs.List.{flat_map};
ghost use Rattle.round_program.specs.Handing.{MayHandOver, HandsUpTo};
ghost use Rattle.app_topo.specs.code.TopoSent.{for_both, topo_sent, to_other};

use bale_items::{Item, Triple};
use round_program::Departures;

/// How many items are sent in a round.
#[inline(always)]
pub(crate) fn count_of(kept: &Vec<Triple>, round: u64) -> u64
    ensures { (ranks : ℕ) → result ≡ length (topo_sent round ranks kept.now.items) }
{
    if round == 0 {
        return 2 * kept.len() as u64;
    }
    kept.len() as u64
}

/// Hands on what is sent, from number `from` on, until one is refused or all are handed over, and
/// says how many are by then. What a rank keeps is looked up once for them all.
#[inline(always)]
pub(crate) fn emit_kept<D: Departures>(
    kept: &Vec<Triple>,
    round: u64,
    ranks: u32,
    from: u64,
    out: &mut D,
) -> u64
    requires some { 0 < ranks }
    requires may { MayHandOver (D.may out.old) (topo_sent round ranks kept.now.items) from }
    ensures { HandsUpTo D.hands (topo_sent round ranks kept.now.items) from result out.old out.new }
{
    let count = count_of(kept, round);
    let mut next = from;
    while next < count {
        let (to, item) = emission_of(kept, round, ranks, next);
        if !out.push(to, item) {
            return next;
        }
        next += 1;
    }
    next
}

/// Number `i` of them, with the rank that it goes to.
#[inline(always)]
pub(crate) fn emission_of(kept: &Vec<Triple>, round: u64, ranks: u32, i: u64) -> (u32, Item)
    requires some { 0 < ranks }
    requires within { i < length (topo_sent round ranks kept.now.items) }
    ensures { slice_get (topo_sent round ranks kept.now.items) i ≡ Some result }
{
    if round == 0 {
        return first_emission(kept, ranks, i);
    }
    later_emission(kept, 3 - round % 2, ranks, i)
}

/// Emission number `i` of round 0, in which each entry is sent twice: to its row and to its column.
#[inline(always)]
fn first_emission(entries: &[Triple], ranks: u32, i: u64) -> (u32, Item)
    requires some { 0 < ranks }
    requires within { i < length (flat_map (for_both ranks) entries.now) }
    ensures { slice_get (flat_map (for_both ranks) entries.now) i ≡ Some result }
{
    let entry = entry_at(entries, (i / 2) as usize);
    if i % 2 == 0 {
        return sent_to(entry.i, entry.j, 0, ranks);
    }
    sent_to(entry.j, entry.i, 1, ranks)
}

#[inline(always)]
fn entry_at(entries: &[Triple], k: usize) -> Triple
    requires { k < length entries.now }
    ensures { result ≡ slice_index_or entries.now k result }
{
    entries[k]
}

/// Emission number `i` of a later round: a claim or a fall.
#[inline(always)]
fn later_emission(kept: &[Triple], kind: u64, ranks: u32, i: u64) -> (u32, Item)
    requires some { 0 < ranks }
    requires within { i < length (map (to_other ranks kind) kept.now) }
    ensures { slice_get (map (to_other ranks kind) kept.now) i ≡ Some result }
{
    let pair = kept[i as usize];
    sent_to(pair.j, pair.i, kind, ranks)
}

/// An item for the owner of a number, which tells it another.
#[inline(always)]
fn sent_to(to: u32, other: u32, kind: u64, ranks: u32) -> (u32, Item)
    requires some { 0 < ranks }
    ensures { result ≡ (to % ranks, record { a = to; b = other; c = kind }) }
{
    let item = Item {
        a: to as u64,
        b: other as u64,
        c: kind,
    };
    (to % ranks, item)
}
