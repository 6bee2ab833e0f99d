//! What a rank of ig sends, put together from the entries that it keeps: so of values and queries
//! no list is made.

ghost use Rattle.std.specs.Prelude.{◌≡◌, ◌<◌, ◌-◌, ℕ, List, Some, length, map, slice_get};
ghost use Rattle.round_program.specs.Handing.{MayHandOver, HandsUpTo};
ghost use Rattle.app_histo_ig.specs.Igs.{to_ask};
ghost use Rattle.app_histo_ig.specs.code.IgSent.{number_and_column, question_of, to_add, ig_items_sent, sent_of_own};

use bale_items::Item;
use round_program::Departures;

/// An entry of a rank: its number in the matrix, its column, and its value as `bits_of` gives it.
#[derive(Clone, Copy)]
pub(crate) struct Own {
    pub(crate) number: u32,
    pub(crate) column: u32,
    pub(crate) value: u64,
}

/// How many items are sent in a round, if so many replies are sent in round 2.
#[inline(always)]
pub(crate) fn count_of(round: u64, own: &Vec<Own>, asked: u64) -> u64
    ensures { (ranks : ℕ) (replies : List (ℕ × Item)) → (round ≡ 2 → asked ≡ length replies)
        → result ≡ length (ig_items_sent round ranks own.now.items replies) }
{
    if round < 2 {
        return own.len() as u64;
    }
    if round == 2 {
        return asked;
    }
    0
}

/// Hands on what is sent of the entries in rounds 0 and 1, from number `from` on, until one is
/// refused or all are handed over, and says how many are by then. What a rank keeps is looked up
/// once for them all.
#[inline(always)]
pub(crate) fn emit_own<D: Departures>(
    round: u64,
    ranks: u32,
    own: &[Own],
    from: u64,
    out: &mut D,
) -> u64
    requires some { 0 < ranks }
    requires may { MayHandOver (D.may out.old) (sent_of_own round ranks own.now) from }
    ensures { HandsUpTo D.hands (sent_of_own round ranks own.now) from result out.old out.new }
{
    let count = own.len() as u64;
    let mut next = from;
    while next < count {
        let (to, item) = own_emission(round, ranks, own, next);
        if !out.push(to, item) {
            return next;
        }
        next += 1;
    }
    next
}

/// Number `i` of them, with the rank that it goes to.
#[inline(always)]
pub(crate) fn own_emission(round: u64, ranks: u32, own: &[Own], i: u64) -> (u32, Item)
    requires some { 0 < ranks }
    requires within { i < length (sent_of_own round ranks own.now) }
    ensures { slice_get (sent_of_own round ranks own.now) i ≡ Some result }
{
    if round == 0 {
        return value_of_own(own, ranks, i as usize);
    }
    query_of_own(own, ranks, i as usize)
}

/// The value of own entry number `i`, for the owner of its column.
#[inline(always)]
pub(crate) fn value_of_own(own: &[Own], ranks: u32, i: usize) -> (u32, Item)
    requires some { 0 < ranks }
    requires within { i < length (map (to_add ranks) own.now) }
    ensures { slice_get (map (to_add ranks) own.now) i ≡ Some result }
{
    let entry = own[i];
    let item = Item {
        a: entry.column as u64,
        b: entry.value,
        c: 0,
    };
    (entry.column % ranks, item)
}

/// The query for the sum of its column, for the same owner.
#[inline(always)]
fn query_of_own(own: &[Own], ranks: u32, i: usize) -> (u32, Item)
    requires some { 0 < ranks }
    requires within { i < length (map (to_ask ranks) (map number_and_column own.now)) }
    ensures { slice_get (map (to_ask ranks) (map number_and_column own.now)) i ≡ Some result }
{
    let entry = own[i];
    let query = Item {
        a: entry.column as u64,
        b: entry.number as u64,
        c: 0,
    };
    (entry.column % ranks, query)
}

/// The question for the column of own entry number `i`, to the column's owner.
#[inline(always)]
pub(crate) fn question_of(own: &[Own], ranks: u32, i: usize) -> (u32, u64)
    requires some { 0 < ranks }
    requires within { i < length (map (question_of ranks) own.now) }
    ensures { slice_get (map (question_of ranks) own.now) i ≡ Some result }
{
    let entry = own[i];
    (entry.column % ranks, entry.column as u64)
}
