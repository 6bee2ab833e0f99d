//! The lists of a rank of ig: sums, queries and answers.

ghost use Rattle.std.specs.Prelude.{◌≡◌, ◌<◌, ◌^◌, ◌/◌, is_ok, if◌then◌else◌, length, map};
ghost use Rattle.app_histo_ig.specs.Owners.{with_sum_risen};
ghost use Rattle.app_histo_ig.specs.Igs.{noted_query, answered_entry};

use bale_items::{Item, NoMemory};

/// Adds the value `b` to the sum of column `a`, modulo 2^64.
#[inline(always)]
pub(crate) fn rise(sums: &mut [u64], ranks: u32, item: Item)
    requires some { 0 < ranks }
    requires column { item.a < 2 ^ 32 }
    requires place { item.a / ranks < length sums.old }
    ensures { sums.new ≡ with_sum_risen ranks sums.old item }
{
    let place = (item.a as u32 / ranks) as usize;
    sums[place] = sums[place].wrapping_add(item.b);
}

/// Appends a query to its sender's list.
#[inline(always)]
pub(crate) fn note(queries: &mut Vec<Vec<Item>>, from: usize, item: Item) -> Result<(), NoMemory>
    requires { from < length queries.old.items }
    ensures { map (λ l. l.items) queries.new.items
        ≡ (if is_ok result then noted_query (map (λ l. l.items) queries.old.items) from item else map
        (λ l. l.items) queries.old.items) }
{
    queries[from].push(item).map_err(|_| NoMemory)
}

/// Takes the answer `b` of entry number `a` in, if there is a place for it and no greater one
/// is there.
#[inline(always)]
pub(crate) fn raise(answers: &mut [u64], ranks: u32, item: Item)
    requires { 0 < ranks }
    ensures { answers.new ≡ answered_entry ranks answers.old item }
{
    let at = place_of(item.a, ranks);
    if at < answers.len() as u64 {
        let i = at as usize;
        answers[i] = answers[i].max(item.b);
    }
}

/// The place of an entry's answer. The short division is the cheaper one.
#[inline(always)]
fn place_of(number: u64, ranks: u32) -> u64
    requires { 0 < ranks }
    ensures { result ≡ number / ranks }
{
    if number <= u32::MAX as u64 {
        (number as u32 / ranks) as u64
    } else {
        number / ranks as u64
    }
}
