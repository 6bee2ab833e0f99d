//! Takes whole batches of items into the lists of a rank: which items are for the rank is read
//! once.

ghost use Rattle.std.specs.Prelude.{◌≡◌, ◌<◌, OnOk, length, map};
ghost use Rattle.std.specs.List.{All};
ghost use Rattle.sparse_rows.specs.Owners.{places_for};
ghost use Rattle.app_histo_ig.specs.Igs.{IsIgQuery};
ghost use Rattle.app_histo_ig.specs.code.Batches.{own_risen, all_risen, own_noted, all_noted, own_answered, all_answered};

use crate::ig_lists::{note, raise, rise};
use crate::seat::Seat;
use bale_items::{Item, NoMemory};
use round_program::Arrivals;

/// Adds the values that came to the sums of own columns.
#[inline(always)]
pub(crate) fn rise_each<I: Arrivals>(sums: &mut [u64], seat: Seat, came: I)
    requires places { length sums.old ≡ places_for seat.ranks seat.cols }
    ensures { sums.new ≡ all_risen seat sums.old (I.items came) }
{
    let mut came = came;
    while let Some((from, item)) = came.next() {
        rise_own(sums, seat, from, item);
    }
}

/// Adds one value that came to the sum of its column, if that is an own one.
#[inline(always)]
fn rise_own(sums: &mut [u64], seat: Seat, from: u32, item: Item)
    requires places { length sums.old ≡ places_for seat.ranks seat.cols }
    ensures sums { sums.new ≡ own_risen seat sums.old from item }
    ensures places { length sums.new ≡ length sums.old }
{
    if seat.owns(from, item) {
        rise(sums, seat.ranks, item);
    }
}

/// Appends the queries that came for own columns to the lists of their senders.
#[inline(always)]
pub(crate) fn note_each<I: Arrivals>(
    queries: &mut Vec<Vec<Item>>,
    seat: Seat,
    came: I,
) -> Result<(), NoMemory>
    requires senders { length queries.old.items ≡ seat.ranks }
    requires asked { All (All (IsIgQuery seat.cols)) (map (λ l. l.items) queries.old.items) }
    ensures ok { OnOk result
        (map (λ l. l.items) queries.new.items ≡ all_noted seat (map (λ l. l.items) queries.old.items) (I.items came)) }
    ensures senders { length queries.new.items ≡ seat.ranks }
    ensures asked { All (All (IsIgQuery seat.cols)) (map (λ l. l.items) queries.new.items) }
{
    let mut came = came;
    while let Some((from, item)) = came.next() {
        note_own(queries, seat, from, item)?;
    }
    Ok(())
}

/// Appends one query that came for an own column to the list of its sender.
#[inline(always)]
fn note_own(queries: &mut Vec<Vec<Item>>, seat: Seat, from: u32, item: Item) -> Result<(), NoMemory>
    requires senders { length queries.old.items ≡ seat.ranks }
    requires asked { All (All (IsIgQuery seat.cols)) (map (λ l. l.items) queries.old.items) }
    ensures ok { OnOk result
        (map (λ l. l.items) queries.new.items ≡ own_noted seat (map (λ l. l.items) queries.old.items) from item) }
    ensures senders { length queries.new.items ≡ seat.ranks }
    ensures asked { All (All (IsIgQuery seat.cols)) (map (λ l. l.items) queries.new.items) }
{
    if seat.owns(from, item) {
        return note(queries, from as usize, item);
    }
    Ok(())
}

/// Takes the replies that came into the answers.
#[inline(always)]
pub(crate) fn raise_each<I: Arrivals>(answers: &mut [u64], ranks: u32, came: I)
    ensures { answers.new ≡ all_answered ranks answers.old (I.items came) }
{
    let mut came = came;
    while let Some((from, item)) = came.next() {
        raise_own(answers, ranks, from, item);
    }
}

/// Takes one reply that came into the answers.
#[inline(always)]
fn raise_own(answers: &mut [u64], ranks: u32, from: u32, item: Item)
    ensures { answers.new ≡ own_answered ranks answers.old from item }
{
    if from < ranks {
        raise(answers, ranks, item);
    }
}
