//! Many items at a conveyor, as so many single calls.
ghost use Rattle.std.specs.Prelude.{◌≡◌, ◌≢◌, ◌+◌, ◌<◌, ◌≤◌, ◌++◌, ◌∷◌, [], true, false, None, Some, length, sum, slice_index_or};
ghost use Rattle.route_tensor.specs.Grid.{ranks};
ghost use Rattle.route_tensor.specs.Neighbour.{hop_to, neighbour};
ghost use Rattle.route_tensor.specs.Tag.{IsFair, sender_of};
ghost use Rattle.port_bank.specs.Machine.Step.{Push, Pull, Idle};
ghost use Rattle.hop_core.specs.State.{State, in_at, lowest_unread, pulls};
ghost use Rattle.convey.specs.Conveyors.{open_count_toward};
ghost use Rattle.rank_handles.specs.Many.{steps_of, then_idle, all_ranks, SamePast};
ghost use Rattle.rank_handles.specs.RankAtBank.{RunOf};

use crate::item::{BaleItem, bale_item_from, item_from};
use bale_items::Tag;
use convey::{Conveyor, Phase, Pushed};

/// Whether every number is one of so many ranks. It doesn't end at the first that is none, so that
/// several are compared at once: a call of many items that finds no room soon looks at the others
/// without success.
pub(crate) fn are_ranks(ranks: u32, to: &[u32]) -> bool
    ensures { result ≡ all_ranks ranks to.now }
{
    let mut good = true;
    let mut at = 0;
    while at < to.len() {
        good = to[at] < ranks && good;
        at += 1;
    }
    good
}

/// Pushes items toward ranks until one finds no room. How many were pushed.
pub(crate) fn push_while_room<const CAP: usize, const HOPS: usize>(
    conveyor: &mut Conveyor<CAP, HOPS>,
    items: &[BaleItem],
    to: &[u32],
) -> usize
    requires same { length to.now ≡ length items.now }
    requires working { conveyor.old.phase ≡ Phase.Working }
    requires not_done { conveyor.old.done ≡ false }
    requires ranks { all_ranks (ranks conveyor.old.dims) to.now ≡ true }
    ensures pushed { RunOf (steps_of Push result items.now to.now ++ then_idle result (length items.now))
        conveyor.old conveyor.new }
    ensures few { result ≤ length items.now }
    ensures full { result < length items.now
        → open_count_toward conveyor.new (slice_index_or to.now result 0) ≡ CAP }
{
    let mut count = 0;
    while count < items.len() {
        let item = item_from(&items[count]);
        match conveyor.push(item, to[count]) {
            Pushed::Accepted => count += 1,
            Pushed::Full => return count,
        }
    }
    count
}

/// Pulls items until there are none, or no place is left. How many were pulled.
pub(crate) fn pull_while_some<const CAP: usize, const HOPS: usize>(
    conveyor: &mut Conveyor<CAP, HOPS>,
    items: &mut [BaleItem],
    from: &mut [u32],
) -> usize
    requires same { length from.old ≡ length items.old }
    requires begun { conveyor.old.phase ≢ Phase.Dormant }
    ensures pulled { RunOf (steps_of Pull result items.new from.new ++ then_idle result (length items.old))
        conveyor.old conveyor.new }
    ensures few { result ≤ length items.old }
    ensures none { result < length items.old → lowest_unread conveyor.new ≡ None }
    ensures past { SamePast result items.old items.new from.old from.new }
{
    let mut count = 0;
    while count < items.len() {
        let Some(number) = conveyor.unread() else {
            return count;
        };
        count = pull_batch(conveyor, number, items, from, count);
    }
    count
}

/// Pulls the items of the inbox from which the next pull takes, as many as there are places from
/// `start` on. If the places end.
fn pull_batch<const CAP: usize, const HOPS: usize>(
    conveyor: &mut Conveyor<CAP, HOPS>,
    number: u32,
    items: &mut [BaleItem],
    from: &mut [u32],
    start: usize,
) -> usize
    requires same { length from.old ≡ length items.old }
    requires begun { conveyor.old.phase ≢ Phase.Dormant }
    requires lowest { lowest_unread conveyor.old ≡ Some number }
    requires room { start < length items.old }
    ensures items { length items.new ≡ length items.old }
    ensures from { length from.new ≡ length from.old }
    ensures more { start < result }
    ensures few { result ≤ length items.old }
    ensures past { SamePast result items.old items.new from.old from.new }
    ensures pulled { (st : State) → RunOf (steps_of Pull start items.old from.old ++ Idle ∷ []) st conveyor.old
        → RunOf (steps_of Pull result items.new from.new) st conveyor.new }
{
    let there = conveyor.batch(number).len();
    let count = there.min(items.len() - start);
    copy_batch(conveyor, number, items, from, start, count);
    if count == there {
        conveyor.pull_all(number);
    } else {
        pull_over(conveyor, count);
    }
    start + count
}

/// Copies the first items of that inbox, with their senders, to the places from `start` on.
fn copy_batch<const CAP: usize, const HOPS: usize>(
    conveyor: &Conveyor<CAP, HOPS>,
    number: u32,
    items: &mut [BaleItem],
    from: &mut [u32],
    start: usize,
    count: usize,
)
    requires same { length from.old ≡ length items.old }
    requires lowest { lowest_unread conveyor.now ≡ Some number }
    requires there { count ≤ length (in_at conveyor.now number).parcel.untaken }
    requires room { start + count ≤ length items.old }
    ensures items { length items.new ≡ length items.old }
    ensures from { length from.new ≡ length from.old }
    ensures past { SamePast (start + count) items.old items.new from.old from.new }
    ensures pulled { (st : State) → RunOf (steps_of Pull start items.old from.old ++ Idle ∷ []) st conveyor.now
        → RunOf (steps_of Pull (start + count) items.new from.new ++ then_idle count 1) st (pulls count conveyor.now) }
{
    let entries = conveyor.batch(number);
    let near = conveyor.routes().neighbour(number).rank;
    let mut at = 0;
    while at < count {
        let entry = entries[at];
        items[start + at] = bale_item_from(entry.item);
        from[start + at] = sender_in(conveyor, number, near, entry.tag);
        at += 1;
    }
}

/// The sender of an entry of that link with this tag. On one hop it is the neighbour, whatever the
/// tag, so that a batch looks it up once.
#[tactic(auto, using(crate::proofs::Senders::near_sender))]
#[inline]
pub(crate) fn sender_in<const CAP: usize, const HOPS: usize>(
    conveyor: &Conveyor<CAP, HOPS>,
    number: u32,
    near: u32,
    tag: Tag,
) -> u32
    requires hops { length conveyor.now.dims ≡ HOPS }
    requires number { number < sum conveyor.now.dims }
    requires last { hop_to conveyor.now.dims number ≡ length conveyor.now.dims }
    requires fair { IsFair conveyor.now.dims (length conveyor.now.dims) tag }
    requires near { near ≡ neighbour conveyor.now.dims conveyor.now.rank number }
    ensures { result ≡ sender_of conveyor.now.dims tag (length conveyor.now.dims)
        (neighbour conveyor.now.dims conveyor.now.rank number) }
{
    if HOPS == 1 {
        near
    } else {
        conveyor.sender_of(number, tag)
    }
}

/// Pulls so many items, for nothing but to have them pulled.
pub(crate) fn pull_over<const CAP: usize, const HOPS: usize>(
    conveyor: &mut Conveyor<CAP, HOPS>,
    count: usize,
)
    requires begun { conveyor.old.phase ≢ Phase.Dormant }
    ensures { conveyor.new ≡ pulls count conveyor.old }
{
    let mut at = 0;
    while at < count {
        conveyor.pull();
        at += 1;
    }
}
