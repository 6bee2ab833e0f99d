//! What a view lends: unread entries of one inbox that one rank sent, if they are.
ghost use Rattle.std.specs.Prelude.{◌≡◌, ◌≢◌, ℕ, ◌<◌, ◌≤◌, Some, None, IfSome, length, sum, take, slice_get, slice_index_or};
ghost use Rattle.std.specs.List.{All};
ghost use Rattle.bale_items.specs.declared.item.Entry.{Entry};
ghost use Rattle.route_tensor.specs.Neighbour.{hop_to, neighbour};
ghost use Rattle.route_tensor.specs.Tag.{IsFair, sender_of};
ghost use Rattle.hop_core.specs.State.{State, lowest_unread, pulls};
ghost use Rattle.convey.specs.Conveyors.{GivesNext};
ghost use Rattle.rank_handles.specs.RankAtBank.{RunOf};
ghost use Rattle.rank_handles.specs.Views.{leading, lent, lender, pull_steps};

use crate::many::{pull_over, sender_in};
use bale_items::Entry;
use convey::{Conveyor, Phase};

/// Entries that a rank got and has not pulled, and the rank that sent them.
#[repr(C)]
#[derive(Drop)]
pub struct BaleView<'a> {
    pub entries: &'a [Entry],
    pub from: u32,
}

/// What the next pulls give, as far as it is in one inbox and of one sender.
pub(crate) fn lent_view<const CAP: usize, const HOPS: usize>(
    conveyor: &Conveyor<CAP, HOPS>,
) -> Option<BaleView<'_>>
    requires begun { conveyor.now.phase ≢ Phase.Dormant }
    ensures none { result ≡ None → lowest_unread conveyor.now ≡ None }
    ensures entries { IfSome result (λ v. v.entries.now ≡ lent conveyor.now) }
    ensures from { IfSome result (λ v. Some v.from ≡ lender conveyor.now) }
    ensures gives { IfSome result (λ v. (i : ℕ) (e : Entry) → slice_get v.entries.now i ≡ Some e
        → GivesNext (pulls i conveyor.now) v.from e.item) }
{
    let Some(number) = conveyor.next_unread() else {
        return None;
    };
    let entries = conveyor.batch(number);
    let near = conveyor.routes().neighbour(number).rank;
    let from = sender_in(conveyor, number, near, entries[0].tag);
    let count = of_sender(conveyor, number, near, from, entries);
    Some(BaleView {
        entries: &entries[..count],
        from,
    })
}

/// How many items a view lends.
pub(crate) fn lent_count<const CAP: usize, const HOPS: usize>(
    conveyor: &Conveyor<CAP, HOPS>,
) -> usize
    requires begun { conveyor.now.phase ≢ Phase.Dormant }
    ensures value { result ≡ length (lent conveyor.now) }
    ensures run { (n : ℕ) → n ≤ result
        → RunOf (pull_steps (lender conveyor.now) (take n (lent conveyor.now))) conveyor.now (pulls n conveyor.now) }
{
    match lent_view(conveyor) {
        Some(view) => view.entries.len(),
        None => 0,
    }
}

/// How many of these entries of that link, from the first one on, one rank sent.
fn of_sender<const CAP: usize, const HOPS: usize>(
    conveyor: &Conveyor<CAP, HOPS>,
    number: u32,
    near: u32,
    from: u32,
    entries: &[Entry],
) -> usize
    requires hops { length conveyor.now.dims ≡ HOPS }
    requires number { number < sum conveyor.now.dims }
    requires last { hop_to conveyor.now.dims number ≡ length conveyor.now.dims }
    requires fair { All (λ e. IsFair conveyor.now.dims (length conveyor.now.dims) e.tag) entries.now }
    requires near { near ≡ neighbour conveyor.now.dims conveyor.now.rank number }
    requires alone { length conveyor.now.dims ≡ 1 → from ≡ near }
    ensures value { take result entries.now ≡ leading conveyor.now.dims near from entries.now }
    ensures few { result ≤ length entries.now }
{
    if HOPS == 1 {
        return entries.len();
    }
    let mut count = 0;
    while count < entries.len() {
        if conveyor.sender_of(number, entries[count].tag) != from {
            return count;
        }
        count += 1;
    }
    count
}

/// Pulls so many items.
pub(crate) fn pull_lent<const CAP: usize, const HOPS: usize>(
    conveyor: &mut Conveyor<CAP, HOPS>,
    count: usize,
)
    requires begun { conveyor.old.phase ≢ Phase.Dormant }
    ensures { conveyor.new ≡ pulls count conveyor.old }
{
    if let Some(number) = conveyor.next_unread() {
        if conveyor.batch(number).len() == count {
            conveyor.pull_all(number);
            return;
        }
    }
    pull_over(conveyor, count);
}
