//! Takes in what a conveyor gives.
ghost use Rattle.std.specs.Prelude.{◌≡◌, ◌≢◌, ℕ, ◌-◌, ◌^◌, ◌<◌, ◌==◌, ◌||◌, length, slice_get, Some};
ghost use Rattle.hop_core.specs.Relay.{waiting};
ghost use Rattle.hop_core.specs.State.{lowest_unread, pulls};
ghost use Rattle.convey.specs.Conveyors.{GivesNext};
ghost use Rattle.rank_node.specs.Movers.{AllRead};
ghost use Rattle.rank_node.specs.Pulls.{PullsItems};
ghost use Rattle.rank_node.specs.Batches.{sum_after, unread_items_on, TakesEach};
ghost use Rattle.bale_items.specs.declared.item.Item.{Item};

use crate::arrivals::{FromLink, FromSender};
use convey::{Conveyor, Phase};
use round_program::{Arrivals, Program};

/// What a node has made of the items that came, besides the state of its program.
#[derive(Clone, Copy, PartialEq, Eq, Debug)]
pub struct Taken {
    /// The sum of the votes that came. It saturates at 2^64 - 1.
    pub sum: u64,
    /// The program found no memory: what comes for it is dropped.
    pub spoiled: bool,
}

impl Taken {
    /// Whether memory ran out, here or, as the votes say, at some rank: no round follows then.
    pub(crate) fn is_lost(self) -> bool
        ensures { result ≡ (self.spoiled || self.sum == 2 ^ 64 - 1) }
    {
        self.spoiled || self.sum == u64::MAX
    }
}

/// Pulls until nothing is left, and sums or absorbs what comes.
pub(crate) fn take_all<Q: Program, const CAP: usize, const HOPS: usize>(
    prog: &mut Box<Q>,
    conveyor: &mut Conveyor<CAP, HOPS>,
    voting: bool,
    taken: Taken,
) -> Taken
    requires begun { conveyor.old.phase ≢ Phase.Dormant }
    ensures takes { PullsItems Q.rules voting conveyor.old conveyor.new prog.old.value prog.new.value taken.sum
        result.sum
        taken.spoiled result.spoiled }
    ensures read { AllRead conveyor.new }
{
    let mut taken = taken;
    while let Some(number) = conveyor.unread() {
        taken = take_batch(prog, conveyor, number, voting, taken);
    }
    taken
}

/// Sums or absorbs all items of the link in from which the next pull takes.
fn take_batch<Q: Program, const CAP: usize, const HOPS: usize>(
    prog: &mut Box<Q>,
    conveyor: &mut Conveyor<CAP, HOPS>,
    number: u32,
    voting: bool,
    taken: Taken,
) -> Taken
    requires begun { conveyor.old.phase ≢ Phase.Dormant }
    requires lowest { lowest_unread conveyor.old ≡ Some number }
    ensures takes { PullsItems Q.rules voting conveyor.old conveyor.new prog.old.value prog.new.value taken.sum
        result.sum
        taken.spoiled result.spoiled }
    ensures less { waiting conveyor.new.ins < waiting conveyor.old.ins }
{
    let taken = take_unread(prog, conveyor, number, voting, taken);
    conveyor.pull_all(number);
    taken
}

/// Sums or absorbs these items in place, without a copy: on one hop all of them are of the
/// neighbour.
fn take_unread<Q: Program, const CAP: usize, const HOPS: usize>(
    prog: &mut Box<Q>,
    conveyor: &Conveyor<CAP, HOPS>,
    number: u32,
    voting: bool,
    taken: Taken,
) -> Taken
    requires lowest { lowest_unread conveyor.now ≡ Some number }
    ensures takes { TakesEach Q.rules voting prog.old.value prog.new.value
        (unread_items_on conveyor.now number) taken.sum result.sum taken.spoiled result.spoiled }
    ensures some { 0 < length (unread_items_on conveyor.now number) }
    ensures gives { (i : ℕ) (e : ℕ × Item) → slice_get (unread_items_on conveyor.now number) i ≡ Some e
        → GivesNext (pulls i conveyor.now) e.0 e.1 }
{
    let routes = conveyor.routes();
    let entries = conveyor.batch(number);
    if HOPS == 1 {
        let sender = routes.neighbour(number).rank;
        take_each(prog, voting, FromSender { sender, entries }, taken)
    } else {
        let came = FromLink {
            routes,
            number,
            entries,
        };
        take_each(prog, voting, came, taken)
    }
}

/// Sums or absorbs items that came. It is not inlined: what programs make of a batch would be in
/// each drive.
#[inline(never)]
pub(crate) fn take_each<Q: Program, I: Arrivals>(
    prog: &mut Box<Q>,
    voting: bool,
    came: I,
    taken: Taken,
) -> Taken
    ensures { TakesEach Q.rules voting prog.old.value prog.new.value
        (I.items came) taken.sum result.sum taken.spoiled result.spoiled }
{
    prog.known();
    if voting {
        return Taken {
            sum: sum_votes(came, taken.sum),
            spoiled: taken.spoiled,
        };
    }
    Taken {
        sum: taken.sum,
        spoiled: taken.spoiled || prog.absorb_each(came).is_err(),
    }
}

/// The sum after the votes that came.
fn sum_votes<I: Arrivals>(came: I, sum: u64) -> u64
    ensures { result ≡ sum_after sum (I.items came) }
{
    let mut came = came;
    let mut sum = sum;
    while let Some((_, item)) = came.next() {
        sum = sum.saturating_add(item.a);
    }
    sum
}
