//! One rank's exstack in a test: its calls, made wherever their contracts allow them.
ghost use Rattle.std.specs.Prelude.{◌≡◌};
ghost use Rattle.item_buffer.specs.Capacity.{IsCap};
ghost use Rattle.exstack.specs.State.{may_proceed, may_exchange};
ghost use Rattle.exstack.specs.Parts.{IsStackAtPort, StackKeepsPort, StackStaysWithRank};

use bale_items::{Item, NoMemory};
use exstack::{Exstack, Poll, Proceed, Stage};
use port_bank::Port;
use route_tensor::Grid;
use std::alloc::Global;

/// A call on an exstack.
#[derive(Clone, Copy)]
pub(crate) enum Call {
    /// Poll a proceed round; whether the rank is done.
    Proceed(bool),
    /// Push an item toward a rank.
    Push(Item, u32),
    /// Poll an exchange round.
    Exchange,
    Pop,
    /// Pop all items of one sender.
    PopAll,
    Unpop,
    /// Look at how many items are unread, at the headroom toward this rank, and at the least
    /// headroom.
    Look(u32),
    Reset,
}

/// What a call answered.
#[derive(Clone, Copy, PartialEq, Eq, Debug)]
pub(crate) enum Answer {
    /// The call was not made, since its contract does not allow it.
    NotMade,
    Proceeded(Proceed),
    Pushed(u64),
    Exchanged(Poll),
    Popped(Option<(u32, Item)>),
    /// From which rank, and how many.
    PoppedAll(u32, usize),
    Unpopped(bool),
    Seen(u64, u64, u64),
    Reset,
}

/// An exstack, and what a caller knows of it by the calls that it made.
#[derive(Drop)]
pub(crate) struct Side<const CAP: usize> {
    pub(crate) stack: Exstack<CAP>,
    rank_count: u32,
    /// What the latest proceed poll of the epoch said of the rank.
    done: bool,
    epoch: u64,
    ghost same_count: { stack.ranks ≡ rank_count },
    ghost same_done: { stack.done ≡ done },
    ghost same_epoch: { stack.epoch ≡ epoch },
}

impl<const CAP: usize> Side<CAP> {
    ghost use Rattle.std.specs.Prelude.{◌<◌, true, length, IfOk};
    ghost use Rattle.route_tensor.specs.Grid.{ranks};
    ghost use Rattle.transport_tests.specs.Exstacks.{StackStartsOut};
    ghost use Rattle.exstack.specs.Standing.{IsStack};

    pub(crate) fn new(alloc: Global, grid: &Grid, rank: u32) -> Result<Self, NoMemory>
        requires cap { IsCap CAP }
        requires one_hop { length grid.now ≡ 1 }
        requires rank { rank < ranks grid.now }
        ensures starts { IfOk result (λ s. StackStartsOut CAP grid.now rank s.stack) }
    {
        let stack = Exstack::new(alloc, grid, rank)?;
        stack.known();
        Ok(Side {
            stack,
            rank_count: grid.ranks(),
            done: false,
            epoch: 0,
        })
    }

    /// Makes a call over the rank's port.
    pub(crate) fn make<P: Port<CAP>>(
        &mut self,
        port: &mut P,
        call: Call,
    ) -> Result<Answer, NoMemory>
        requires at_port { IsStackAtPort self.old.stack (P.view port.old) }
        ensures standing { IsStack CAP self.new.stack }
        ensures keeps { StackKeepsPort self.old.stack self.new.stack (P.view port.old) (P.view port.new) }
    {
        let stage = self.stack.stage();
        match call {
            Call::Proceed(done) => {
                if !may_proceed(stage) || self.stack.unread() != 0 || self.done && !done {
                    return Ok(Answer::NotMade);
                }
                if stage == Stage::Proceeding && done != self.done {
                    return Ok(Answer::NotMade);
                }
                let answer = self.stack.poll_proceed(port, done);
                self.done = done;
                self.stack.known();
                Ok(Answer::Proceeded(answer?))
            }
            Call::Exchange => {
                if !may_exchange(stage) {
                    return Ok(Answer::NotMade);
                }
                let answer = self.stack.poll_exchange(port);
                self.stack.known();
                Ok(Answer::Exchanged(answer?))
            }
            _ => {
                let answer = self.make_alone(call);
                self.stack.known();
                Ok(answer)
            }
        }
    }

    /// Makes a call that needs no port.
    fn make_alone(&mut self, call: Call) -> Answer
        ensures stays { StackStaysWithRank self.old.stack self.new.stack }
    {
        let stage = self.stack.stage();
        match call {
            Call::Push(item, to) if stage == Stage::Filling && !self.done && to < self.rank_count =>
                { Answer::Pushed(self.stack.push(item, to)) }
            Call::Pop => Answer::Popped(self.stack.pop()),
            Call::PopAll => self.pop_all(),
            Call::Unpop => Answer::Unpopped(self.stack.unpop()),
            Call::Look(to) if to < self.rank_count => Answer::Seen(
                self.stack.unread(),
                self.stack.headroom(to),
                self.stack.min_headroom(),
            ),
            Call::Reset if stage == Stage::AllDone && self.epoch < 1000 => {
                self.stack.reset();
                self.done = false;
                self.epoch += 1;
                Answer::Reset
            }
            _ => Answer::NotMade,
        }
    }

    fn pop_all(&mut self) -> Answer
        ensures { StackStaysWithRank self.old.stack self.new.stack }
    {
        let Some(sender) = self.stack.next_sender() else {
            return Answer::Popped(None);
        };
        let count = self.stack.batch(sender).len();
        self.stack.pop_all(sender);
        Answer::PoppedAll(sender, count)
    }
}

/// Whether a proceed round may begin or go on.
fn may_proceed(stage: Stage) -> bool
    ensures { result ≡ may_proceed stage }
{
    match stage {
        Stage::Start | Stage::Proceeding | Stage::Full => true,
        Stage::Filling | Stage::Exchanging | Stage::AllDone => false,
    }
}

/// Whether an exchange round may.
fn may_exchange(stage: Stage) -> bool
    ensures { result ≡ may_exchange stage }
{
    match stage {
        Stage::Filling | Stage::Exchanging => true,
        Stage::Start | Stage::Proceeding | Stage::Full | Stage::AllDone => false,
    }
}
