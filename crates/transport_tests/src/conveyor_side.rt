//! One rank's conveyor in a test: its calls, made wherever their contracts allow them.
ghost use Rattle.std.specs.Prelude.{◌≡◌};
ghost use Rattle.item_buffer.specs.Capacity.{IsCap};
ghost use Rattle.route_tensor.specs.Grid.{ranks};
ghost use Rattle.convey.specs.Advance.{IsAtPort, KeepsPort};
ghost use Rattle.convey.specs.Conveyors.{IsUnusedConveyor, StaysWithRank};

use bale_items::{Item, NoMemory};
use convey::{Conveyor, Phase, Progress, Pushed};
use port_bank::Port;
use route_tensor::Grid;
use std::alloc::Global;

/// A call on a conveyor.
#[derive(Clone, Copy)]
pub(crate) enum Call {
    Begin,
    /// Push an item toward a rank.
    Push(Item, u32),
    /// Advance; whether the rank is done.
    Advance(bool),
    Pull,
    Unpull,
    Reset,
}

/// What a call answered.
#[derive(Clone, Copy, PartialEq, Eq, Debug)]
pub(crate) enum Answer {
    /// The call was not made, since its contract does not allow it.
    NotMade,
    Begun,
    Pushed(Pushed),
    Advanced(Progress),
    Pulled(Option<(u32, Item)>),
    Unpulled(bool),
    Reset,
}

/// A conveyor, and what a caller knows of it by the calls that it made.
#[derive(Drop)]
pub(crate) struct Side<const CAP: usize, const HOPS: usize> {
    pub(crate) conveyor: Conveyor<CAP, HOPS>,
    rank_count: u32,
    /// Whether the latest advance of the epoch said that the rank is done.
    done: bool,
    epoch: u64,
    ghost same_count: { ranks conveyor.dims ≡ rank_count },
    ghost same_done: { conveyor.done ≡ done },
    ghost same_epoch: { conveyor.epoch ≡ epoch },
}

impl<const CAP: usize, const HOPS: usize> Side<CAP, HOPS> {
    ghost use Rattle.std.specs.Prelude.{◌<◌, length, IfOk};
    ghost use Rattle.convey.specs.Buffers.{buffers_of};
    ghost use Rattle.convey.specs.Law.{IsSound};

    pub(crate) fn new(alloc: Global, grid: &Grid, rank: u32, steady: bool) -> Result<Self, NoMemory>
        requires cap { IsCap CAP }
        requires hops { length grid.now ≡ HOPS }
        requires rank { rank < ranks grid.now }
        ensures starts { IfOk result (λ s. IsUnusedConveyor grid.now rank s.conveyor) }
    {
        let conveyor = Conveyor::new(alloc, grid, rank, steady)?;
        conveyor.known();
        Ok(Side {
            conveyor,
            rank_count: grid.ranks(),
            done: false,
            epoch: 0,
        })
    }

    /// Makes a call over the rank's port.
    pub(crate) fn make<P: Port<CAP>>(
        &mut self,
        port: &mut P,
        call: Call,
    ) -> Result<Answer, NoMemory>
        requires at_port { IsAtPort self.old.conveyor (P.view port.old) }
        ensures sound { IsSound (buffers_of self.new.conveyor) }
        ensures keeps { KeepsPort self.old.conveyor self.new.conveyor (P.view port.old) (P.view port.new) }
    {
        let Call::Advance(done) = call else {
            let answer = self.make_alone(call);
            self.conveyor.known();
            return Ok(answer);
        };
        if self.conveyor.phase() == Phase::Dormant || self.done && !done {
            return Ok(Answer::NotMade);
        }
        let progress = self.conveyor.advance(port, done);
        self.done = done;
        self.conveyor.known();
        Ok(Answer::Advanced(progress?))
    }

    /// Makes a call that needs no port.
    fn make_alone(&mut self, call: Call) -> Answer
        ensures stays { StaysWithRank self.old.conveyor self.new.conveyor }
    {
        let phase = self.conveyor.phase();
        match call {
            Call::Begin if phase == Phase::Dormant => {
                self.conveyor.begin();
                Answer::Begun
            }
            Call::Push(item, to) if phase == Phase::Working && !self.done && to < self.rank_count =>
                { Answer::Pushed(self.conveyor.push(item, to)) }
            Call::Pull if phase != Phase::Dormant => Answer::Pulled(self.conveyor.pull()),
            Call::Unpull => Answer::Unpulled(self.conveyor.unpull()),
            Call::Reset if phase == Phase::Complete && self.epoch < 1000 => {
                self.conveyor.reset();
                self.done = false;
                self.epoch += 1;
                Answer::Reset
            }
            _ => Answer::NotMade,
        }
    }
}
