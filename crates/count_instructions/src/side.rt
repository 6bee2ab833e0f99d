//! One rank of a benchmark: its conveyor, which turns at the port that it is lent.
ghost use Rattle.std.specs.Prelude.{◌≡◌, ◌<◌, false, IfOk};
ghost use Rattle.route_tensor.specs.Grid.{ranks};
ghost use Rattle.convey.specs.Buffers.{buffers_of};
ghost use Rattle.convey.specs.Conveyors.{IsUnusedConveyor, StaysWithRank};
ghost use Rattle.convey.specs.Law.{IsSound};
ghost use Rattle.convey.specs.Advance.{IsAtPort, KeepsPort};

use crate::sending::push_some;
use crate::shape::Shape;
use crate::taking::sum_all;
use bale_items::NoMemory;
use convey::{Conveyor, Phase, Progress};
use port_bank::Port;
use std::alloc::Global;

/// A rank that sends items to ranks of its choice and sums those that come.
#[derive(Drop)]
pub(crate) struct Side<const CAP: usize, const HOPS: usize> {
    pub(crate) conveyor: Conveyor<CAP, HOPS>,
    rank_count: u32,
    /// Chooses the receivers.
    seed: u64,
    /// How many items are pushed in this epoch.
    pushed: u64,
    /// Whether the latest advance of the epoch said that the rank is done.
    done: bool,
    epoch: u64,
    sum: u64,
    ghost same_count: { ranks conveyor.dims ≡ rank_count },
    ghost same_done: { conveyor.done ≡ done },
    ghost same_epoch: { conveyor.epoch ≡ epoch },
}

impl<const CAP: usize, const HOPS: usize> Side<CAP, HOPS> {
    /// The conveyor of a rank.
    pub(crate) fn new(alloc: Global, shape: &Shape<CAP, HOPS>, rank: u32) -> Result<Self, NoMemory>
        requires rank { rank < ranks shape.now.grid }
        ensures starts { IfOk result (λ s. IsUnusedConveyor shape.now.grid rank s.conveyor) }
    {
        let conveyor = Conveyor::new(alloc, &shape.grid, rank, false)?;
        conveyor.known();
        Ok(Side {
            conveyor,
            rank_count: shape.grid.ranks(),
            seed: rank as u64 + 1,
            pushed: 0,
            done: false,
            epoch: 0,
            sum: 0,
        })
    }

    /// The sum of what came.
    pub(crate) fn sum(&self) -> u64 {
        self.sum
    }

    /// Begins an epoch if told so, pushes until a push is refused or `items` are pushed, advances
    /// once, and sums what came. Answers whether the epoch is over.
    pub(crate) fn turn<P: Port<CAP>>(
        &mut self,
        port: &mut P,
        begins: bool,
        items: u64,
    ) -> Result<bool, NoMemory>
        requires at_port { IsAtPort self.old.conveyor (P.view port.old) }
        ensures sound { IsSound (buffers_of self.new.conveyor) }
        ensures keeps { KeepsPort self.old.conveyor self.new.conveyor (P.view port.old) (P.view port.new) }
    {
        self.begin(begins);
        self.push(items);
        let over = self.advance(port, items);
        self.take();
        self.conveyor.known();
        over
    }

    /// If told so, ends the epoch that is complete, if one is, and begins the next.
    fn begin(&mut self, begins: bool)
        ensures { StaysWithRank self.old.conveyor self.new.conveyor }
    {
        if !begins {
            return;
        }
        self.end();
        self.start();
    }

    fn end(&mut self)
        ensures { StaysWithRank self.old.conveyor self.new.conveyor }
    {
        if self.conveyor.phase() != Phase::Complete || self.epoch >= 1_000_000 {
            return;
        }
        self.conveyor.reset();
        self.done = false;
        self.epoch += 1;
    }

    fn start(&mut self)
        ensures { StaysWithRank self.old.conveyor self.new.conveyor }
    {
        if self.conveyor.phase() != Phase::Dormant {
            return;
        }
        self.conveyor.begin();
        self.pushed = 0;
    }

    fn advance<P: Port<CAP>>(&mut self, port: &mut P, items: u64) -> Result<bool, NoMemory>
        requires at_port { IsAtPort self.old.conveyor (P.view port.old) }
        ensures keeps { KeepsPort self.old.conveyor self.new.conveyor (P.view port.old) (P.view port.new) }
    {
        if self.conveyor.phase() == Phase::Dormant {
            return Ok(true);
        }
        let done = self.done || self.pushed >= items;
        let progress = self.conveyor.advance(port, done);
        self.done = done;
        Ok(progress? == Progress::Complete)
    }

    fn take(&mut self)
        ensures { StaysWithRank self.old.conveyor self.new.conveyor }
    {
        if self.conveyor.phase() == Phase::Dormant {
            return;
        }
        self.sum = sum_all(&mut self.conveyor, self.sum);
    }

    /// Pushes items, if the epoch still takes them.
    fn push(&mut self, items: u64)
        ensures { StaysWithRank self.old.conveyor self.new.conveyor }
    {
        if self.conveyor.phase() != Phase::Working || self.done {
            return;
        }
        let (pushed, seed) = push_some(
            &mut self.conveyor,
            self.rank_count,
            self.seed,
            self.pushed,
            items,
        );
        self.pushed = pushed;
        self.seed = seed;
    }
}
