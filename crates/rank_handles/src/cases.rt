//! A rank and a group of any capacity: here and in `specs/Cases` stands what there is once for each
//! capacity.
ghost use Rattle.std.specs.Prelude.{◌≡◌, ◌≢◌, Some, Ok, Err, IfOk, IfErr, OnOk, OnErr, true};
ghost use Rattle.item_buffer.specs.Capacity.{is_capacity};
ghost use Rattle.route_tensor.specs.Grid.{ranks};
ghost use Rattle.port_bank.specs.Port.{IsSlots};
ghost use Rattle.rank_handles.specs.Grouped.{IsNewGroup, IsNewRank, with_given, rank_answer, answer_with, group_answer};
ghost use Rattle.rank_handles.specs.Cases.{seen_by_hops, seen_group};

use crate::answer::Answer;
use crate::exchange::Exchange;
use crate::group::Group;
use crate::item::BaleItem;
use crate::rank::Rank;
use crate::statistics::BaleStatistics;
use crate::view::BaleView;
use bale_items::{Item, NoMemory};
use hop_core::Phase;
use item_buffer::is_capacity;
use port_bank::is_slot_count;
use route_tensor::Grid;
use std::alloc::Global;
use std::marker::Model;

/// A rank of one capacity, by its number of hops.
#[derive(Drop)]
pub(crate) enum HopsCase<const CAP: usize> {
    One(Rank<CAP, 1>),
    Two(Rank<CAP, 2>),
    Three(Rank<CAP, 3>),
}

/// A rank, by its capacity.
#[derive(Drop)]
pub(crate) enum CapacityCase {
    Of1(HopsCase<1>),
    Of2(HopsCase<2>),
    Of4(HopsCase<4>),
    Of8(HopsCase<8>),
    Of16(HopsCase<16>),
    Of32(HopsCase<32>),
    Of64(HopsCase<64>),
    Of128(HopsCase<128>),
    Of256(HopsCase<256>),
    Of512(HopsCase<512>),
    Of1024(HopsCase<1024>),
}

/// A group, by its capacity.
#[derive(Drop)]
pub(crate) enum GroupCase {
    Of1(Group<1>),
    Of2(Group<2>),
    Of4(Group<4>),
    Of8(Group<8>),
    Of16(Group<16>),
    Of32(Group<32>),
    Of64(Group<64>),
    Of128(Group<128>),
    Of256(Group<256>),
    Of512(Group<512>),
    Of1024(Group<1024>),
}

/// One call, in each case of hops.
macro_rules! by_hops {
    ($case:expr, $rank:ident, $call:expr) => {
        match $case {
            HopsCase::One($rank) => $call,
            HopsCase::Two($rank) => $call,
            HopsCase::Three($rank) => $call,
        }
    };
}

/// One call, in each case of capacities.
macro_rules! by_capacity {
    ($cases:ident, $case:expr, $part:ident, $call:expr) => {
        match $case {
            $cases::Of1($part) => $call,
            $cases::Of2($part) => $call,
            $cases::Of4($part) => $call,
            $cases::Of8($part) => $call,
            $cases::Of16($part) => $call,
            $cases::Of32($part) => $call,
            $cases::Of64($part) => $call,
            $cases::Of128($part) => $call,
            $cases::Of256($part) => $call,
            $cases::Of512($part) => $call,
            $cases::Of1024($part) => $call,
        }
    };
}

/// A rank of any capacity and any number of hops. Contracts see the rank at its bank, whatever its
/// case.
#[derive(Drop)]
pub struct AnyRank {
    pub(crate) case: CapacityCase,
}

impl Model for AnyRank {
    ghost use Rattle.rank_handles.specs.Seated.{Seated};

    ghost Value = { Seated };

    ghost use Rattle.rank_handles.specs.Cases.{seen_by_capacity};

    ghost view = { λ r. seen_by_capacity r.case };
}

impl<const CAP: usize> Exchange for HopsCase<CAP> {
    ghost seen = { λ c. Some (seen_by_hops c) };

    fn ranks(&self) -> u32 {
        by_hops!(self, rank, rank.ranks())
    }

    fn phase(&self) -> Option<Phase> {
        by_hops!(self, rank, rank.phase())
    }

    fn statistics(&self) -> BaleStatistics {
        by_hops!(self, rank, rank.statistics())
    }

    fn begin(&mut self) -> Answer {
        by_hops!(self, rank, rank.begin())
    }

    fn push(&mut self, item: Item, to: u32) -> Answer {
        by_hops!(self, rank, rank.push(item, to))
    }

    fn pull(&mut self) -> Result<(u32, Item), Answer> {
        by_hops!(self, rank, rank.pull())
    }

    fn unpull(&mut self) -> Answer {
        by_hops!(self, rank, rank.unpull())
    }

    fn advance(&mut self, done: bool) -> Answer {
        by_hops!(self, rank, rank.advance(done))
    }

    fn view(&self) -> Result<BaleView<'_>, Answer> {
        by_hops!(self, rank, rank.view())
    }

    fn pulled(&mut self, count: usize) -> Answer {
        by_hops!(self, rank, rank.pulled(count))
    }

    fn reset(&mut self) -> Answer {
        by_hops!(self, rank, rank.reset())
    }

    fn push_many(&mut self, items: &[BaleItem], to: &[u32]) -> Result<usize, Answer> {
        by_hops!(self, rank, rank.push_many(items, to))
    }

    fn pull_many(&mut self, items: &mut [BaleItem], from: &mut [u32]) -> Result<usize, Answer> {
        by_hops!(self, rank, rank.pull_many(items, from))
    }
}

impl Exchange for AnyRank {
    ghost seen = { λ r. Some r };

    fn ranks(&self) -> u32 {
        by_capacity!(CapacityCase, &self.case, rank, rank.ranks())
    }

    fn phase(&self) -> Option<Phase> {
        by_capacity!(CapacityCase, &self.case, rank, rank.phase())
    }

    fn statistics(&self) -> BaleStatistics {
        by_capacity!(CapacityCase, &self.case, rank, rank.statistics())
    }

    fn begin(&mut self) -> Answer {
        by_capacity!(CapacityCase, &mut self.case, rank, rank.begin())
    }

    fn push(&mut self, item: Item, to: u32) -> Answer {
        by_capacity!(CapacityCase, &mut self.case, rank, rank.push(item, to))
    }

    fn pull(&mut self) -> Result<(u32, Item), Answer> {
        by_capacity!(CapacityCase, &mut self.case, rank, rank.pull())
    }

    fn unpull(&mut self) -> Answer {
        by_capacity!(CapacityCase, &mut self.case, rank, rank.unpull())
    }

    fn advance(&mut self, done: bool) -> Answer {
        by_capacity!(CapacityCase, &mut self.case, rank, rank.advance(done))
    }

    fn view(&self) -> Result<BaleView<'_>, Answer> {
        by_capacity!(CapacityCase, &self.case, rank, rank.view())
    }

    fn pulled(&mut self, count: usize) -> Answer {
        by_capacity!(CapacityCase, &mut self.case, rank, rank.pulled(count))
    }

    fn reset(&mut self) -> Answer {
        by_capacity!(CapacityCase, &mut self.case, rank, rank.reset())
    }

    fn push_many(&mut self, items: &[BaleItem], to: &[u32]) -> Result<usize, Answer> {
        by_capacity!(
            CapacityCase,
            &mut self.case,
            rank,
            rank.push_many(items, to)
        )
    }

    fn pull_many(&mut self, items: &mut [BaleItem], from: &mut [u32]) -> Result<usize, Answer> {
        by_capacity!(
            CapacityCase,
            &mut self.case,
            rank,
            rank.pull_many(items, from)
        )
    }
}

/// A group of any capacity. Contracts see the group, whatever its case.
#[derive(Drop)]
pub struct AnyGroup {
    case: GroupCase,
}

impl Model for AnyGroup {
    ghost use Rattle.rank_handles.specs.Grouped.{Grouped};

    ghost Value = { Grouped };

    ghost use Rattle.rank_handles.specs.Cases.{seen_group};

    ghost view = { λ g. seen_group g.case };
}

impl AnyGroup {
    /// A group of which no rank was made, if these numbers are a grid, a capacity and a number of
    /// slots.
    pub(crate) fn new(
        alloc: Global,
        dims: &[u32],
        buffer: u32,
        slots: u32,
        steady: bool,
    ) -> Result<AnyGroup, Answer>
        ensures answer { result ≢ Err Answer.NoMemory → answer_with result ≡ group_answer dims.now buffer slots }
        ensures memory { result ≡ Err Answer.NoMemory → group_answer dims.now buffer slots ≡ Answer.Good }
        ensures refused { IfErr result (λ a. a ≢ Answer.Good) }
        ensures made { IfOk result (λ g. IsNewGroup dims.now buffer slots steady g) }
    {
        let Ok(grid) = Grid::new(dims) else {
            return Err(Answer::BadNumbers);
        };
        if !is_slot_count(slots) {
            return Err(Answer::BadNumbers);
        }
        if !is_capacity(buffer) {
            return Err(Answer::BadNumbers);
        }
        match group_of(alloc, &grid, buffer, slots, steady) {
            Ok(case) => Ok(AnyGroup { case }),
            Err(NoMemory) => Err(Answer::NoMemory),
        }
    }

    /// How many ranks there are.
    pub(crate) fn ranks(&self) -> u32
        ensures { result ≡ ranks self.now.bank.shape.dims }
    {
        by_capacity!(GroupCase, &self.case, group, group.ranks())
    }

    /// What becomes of the wish to make this rank, if there is memory.
    pub(crate) fn answer(&self, rank: u32) -> Answer
        ensures { result ≡ rank_answer self.now rank }
    {
        by_capacity!(GroupCase, &self.case, group, group.answer(rank))
    }

    /// A rank that was not made before.
    pub(crate) fn new_rank(&mut self, alloc: Global, rank: u32) -> Result<AnyRank, NoMemory>
        requires free { rank_answer self.old rank ≡ Answer.Good }
        ensures made { IfOk result (λ r. IsNewRank self.old rank r) }
        ensures given { OnOk result (self.new ≡ with_given self.old rank) }
        ensures unchanged { OnErr result (self.new ≡ self.old) }
    {
        let case = match &mut self.case {
            GroupCase::Of1(group) => CapacityCase::Of1(group.new_rank(alloc, rank)?),
            GroupCase::Of2(group) => CapacityCase::Of2(group.new_rank(alloc, rank)?),
            GroupCase::Of4(group) => CapacityCase::Of4(group.new_rank(alloc, rank)?),
            GroupCase::Of8(group) => CapacityCase::Of8(group.new_rank(alloc, rank)?),
            GroupCase::Of16(group) => CapacityCase::Of16(group.new_rank(alloc, rank)?),
            GroupCase::Of32(group) => CapacityCase::Of32(group.new_rank(alloc, rank)?),
            GroupCase::Of64(group) => CapacityCase::Of64(group.new_rank(alloc, rank)?),
            GroupCase::Of128(group) => CapacityCase::Of128(group.new_rank(alloc, rank)?),
            GroupCase::Of256(group) => CapacityCase::Of256(group.new_rank(alloc, rank)?),
            GroupCase::Of512(group) => CapacityCase::Of512(group.new_rank(alloc, rank)?),
            GroupCase::Of1024(group) => CapacityCase::Of1024(group.new_rank(alloc, rank)?),
        };
        Ok(AnyRank { case })
    }
}

/// The group of a capacity.
fn group_of(
    alloc: Global,
    grid: &Grid,
    buffer: u32,
    slots: u32,
    steady: bool,
) -> Result<GroupCase, NoMemory>
    requires capacity { is_capacity buffer ≡ true }
    requires slots { IsSlots slots }
    ensures { IfOk result (λ g. IsNewGroup grid.now buffer slots steady (seen_group g)) }
{
    Ok(match buffer {
        1 => GroupCase::Of1(Group::new(alloc, grid, slots, steady)?),
        2 => GroupCase::Of2(Group::new(alloc, grid, slots, steady)?),
        4 => GroupCase::Of4(Group::new(alloc, grid, slots, steady)?),
        8 => GroupCase::Of8(Group::new(alloc, grid, slots, steady)?),
        16 => GroupCase::Of16(Group::new(alloc, grid, slots, steady)?),
        32 => GroupCase::Of32(Group::new(alloc, grid, slots, steady)?),
        64 => GroupCase::Of64(Group::new(alloc, grid, slots, steady)?),
        128 => GroupCase::Of128(Group::new(alloc, grid, slots, steady)?),
        256 => GroupCase::Of256(Group::new(alloc, grid, slots, steady)?),
        512 => GroupCase::Of512(Group::new(alloc, grid, slots, steady)?),
        1024 => GroupCase::Of1024(Group::new(alloc, grid, slots, steady)?),
        _ => unreachable!(),
    })
}
