//! A group: the bank that its ranks share, for one capacity, and the ranks that are still to be
//! made.
ghost use Rattle.std.specs.Prelude.{◌≡◌, ◌<◌, true, false, Ok, Err, IfOk, OnOk, OnErr};
ghost use Rattle.std.specs.Arc.{arc_value};
ghost use Rattle.item_buffer.specs.Capacity.{IsCap};
ghost use Rattle.route_tensor.specs.Grid.{ranks};
ghost use Rattle.port_bank.specs.Port.{IsSlots};
ghost use Rattle.rank_handles.specs.Grouped.{Grouped, IsNewGroup, NewRank, IsNewRank, with_given, rank_answer};
ghost use Rattle.rank_handles.specs.RankAtBank.{HasSeatFor, GaveSeat};
ghost use Rattle.rank_handles.specs.Cases.{seen_by_hops};

use crate::answer::Answer;
use crate::cases::HopsCase;
use crate::rank::Rank;
use bale_items::NoMemory;
use link_slots::{GatherSeat, SlotBank};
use route_tensor::Grid;
use std::alloc::Global;
use std::marker::Model;
use std::sync::Arc;

/// A bank of one capacity, with the seats that it has still to give out.
#[derive(Drop)]
pub(crate) struct Group<const CAP: usize> {
    bank: Arc<SlotBank<CAP>, Global>,
    gather: GatherSeat<CAP>,
    grid: Grid,
    steady: bool,
    /// Of each rank, whether it was made.
    given: Vec<bool>,
}

impl<const CAP: usize> Model for Group<CAP> {
    ghost use Rattle.std.specs.Arc.{arc_value};
    ghost use Rattle.rank_handles.specs.Grouped.{Grouped};

    ghost Value = { Grouped };

    ghost use Rattle.rank_handles.specs.RankAtBank.{IsGroup};

    ghost view = { λ g. record { bank = arc_value g.bank; cap = CAP; steady = g.steady; given = g.given.items } };

    ghost invariant = { λ g. IsGroup CAP (arc_value g.bank) g.gather g.grid g.given.items };
}

impl<const CAP: usize> Group<CAP> {
    /// A group of which no rank was made.
    pub(crate) fn new(
        alloc: Global,
        grid: &Grid,
        slots: u32,
        steady: bool,
    ) -> Result<Group<CAP>, NoMemory>
        requires cap { IsCap CAP }
        requires slots { IsSlots slots }
        ensures { IfOk result (λ g. IsNewGroup grid.now CAP slots steady g) }
    {
        let (bank, gather) = SlotBank::new(alloc, grid, slots)?;
        let Ok(given) = Vec::from_elem(alloc, false, grid.ranks() as usize) else {
            return Err(NoMemory);
        };
        let Ok(bank) = Arc::new(alloc, bank) else {
            return Err(NoMemory);
        };
        Ok(Group {
            bank,
            gather,
            grid: *grid,
            steady,
            given,
        })
    }

    /// How many ranks there are.
    pub(crate) fn ranks(&self) -> u32
        ensures { result ≡ ranks self.now.bank.shape.dims }
    {
        self.grid.ranks()
    }

    /// What becomes of the wish to make this rank, if there is memory.
    pub(crate) fn answer(&self, rank: u32) -> Answer
        ensures { result ≡ rank_answer self.now rank }
    {
        if rank >= self.grid.ranks() {
            return Answer::NoSuchRank;
        }
        if self.given[rank as usize] {
            return Answer::RankTaken;
        }
        Answer::Good
    }

    /// A rank that was not made before.
    #[tactic(auto, unfolding(crate::specs::Grouped::IsNewRank))]
    pub(crate) fn new_rank(&mut self, alloc: Global, rank: u32) -> Result<HopsCase<CAP>, NoMemory>
        requires free { rank_answer self.old rank ≡ Answer.Good }
        ensures made { IfOk result (λ r. IsNewRank self.old rank (seen_by_hops r)) }
        ensures given { OnOk result (self.new ≡ with_given self.old rank) }
        ensures unchanged { OnErr result (self.new ≡ self.old) }
    {
        let made = case_of(
            alloc,
            &self.bank,
            &mut self.gather,
            &self.grid,
            rank,
            self.steady,
        )?;
        self.given[rank as usize] = true;
        Ok(made)
    }
}

/// A rank whose seat was not given out before, by the number of hops.
fn case_of<const CAP: usize>(
    alloc: Global,
    bank: &Arc<SlotBank<CAP>, Global>,
    gather: &mut GatherSeat<CAP>,
    grid: &Grid,
    rank: u32,
    steady: bool,
) -> Result<HopsCase<CAP>, NoMemory>
    requires cap { IsCap CAP }
    requires seat { HasSeatFor (arc_value bank.now) gather.old grid.now rank }
    ensures made { IfOk result (λ r. NewRank (arc_value bank.now) rank CAP steady (seen_by_hops r)) }
    ensures gather { GaveSeat rank gather.old gather.new result }
{
    match grid.hops() {
        1 => Ok(HopsCase::One(Rank::new(alloc, bank, gather, grid, rank, steady)?)),
        2 => Ok(HopsCase::Two(Rank::new(alloc, bank, gather, grid, rank, steady)?)),
        _ => Ok(HopsCase::Three(Rank::new(alloc, bank, gather, grid, rank, steady)?)),
    }
}
