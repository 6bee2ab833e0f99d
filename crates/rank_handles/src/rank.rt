//! A rank at its bank: its seat and its conveyor, for one capacity and one number of hops.
ghost use Rattle.std.specs.Prelude.{◌≡◌, ◌≢◌, ◌<◌, true, false, None, Some, length, IfOk};
ghost use Rattle.std.specs.Arc.{arc_value};
ghost use Rattle.item_buffer.specs.Capacity.{IsCap};
ghost use Rattle.route_tensor.specs.Grid.{ranks};
ghost use Rattle.link_slots.specs.SeatView.{posted_on, collected_from};
ghost use Rattle.port_bank.specs.Machine.{IsOwnStep};
ghost use Rattle.convey.specs.Buffers.{buffers_of, is_complete};
ghost use Rattle.convey.specs.Parts.{part_of};
ghost use Rattle.convey.specs.Progress.{progress_of, advance_step};
ghost use Rattle.rank_handles.specs.Answers.{item_or_nothing};
ghost use Rattle.rank_handles.specs.RankAtBank.{IsAtBank, HasSeatFor, GaveSeat};
ghost use Rattle.rank_handles.specs.Grouped.{NewRank};
ghost use Rattle.rank_handles.specs.Statistics.{statistics_on};

use crate::answer::Answer;
use crate::exchange::Exchange;
use crate::item::BaleItem;
use crate::many::{are_ranks, pull_while_some, push_while_room};
use crate::statistics::{BaleStatistics, CountingPort};
use crate::view::{BaleView, lent_count, lent_view, pull_lent};
use bale_items::{Item, NoMemory};
use convey::{Conveyor, Phase, Progress, Pushed};
use link_slots::{GatherSeat, SlotBank, SlotSeat};
use route_tensor::Grid;
use std::alloc::Global;
use std::marker::Model;
use std::sync::Arc;

/// A rank at its bank, which it shares with the group and the other ranks.
#[derive(Drop)]
pub(crate) struct Rank<const CAP: usize, const HOPS: usize> {
    bank: Arc<SlotBank<CAP>, Global>,
    /// Away only while an advance has it.
    seat: Option<SlotSeat<CAP>>,
    conveyor: Conveyor<CAP, HOPS>,
    /// How many ranks there are.
    ranks: u32,
    epoch: u64,
    done: bool,
    statistics: BaleStatistics,
}

impl<const CAP: usize, const HOPS: usize> Model for Rank<CAP, HOPS> {
    ghost use Rattle.std.specs.Arc.{arc_value};
    ghost use Rattle.rank_handles.specs.Seated.{Seated};

    ghost Value = { Seated };

    ghost use Rattle.rank_handles.specs.RankAtBank.{seat_in, IsSeatedHandle};

    ghost view = { λ r. record { seat = seat_in r.seat; state = r.conveyor } };

    ghost invariant = { λ r. IsSeatedHandle (arc_value r.bank) r.seat r.conveyor r.ranks r.epoch r.done r.statistics };
}

impl<const CAP: usize, const HOPS: usize> Rank<CAP, HOPS> {
    /// A rank whose seat was not given out before, before its first epoch.
    pub(crate) fn new(
        alloc: Global,
        bank: &Arc<SlotBank<CAP>, Global>,
        gather: &mut GatherSeat<CAP>,
        grid: &Grid,
        rank: u32,
        steady: bool,
    ) -> Result<Rank<CAP, HOPS>, NoMemory>
        requires cap { IsCap CAP }
        requires hops { length grid.now ≡ HOPS }
        requires seat { HasSeatFor (arc_value bank.now) gather.old grid.now rank }
        ensures made { IfOk result (λ r. NewRank (arc_value bank.now) rank CAP steady r) }
        ensures gather { GaveSeat rank gather.old gather.new result }
    {
        let conveyor = Conveyor::new(alloc, grid, rank, steady)?;
        let Ok(bank) = Arc::try_clone(bank) else {
            return Err(NoMemory);
        };
        let seat = bank.seat(gather, rank);
        Ok(Rank {
            bank,
            seat: Some(seat),
            conveyor,
            ranks: grid.ranks(),
            epoch: 0,
            done: false,
            statistics: BaleStatistics::none(),
        })
    }
}

impl<const CAP: usize, const HOPS: usize> Exchange for Rank<CAP, HOPS> {
    ghost seen = { λ r. Some r };

    fn ranks(&self) -> u32 {
        self.ranks
    }

    fn phase(&self) -> Option<Phase> {
        Some(self.conveyor.phase())
    }

    fn statistics(&self) -> BaleStatistics {
        self.statistics
    }

    #[tactic(auto, unfolding(crate::specs::Seated::Moved, crate::specs::Calls::Begins))]
    fn begin(&mut self) -> Answer {
        match self.conveyor.phase() {
            Phase::Dormant => {
                self.conveyor.begin();
                Answer::Good
            }
            _ => Answer::BegunAlready,
        }
    }

    #[tactic(auto, unfolding(crate::specs::Seated::Moved, crate::specs::Calls::Pushes))]
    #[inline]
    fn push(&mut self, item: Item, to: u32) -> Answer {
        match self.conveyor.phase() {
            Phase::Dormant => Answer::NotBegun,
            Phase::Working => {
                if to >= self.ranks {
                    return Answer::NoSuchRank;
                }
                match self.conveyor.push(item, to) {
                    Pushed::Accepted => Answer::Good,
                    Pushed::Full => Answer::Full,
                }
            }
            _ => Answer::DoneAlready,
        }
    }

    #[tactic(auto, unfolding(crate::specs::Calls::Pulls))]
    #[inline]
    fn pull(&mut self) -> Result<(u32, Item), Answer> {
        match self.conveyor.phase() {
            Phase::Dormant => Err(Answer::NotBegun),
            _ => some_item(self.conveyor.pull()),
        }
    }

    #[tactic(auto, unfolding(crate::specs::Seated::Moved, crate::specs::Calls::Unpulls))]
    fn unpull(&mut self) -> Answer {
        if self.conveyor.unpull() {
            Answer::Good
        } else {
            Answer::Nothing
        }
    }

    #[tactic(auto, unfolding(crate::specs::Calls::Advances))]
    fn advance(&mut self, done: bool) -> Answer {
        if self.conveyor.phase() == Phase::Dormant {
            return Answer::NotBegun;
        }
        if self.done && !done {
            return Answer::DoneAlready;
        }
        let Some(seat) = self.seat.take() else {
            unreachable!()
        };
        let (progress, seat) = advance_at(
            &self.bank,
            seat,
            &mut self.conveyor,
            &mut self.statistics,
            done,
        );
        self.seat = Some(seat);
        self.done = done;
        match progress {
            Progress::More => Answer::More,
            Progress::Near => Answer::Near,
            Progress::Complete => Answer::Complete,
        }
    }

    #[tactic(auto, unfolding(crate::specs::Views::LentBy))]
    fn view(&self) -> Result<BaleView<'_>, Answer> {
        if self.conveyor.phase() == Phase::Dormant {
            return Err(Answer::NotBegun);
        }
        match lent_view(&self.conveyor) {
            Some(view) => Ok(view),
            None => Err(Answer::Nothing),
        }
    }

    #[tactic(auto, unfolding(crate::specs::Views::PullsLent))]
    fn pulled(&mut self, count: usize) -> Answer {
        if self.conveyor.phase() == Phase::Dormant {
            return Answer::NotBegun;
        }
        if count > lent_count(&self.conveyor) {
            return Answer::NotLent;
        }
        pull_lent(&mut self.conveyor, count);
        Answer::Good
    }

    #[tactic(auto, unfolding(crate::specs::Calls::Resets))]
    fn reset(&mut self) -> Answer {
        match self.conveyor.phase() {
            Phase::Complete => {
                if self.epoch >= 1 << 63 {
                    return Answer::NoMoreEpochs;
                }
                self.conveyor.reset();
                self.epoch += 1;
                self.done = false;
                Answer::Good
            }
            _ => Answer::NotComplete,
        }
    }

    #[tactic(auto, unfolding(crate::specs::Many::PushesMany))]
    fn push_many(&mut self, items: &[BaleItem], to: &[u32]) -> Result<usize, Answer> {
        match self.conveyor.phase() {
            Phase::Dormant => return Err(Answer::NotBegun),
            Phase::Working => (),
            _ => return Err(Answer::DoneAlready),
        }
        if !are_ranks(self.ranks, to) {
            return Err(Answer::NoSuchRank);
        }
        Ok(push_while_room(&mut self.conveyor, items, to))
    }

    #[tactic(auto, unfolding(crate::specs::Many::PullsMany))]
    fn pull_many(&mut self, items: &mut [BaleItem], from: &mut [u32]) -> Result<usize, Answer> {
        if self.conveyor.phase() == Phase::Dormant {
            return Err(Answer::NotBegun);
        }
        Ok(pull_while_some(&mut self.conveyor, items, from))
    }
}

/// An item and its sender, if there is one.
#[inline]
fn some_item(pulled: Option<(u32, Item)>) -> Result<(u32, Item), Answer>
    ensures { result ≡ item_or_nothing pulled }
{
    match pulled {
        Some(given) => Ok(given),
        None => Err(Answer::Nothing),
    }
}

/// Advances a conveyor over the port of its seat, and gives the seat back.
fn advance_at<const CAP: usize, const HOPS: usize>(
    bank: &SlotBank<CAP>,
    seat: SlotSeat<CAP>,
    conveyor: &mut Conveyor<CAP, HOPS>,
    statistics: &mut BaleStatistics,
    done: bool,
) -> (Progress, SlotSeat<CAP>)
    requires begun { conveyor.old.phase ≢ Phase.Dormant }
    requires at_bank { IsAtBank bank.now seat conveyor.old }
    requires done_stays { conveyor.old.done ≡ true → done ≡ true }
    requires counted { statistics.old ≡ statistics_on seat }
    ensures counted { statistics.new ≡ statistics_on result.1 }
    ensures at_bank { IsAtBank bank.now result.1 conveyor.new }
    ensures answer { result.0 ≡ progress_of conveyor.new.phase }
    ensures dims { conveyor.new.dims ≡ conveyor.old.dims }
    ensures rank { conveyor.new.rank ≡ conveyor.old.rank }
    ensures epoch { conveyor.new.epoch ≡ conveyor.old.epoch }
    ensures done { conveyor.new.done ≡ done }
    ensures begun { conveyor.new.phase ≢ Phase.Dormant }
    ensures working { done ≡ false → conveyor.new.phase ≡ Phase.Working }
    ensures step { IsOwnStep (advance_step conveyor.old.done done (is_complete conveyor.new.phase))
        (part_of (buffers_of conveyor.old) (posted_on seat.entry) (collected_from seat.entry))
        (part_of (buffers_of conveyor.new) (posted_on result.1) (collected_from result.1)) }
{
    let mut counting = CountingPort::new(bank.port(seat), *statistics);
    let Ok(progress) = conveyor.advance(&mut counting, done) else {
        unreachable!()
    };
    let (port, counted) = counting.into_parts();
    *statistics = counted;
    (progress, port.into_seat())
}
