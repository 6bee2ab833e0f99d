//! What is left of a slot bank when its exchange is over.
ghost use Rattle.std.specs.Prelude.{◌≡◌, ◌<◌};
ghost use Rattle.std.specs.Mem.Slots.{IsFull};
ghost use Rattle.route_tensor.specs.Grid.{ranks};
ghost use Rattle.link_slots.specs.Shape.{IsBoard};
ghost use Rattle.port_bank.specs.Round.{IsRound, epochs_of};
ghost use Rattle.list_laws.specs.Counts.{saturated_count};
ghost use Rattle.link_slots.specs.ClosedBank.{IsSettled, ended_of};

use crate::seat::rank_ends::EndedCounts;
use crate::table::rule::{Board, Place};
use crate::table::slot::Slot;
use crate::table::view::Knows;
use atomic_table::{Badge, Closed};
use route_tensor::Grid;
use std::alloc::Global;
use std::marker::Model;
use std::snapshot::Snapshot;

/// All parcels that were posted on a slot bank's links and collected from them, for contracts
/// alone. It stores no parcel, and is made by `SlotBank::close` alone.
#[derive(Drop)]
pub struct SlotRound {
    pub(crate) grid: Grid,
    pub(crate) cap: u32,
    pub(crate) slots: u32,
    /// Of each rank, how many epochs each of its links in has ended.
    pub(crate) ended: Vec<Option<EndedCounts>>,
    pub(crate) last: Snapshot<Badge<Knows>>,
}

impl Model for SlotRound {
    ghost use Rattle.port_bank.specs.Round.{Round};
    ghost use Rattle.link_slots.specs.ClosedBank.{slot_round, first_lists, IsEnding};

    ghost Value = { Round };

    ghost view = { λ r. slot_round (record { dims = r.grid; slots = r.slots }) r.cap (first_lists r.last.value.views) };

    ghost invariant = { λ r. IsEnding r.cap (record { dims = r.grid; slots = r.slots })
        (first_lists r.last.value.views) r.ended.items };
}

impl SlotRound {
    /// The number of ranks.
    pub fn ranks(&self) -> u32
        ensures value { result ≡ ranks self.now.dims }
        ensures round { IsRound self.now }
    {
        self.grid.ranks()
    }

    /// How many epochs every link has ended. The count saturates.
    pub fn epochs(&self) -> u64
        ensures value { result ≡ saturated_count (epochs_of self.now) }
        ensures round { IsRound self.now }
    {
        let mut least = u64::MAX;
        for link in 0..self.grid.links() {
            let (_, _, reader) = self.grid.ends(link);
            least = least.min(ended_on(&self.ended[reader as usize], link));
        }
        least
    }
}

/// How many epochs a link has ended, by what its reader counted.
fn ended_on(kept: &Option<EndedCounts>, link: u32) -> u64
    ensures { result ≡ ended_of kept.now link }
{
    match kept {
        Some(ended) => ended.counts.get(link as usize).copied().unwrap_or(0),
        None => 0,
    }
}

/// Closes the table, and drops the parcels in its slots.
pub(crate) fn close_table<const CAP: usize>(board: Board<CAP>, place: Place<CAP>)
    requires table { place.table_id ≡ board.shared.table_id }
    requires board { IsBoard board.shared.key board.shared.table_id }
    ensures { IsSettled CAP board.entry.shared.key place.entry.me.0.lists }
{
    empty_out(board.close_with(place));
}

/// Drops all parcels of a table that no seat shares any more.
fn empty_out<const CAP: usize>(mut closed: Closed<Slot<CAP>, Global>)
    requires { IsFull closed.slots }
{
    let mut i = 0;
    while i < closed.slot_count() {
        drop(closed.take(i));
        i += 1;
    }
    closed.free();
}
