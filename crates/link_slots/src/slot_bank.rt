//! The slot bank: the table that all ranks' seats share, and the words of each link.
ghost use Rattle.std.specs.Prelude.{◌≡◌, ◌<◌, false, [], length, replicate, IfOk, Some, None, slice_index_or};
ghost use Rattle.item_buffer.specs.Capacity.{IsCap};
ghost use Rattle.item_buffer.specs.Contents.{blank};
ghost use Rattle.route_tensor.specs.Grid.{ranks};
ghost use Rattle.route_tensor.specs.Link.{links};
ghost use Rattle.port_bank.specs.Port.{IsSlots};
ghost use Rattle.port_bank.specs.Logs.{starting_at, ending_at};
ghost use Rattle.port_bank.specs.Round.{IsRound, logs_of};
ghost use Rattle.link_slots.specs.ClosedBank.{slot_round, AllThere};
ghost use Rattle.atomic_table.specs.Table.{opening};
ghost use Rattle.link_slots.specs.View.{no_logs, first_view};
ghost use Rattle.link_slots.specs.WordSteps.{IsLawful};
ghost use Rattle.link_slots.specs.SeatView.{SeatView, posted_on, collected_from};

pub(crate) mod gather;
pub(crate) mod live;
pub(crate) mod round;

use crate::seat::rank_ends::{all_ends, none_ended};
use crate::slot_bank::gather::GatherSeat;
use crate::slot_bank::round::{SlotRound, close_table};
use crate::table::plan::Plan;
use crate::table::rule::{Board, Place};
use crate::table::slot::Slot;
use crate::table::wire::{Wire, wires_of};
use bale_items::NoMemory;
use route_tensor::Grid;
use std::alloc::Global;
use std::marker::Model;
use std::snapshot::Snapshot;

/// A bank of links by slot exchange, for the parcels of capacity `CAP`. Threads share it by
/// reference.
#[derive(Drop)]
pub struct SlotBank<const CAP: usize> {
    pub(crate) board: Board<CAP>,
    /// By the number of the link.
    pub(crate) wires: Vec<Wire>,
    /// How many slots each link has.
    pub(crate) slots: u32,
    pub(crate) grid: Grid,
}

impl<const CAP: usize> Model for SlotBank<CAP> {
    ghost use Rattle.link_slots.specs.SeatView.{BankIdentity};
    ghost use Rattle.link_slots.specs.Seat.{IsWiredUp};

    ghost Value = { BankIdentity };

    ghost view = { λ b. record { id = b.board.shared.table_id; shape = b.board.shared.key } };

    ghost invariant = { λ b. IsWiredUp CAP b.board.shared.key b.board.shared.table_id b.slots b.grid b.wires.items };
}

impl<const CAP: usize> SlotBank<CAP> {
    /// A bank on which nothing was sent, and its gathering seat, which has given out no rank's
    /// seat. It takes all the memory that the links ever need. A link has 1, 2, 4 or 8 slots.
    pub fn new(
        alloc: Global,
        grid: &Grid,
        slots: u32,
    ) -> Result<(SlotBank<CAP>, GatherSeat<CAP>), NoMemory>
        requires cap { IsCap CAP }
        requires slots { IsSlots slots }
        ensures bank { IfOk result (λ b. b.0.shape ≡ record { dims = grid.now; slots = slots }) }
        ensures gather { IfOk result (λ b. b.1 ≡ record {
          id = b.0.id;
          shape = record { dims = grid.now; slots = slots };
          lists = replicate (ranks grid.now) (Some (no_logs (links grid.now)));
          given = replicate (ranks grid.now) false;
        }) }
    {
        let links = grid.links() as usize;
        let ranks = grid.ranks() as usize;
        let words = vec![in alloc; 0; 16 * (2 * links + ranks * grid.hops() as usize)]?;
        let places = empty_slots(alloc, slots as usize * links)?;
        let wires = wires_of(alloc, grid)?;
        let ends = all_ends(alloc, ranks, links)?;
        let ended = none_ended(alloc, ranks)?;
        let plan = Plan { grid: *grid, slots };
        let (board, place) = table_of(alloc, words.as_slice(), places, &plan)?;
        let bank = SlotBank {
            board,
            wires,
            slots,
            grid: *grid,
        };
        Ok((bank, GatherSeat { place, ends, ended }))
    }
}

impl<const CAP: usize> SlotBank<CAP> {
    /// Ends the exchange, if each rank's seat was gathered or never given out: what each rank
    /// pulled is a prefix of what the others pushed toward it, and all of it in each epoch that
    /// every link has ended. Of each gathered rank, the round has the logs of its seat.
    pub fn close(self, g: GatherSeat<CAP>) -> SlotRound
        requires bank { (g.id ≡ self.id) × (g.shape ≡ self.shape) }
        requires all_there { AllThere self.shape g.lists }
        ensures round { result ≡ slot_round self.entry.shape CAP g.entry.lists }
        ensures in_order { IsRound result }
        ensures sent { (s : SeatView) → slice_index_or g.entry.lists s.rank None ≡ Some s.lists
            → starting_at self.entry.shape.dims s.rank (logs_of result.sent) ≡ posted_on s }
        ensures got { (s : SeatView) → slice_index_or g.entry.lists s.rank None ≡ Some s.lists
            → ending_at self.entry.shape.dims s.rank (logs_of result.got) ≡ collected_from s }
    {
        let SlotBank {
            board,
            wires: _,
            slots,
            grid,
        } = self;
        let GatherSeat {
            place,
            ends: _,
            ended,
        } = g;
        let badge = place.into_badge();
        let last = Snapshot::of(&badge);
        close_table(board, badge.into_seat::<Slot<CAP>>());
        SlotRound {
            grid,
            cap: CAP as u32,
            slots,
            ended,
            last,
        }
    }
}

/// So many slots, each with an empty parcel.
fn empty_slots<const CAP: usize>(alloc: Global, count: usize) -> Result<Vec<Slot<CAP>>, NoMemory>
    requires cap { IsCap CAP }
    ensures { IfOk result (λ v. v.items ≡ replicate count (blank 0)) }
{
    let mut slots = Vec::with_capacity(alloc, count)?;
    for _ in 0..count {
        let slot = Slot::new(alloc)?;
        if slots.push(slot).is_err() {
            return Err(NoMemory);
        }
    }
    Ok(slots)
}

/// The table of a bank, and its first seat.
fn table_of<const CAP: usize>(
    alloc: Global,
    words: &[u64],
    slots: Vec<Slot<CAP>>,
    plan: &Plan,
) -> Result<(Board<CAP>, Place<CAP>), NoMemory>
    requires { IsLawful CAP plan.now
        (opening words.now slots.items (first_view plan.now (ranks plan.now.dims) (links plan.now.dims))) }
    ensures words { IfOk result (λ t. t.0.shared.table_id.words ≡ length words.now) }
    ensures slots { IfOk result (λ t. t.0.shared.table_id.slots ≡ length slots.entry.items) }
    ensures key { IfOk result (λ t. t.0.shared.key ≡ plan.now) }
    ensures table { IfOk result (λ t. t.1.table_id ≡ t.0.shared.table_id) }
    ensures seat { IfOk result (λ t. t.1.me ≡ (first_view plan.now (ranks plan.now.dims) (links plan.now.dims), [])) }
{
    match Board::new(alloc, words, slots, plan) {
        Ok(made) => Ok(made),
        Err(_refused) => Err(NoMemory),
    }
}
