//! sssp: each rank has the edges of its vertices and the least weight found for each, and in each
//! round offers weights along the edges of those that were improved.

ghost use Rattle.bale_items.specs.Changes.{AllOrNothing};
ghost use Rattle.std.specs.Prelude.{◌≡◌, ◌<◌, ◌/◌, ◌-◌, ◌^◌, ◌==◌, [], if◌then◌else◌, OnOk, OnErr, length};
ghost use Rattle.std.specs.List.{All};
ghost use Rattle.least_walks.specs.Tables.{table_of};
ghost use Rattle.round_program.specs.Laws.{Fits};
ghost use Rattle.round_program.specs.Batches.{taken_in};
ghost use Rattle.app_sssp.specs.Sssps.{IsSssp, sssp_rules};
ghost use Rattle.app_sssp.specs.code.SsspSeats.{IsSsspSeat};

use crate::seat::Seat;
use bale_items::{Item, NoMemory, Triple, value_of};
use least_walks::{Table, Vertices, put_offers};
use mtx_text::Cells;
use round_program::{Arrivals, Program};
use std::alloc::Global;
use std::marker::Model;
use std::mem;

/// One rank's part of sssp. Vertex `i` belongs to rank `i mod ranks`, which keeps it at place `i
/// div ranks`.
#[derive(Drop)]
pub struct Sssp {
    alloc: Global,
    rank: u32,
    ranks: u32,
    round: u64,
    /// the number of vertices
    rows: u32,
    /// the edges of own vertices, as they come in round 0
    arriving: Cells,
    /// the edges of own vertices from then on, by place
    table: Table,
    /// own vertices by place; those improved in this round are marked
    vertices: Vertices,
    /// what is sent in this round: edges, then weights
    outgoing: Vec<(u32, Item)>,
    /// what was sent in the round before, or anything: a list whose memory is kept for the next
    /// round
    spare: Vec<(u32, Item)>,
}

impl Model for Sssp {
    ghost use Rattle.app_sssp.specs.Sssps.{SsspState, IsSssp};

    ghost Value = { SsspState };

    ghost use Rattle.app_sssp.specs.code.SsspView.{sssp_state};

    ghost view = { sssp_state };

    ghost invariant = { λ s. IsSssp (sssp_state s) };
}

impl Sssp {
    /// A rank before its first round.
    pub(crate) fn new(
        alloc: Global,
        rank: u32,
        ranks: u32,
        rows: u32,
        vertices: Vertices,
        outgoing: Vec<(u32, Item)>,
    ) -> Sssp
        requires { IsSssp (record {
          rank = rank;
          ranks = ranks;
          round = 0;
          rows = rows;
          arriving = [];
          table = [];
          vertices = vertices;
          outgoing = outgoing.items;
        }) }
        ensures { result ≡ record {
          rank = rank;
          ranks = ranks;
          round = 0;
          rows = rows;
          arriving = [];
          table = [];
          vertices = vertices;
          outgoing = outgoing.items;
        } }
    {
        Sssp {
            alloc,
            rank,
            ranks,
            round: 0,
            rows,
            arriving: Cells::new(alloc),
            table: Table::new(alloc),
            vertices,
            outgoing,
            spare: Vec::new(alloc),
        }
    }

    /// Which items this rank may be sent in its round.
    fn seat(&self) -> Seat
        ensures { IsSsspSeat result self.now }
    {
        Seat {
            rank: self.rank,
            ranks: self.ranks,
            rows: self.rows,
            round: self.round,
        }
    }

    /// Takes in an item of a rank, if it fits.
    #[inline(always)]
    fn take_in(&mut self, seat: Seat, from: u32, item: Item) -> Result<(), NoMemory>
        requires { IsSsspSeat seat self.old }
        ensures ok { OnOk result (self.new ≡ taken_in sssp_rules self.old from item) }
        ensures sent { self.new.outgoing ≡ self.old.outgoing }
        ensures seat { IsSsspSeat seat self.new }
    {
        if seat.fits(from, item) {
            return self.absorb_on(seat, from, item);
        }
        Ok(())
    }

    /// Takes in an item that fits.
    #[inline(always)]
    fn absorb_on(&mut self, seat: Seat, from: u32, item: Item) -> Result<(), NoMemory>
        requires seat { IsSsspSeat seat self.old }
        requires fits { Fits sssp_rules self.old from item }
        ensures { AllOrNothing (sssp_rules.absorbed self.old from item) self.old self.new result }
    {
        if seat.round == 0 {
            self.arriving
                .raise(item.a as u32, item.b as u32, value_of(item.c))?;
            return Ok(());
        }
        self.vertices.improve(item.a as u32 / seat.ranks, item.b)
    }

    /// The number of vertices of all ranks.
    pub(crate) fn rows(&self) -> u32
        ensures { result ≡ self.now.rows }
    {
        self.rows
    }

    /// The own vertices; vertex `i` is at `i div ranks`.
    pub fn vertices(&self) -> &Vertices
        ensures { result.now ≡ self.now.vertices }
    {
        &self.vertices
    }
}

impl Program for Sssp {
    ghost use Rattle.app_sssp.specs.Sssps.{sssp_rules};
    ghost use Rattle.app_sssp.specs.laws.SsspLaws.{sssp_laws};

    ghost rules = { sssp_rules };

    ghost laws = { sssp_laws };

    fn rank(&self) -> u32 {
        self.rank
    }

    fn ranks(&self) -> u32 {
        self.ranks
    }

    fn round(&self) -> u64 {
        self.round
    }

    fn count(&self) -> u64 {
        self.outgoing.len() as u64
    }

    fn emission(&self, i: u64) -> (u32, Item) {
        // Taken apart and built anew, it goes through no memory.
        let (to, Item { a, b, c }) = self.outgoing[i as usize];
        (to, Item { a, b, c })
    }

    fn fits(&self, from: u32, item: Item) -> bool {
        self.seat().fits(from, item)
    }

    fn absorb(&mut self, from: u32, item: Item) -> Result<(), NoMemory> {
        let seat = self.seat();
        self.absorb_on(seat, from, item)
    }

    fn absorb_each<I: Arrivals>(&mut self, came: I) -> Result<(), NoMemory> {
        // What the rank is sent in its round is read once for all items.
        let seat = self.seat();
        let mut came = came;
        while let Some((from, item)) = came.next() {
            self.take_in(seat, from, item)?;
        }
        Ok(())
    }

    fn vote(&self) -> u64 {
        if self.round == 0 {
            0
        } else {
            self.vertices.count() as u64
        }
    }

    fn goes_on(&self, votes: u64) -> bool {
        self.round == 0 || votes != 0
    }

    fn end_round(&mut self, votes: u64) -> Result<bool, NoMemory> {
        let goes_on = self.round == 0 || votes != 0;
        settle_edges(
            self.alloc,
            self.round,
            self.ranks,
            &self.vertices,
            &mut self.arriving,
            &mut self.table,
        )?;
        let improved = self.vertices.take_improved();
        put_offers(&mut self.spare, &self.table, &self.vertices, &improved)?;
        mem::swap(&mut self.outgoing, &mut self.spare);
        self.round = self.round.saturating_add(1);
        Ok(goes_on)
    }
}

/// At the end of round 0 puts the edges that came to their vertices, by place; later nothing.
fn settle_edges(
    alloc: Global,
    round: u64,
    ranks: u32,
    vertices: &Vertices,
    arriving: &mut Cells,
    table: &mut Table,
) -> Result<(), NoMemory>
    requires some { 0 < ranks }
    requires inside { All (λ t. t.i / ranks < length vertices.now) arriving.old }
    requires few { length vertices.now < 2 ^ 32 }
    ensures table { OnOk result (table.new
        ≡ (if round == 0 then table_of ranks (length vertices.now) 0 (2 ^ 64 - 1) arriving.old else table.old)) }
    ensures settled { OnOk result (arriving.new ≡ (if round == 0 then [] else arriving.old)) }
    ensures table_kept { OnErr result (table.new ≡ table.old) }
    ensures lost { OnErr result (arriving.new ≡ []) }
{
    if round == 0 {
        let entries = mem::replace(arriving, Cells::new(alloc)).into_entries();
        *table = Table::of(
            alloc,
            ranks,
            vertices.len() as u32,
            0,
            u64::MAX,
            entries.as_slice(),
        )?;
    }
    Ok(())
}
