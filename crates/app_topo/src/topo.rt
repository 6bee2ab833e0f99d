//! topo: rows claim columns, level by level.

ghost use Rattle.bale_items.specs.Changes.{AllOrNothing};
ghost use Rattle.std.specs.Prelude.{◌≡◌, ◌≢◌, ◌<◌, ℕ, [], OnOk, OnErr};
ghost use Rattle.round_program.specs.Batches.{taken_in};
ghost use Rattle.app_topo.specs.Topos.{IsTopo, topo_rules, after_entry, claimed_by, after_fall};
ghost use Rattle.app_topo.specs.code.TopoSeats.{IsTopoSeat, TopoTakesIn};
ghost use Rattle.app_topo.specs.code.TopoSent.{topo_sent};
ghost use Rattle.app_topo.specs.laws.TopoLaws.{IsOwnItem};

use crate::lists::{keep_claims, put_columns, put_next};
use crate::marks::{add, fresh_after, lessen, mark, mark_if, number_at};
use crate::placed::Placed;
use crate::seat::Seat;
use crate::sent::{count_of, emission_of, emit_kept};
use crate::spans::Span;
use bale_items::{Item, NoMemory, Triple};
use mtx_text::Cells;
use round_program::{Arrivals, Departures, Program};
use std::alloc::Global;
use std::marker::Model;
use std::mem;

/// One rank's part of topo. Row `i` belongs to rank `i mod ranks` and column `j` to rank `j mod
/// ranks`; what a rank keeps of its row or column number `x` is at place `x div ranks`.
///
/// In round 0 each entry goes to the owner of its row, which counts it and adds up its column, and
/// to the owner of its column, which keeps its row. Then a row that has one entry left in columns
/// that aren't taken claims that column (odd rounds), and a column that was claimed tells its rows
/// that they have an entry less (even rounds).
#[derive(Drop)]
pub struct Topo {
    rank: u32,
    ranks: u32,
    round: u64,
    /// the matrix's number of rows, and of columns
    size: u32,
    /// how many entries of each own row are in columns that aren't taken
    numbers: Vec<u64>,
    /// the sums of these columns' numbers
    sums: Vec<u64>,
    /// the entries of own columns as column and row, in order
    columns: Vec<Triple>,
    /// where the entries of each own column are there
    spans: Vec<Span>,
    /// how many rows claimed each own column
    counts: Vec<u64>,
    /// the own rows that have claimed
    claimed: Vec<Placed>,
    /// how many own columns were claimed for the first time in this round
    fresh: u32,
    /// what came in this round: entries of own columns, own columns claimed, or own rows whose
    /// number fell to 1
    came: Cells,
    /// of what is sent in this round: in round 0 the rank's entries, then rows and the columns that
    /// they claim, or columns and the rows that have an entry less
    outgoing: Vec<Triple>,
    /// memory for the same of the next round
    next: Vec<Triple>,
    /// memory for what came, in order
    spots: Vec<Triple>,
}

impl Model for Topo {
    ghost use Rattle.app_topo.specs.Topos.{TopoState, IsTopo};

    ghost Value = { TopoState };

    ghost use Rattle.app_topo.specs.code.TopoView.{topo_state};

    ghost view = { topo_state };

    ghost invariant = { λ s. IsTopo (topo_state s) };
}

/// What a rank of topo begins with, besides its numbers.
#[derive(Drop)]
pub(crate) struct Begins {
    pub(crate) numbers: Vec<u64>,
    pub(crate) sums: Vec<u64>,
    pub(crate) counts: Vec<u64>,
    pub(crate) spans: Vec<Span>,
    pub(crate) outgoing: Vec<Triple>,
}

impl Topo {
    /// A rank before its first round.
    pub(crate) fn new(alloc: Global, rank: u32, ranks: u32, size: u32, begins: Begins) -> Topo
        requires { IsTopo (record {
          rank = rank;
          ranks = ranks;
          round = 0;
          size = size;
          numbers = begins.numbers.items;
          sums = begins.sums.items;
          columns = [];
          counts = begins.counts.items;
          claimed = [];
          fresh = 0;
          came = [];
          outgoing = topo_sent 0 ranks begins.outgoing.items;
        }) }
        ensures { result ≡ record {
          rank = rank;
          ranks = ranks;
          round = 0;
          size = size;
          numbers = begins.numbers.items;
          sums = begins.sums.items;
          columns = [];
          counts = begins.counts.items;
          claimed = [];
          fresh = 0;
          came = [];
          outgoing = topo_sent 0 ranks begins.outgoing.items;
        } }
    {
        Topo {
            rank,
            ranks,
            round: 0,
            size,
            numbers: begins.numbers,
            sums: begins.sums,
            columns: Vec::new(alloc),
            spans: begins.spans,
            counts: begins.counts,
            claimed: Vec::new(alloc),
            fresh: 0,
            came: Cells::new(alloc),
            outgoing: begins.outgoing,
            next: Vec::new(alloc),
            spots: Vec::new(alloc),
        }
    }

    /// The own rows that have claimed, by level and then row.
    pub fn claimed(&self) -> &[Placed]
        ensures { result.now ≡ self.now.claimed }
    {
        &self.claimed
    }

    /// How many rows claimed each own column.
    pub(crate) fn counts(&self) -> &[u64]
        ensures { result.now ≡ self.now.counts }
    {
        &self.counts
    }

    /// Which items this rank may be sent in its round.
    fn seat(&self) -> Seat
        ensures { IsTopoSeat result self.now }
    {
        Seat {
            rank: self.rank,
            ranks: self.ranks,
            size: self.size,
            round: self.round,
        }
    }

    /// Takes in an item of a rank, if it fits.
    #[inline(always)]
    fn take_in(&mut self, seat: Seat, from: u32, item: Item) -> Result<(), NoMemory>
        requires { IsTopoSeat seat self.old }
        ensures { TopoTakesIn (taken_in topo_rules self.old from item) seat self.old self.new result }
    {
        if seat.round == 0 {
            return self.take_in_entry(seat, from, item);
        }
        if seat.fits(from, item) {
            return self.absorb_on(seat, from, item);
        }
        Ok(())
    }

    /// Takes in an item of round 0. Each kind has its own tests, so that they are branches.
    #[inline(always)]
    fn take_in_entry(&mut self, seat: Seat, from: u32, item: Item) -> Result<(), NoMemory>
        requires seat { IsTopoSeat seat self.old }
        requires first { seat.round ≡ 0 }
        ensures { TopoTakesIn (taken_in topo_rules self.old from item) seat self.old self.new result }
    {
        if item.c == 0 {
            if seat.owns(from, item) {
                return self.enter(seat.ranks, item);
            }
            return Ok(());
        }
        if item.c == 1 && seat.owns(from, item) {
            return self.enter(seat.ranks, item);
        }
        Ok(())
    }

    /// Takes in an item that fits.
    #[inline(always)]
    fn absorb_on(&mut self, seat: Seat, from: u32, item: Item) -> Result<(), NoMemory>
        requires seat { IsTopoSeat seat self.old }
        requires own { IsOwnItem self.old.size self.old.ranks self.old.rank item }
        ensures { AllOrNothing (topo_rules.absorbed self.old from item) self.old self.new result }
    {
        if seat.round == 0 {
            return self.enter(seat.ranks, item);
        }
        if seat.round % 2 == 1 {
            return self.claim(seat.ranks, item);
        }
        self.fall(seat.ranks, item)
    }

    /// Round 0: an entry of an own row, or of an own column.
    #[inline(always)]
    fn enter(&mut self, ranks: u32, item: Item) -> Result<(), NoMemory>
        requires ranks { ranks ≡ self.old.ranks }
        requires own { IsOwnItem self.old.size self.old.ranks self.old.rank item }
        ensures { AllOrNothing (after_entry self.old item) self.old self.new result }
    {
        if item.c == 0 {
            add(&mut self.numbers, ranks, item.a, 1);
            add(&mut self.sums, ranks, item.a, item.b);
            return Ok(());
        }
        mark(&mut self.came, item.a, item.b)
    }

    /// Odd rounds: a row claims an own column.
    #[inline(always)]
    fn claim(&mut self, ranks: u32, item: Item) -> Result<(), NoMemory>
        requires ranks { ranks ≡ self.old.ranks }
        requires own { IsOwnItem self.old.size self.old.ranks self.old.rank item }
        ensures { AllOrNothing (claimed_by self.old item) self.old self.new result }
    {
        mark(&mut self.came, item.a, 0)?;
        self.fresh = fresh_after(self.fresh, number_at(&self.counts, ranks, item.a));
        add(&mut self.counts, ranks, item.a, 1);
        Ok(())
    }

    /// Ends a later round in which the rank sent nothing and nothing came: if an order has many
    /// levels, most ends are these.
    #[inline(always)]
    fn end_idle_round(&mut self)
        requires later { self.old.round ≢ 0 }
        requires sent { self.old.outgoing ≡ [] }
        requires came { self.old.came ≡ [] }
        ensures { (votes : ℕ) → self.new ≡ topo_rules.ended self.old votes }
    {
        self.fresh = 0;
        self.round = self.round.saturating_add(1);
    }

    /// Ends a round in which the rank sent something, or something came.
    #[inline(never)]
    fn end_busy_round(&mut self) -> Result<(), NoMemory>
        ensures ended { (votes : ℕ) → OnOk result (self.new ≡ topo_rules.ended self.old votes) }
        ensures refused { OnErr result (self.new.outgoing ≡ self.old.outgoing) }
    {
        if self.round != 0 && self.came.is_empty() {
            keep_claims(&mut self.claimed, self.round, &self.outgoing)?;
            self.outgoing.clear();
            self.fresh = 0;
            self.round = self.round.saturating_add(1);
            return Ok(());
        }
        self.came.take_entries(&mut self.spots);
        self.next.clear();
        put_next(
            &mut self.next,
            self.round,
            self.rank,
            self.ranks,
            self.size,
            &self.numbers,
            &self.sums,
            &self.columns,
            &self.spans,
            &self.spots,
        )?;
        keep_claims(&mut self.claimed, self.round, &self.outgoing)?;
        put_columns(
            &mut self.columns,
            &mut self.spans,
            self.ranks,
            self.round,
            &mut self.spots,
        );
        mem::swap(&mut self.outgoing, &mut self.next);
        self.fresh = 0;
        self.round = self.round.saturating_add(1);
        Ok(())
    }

    /// Later even rounds: an own row has an entry less.
    #[inline(always)]
    fn fall(&mut self, ranks: u32, item: Item) -> Result<(), NoMemory>
        requires ranks { ranks ≡ self.old.ranks }
        requires own { IsOwnItem self.old.size self.old.ranks self.old.rank item }
        ensures { AllOrNothing (after_fall self.old item) self.old self.new result }
    {
        let left = number_at(&self.numbers, ranks, item.a).wrapping_sub(1);
        mark_if(&mut self.came, left == 1, item.a)?;
        lessen(&mut self.numbers, ranks, item.a, 1);
        lessen(&mut self.sums, ranks, item.a, item.b);
        Ok(())
    }
}

impl Program for Topo {
    ghost use Rattle.app_topo.specs.Topos.{topo_rules};
    ghost use Rattle.app_topo.specs.laws.TopoLaws.{topo_laws};

    ghost rules = { topo_rules };

    ghost laws = { topo_laws };

    fn rank(&self) -> u32 {
        self.rank
    }

    fn ranks(&self) -> u32 {
        self.ranks
    }

    fn round(&self) -> u64 {
        self.round
    }

    fn count(&self) -> u64 {
        count_of(&self.outgoing, self.round)
    }

    fn emission(&self, i: u64) -> (u32, Item) {
        emission_of(&self.outgoing, self.round, self.ranks, i)
    }

    fn emit_each<D: Departures>(&self, from: u64, out: &mut D) -> u64 {
        emit_kept(&self.outgoing, self.round, self.ranks, from, out)
    }

    fn fits(&self, from: u32, item: Item) -> bool {
        self.seat().fits(from, item)
    }

    fn absorb(&mut self, from: u32, item: Item) -> Result<(), NoMemory> {
        let seat = self.seat();
        self.absorb_on(seat, from, item)
    }

    fn absorb_each<I: Arrivals>(&mut self, came: I) -> Result<(), NoMemory> {
        // What the rank is sent in its round is read once for all items.
        let seat = self.seat();
        let mut came = came;
        while let Some((from, item)) = came.next() {
            self.take_in(seat, from, item)?;
        }
        Ok(())
    }

    fn vote(&self) -> u64 {
        self.fresh as u64
    }

    fn goes_on(&self, votes: u64) -> bool {
        self.round % 2 == 0 || votes != 0
    }

    fn end_round(&mut self, votes: u64) -> Result<bool, NoMemory> {
        let goes_on = self.round % 2 == 0 || votes != 0;
        if self.round != 0 && self.outgoing.is_empty() && self.came.is_empty() {
            self.end_idle_round();
            return Ok(goes_on);
        }
        self.end_busy_round()?;
        Ok(goes_on)
    }
}
