//! One rank's part of delta-stepping.

ghost use Rattle.bale_items.specs.Changes.{AllOrNothing};
ghost use Rattle.std.specs.Prelude.{◌≡◌, ◌≢◌, ◌<◌, ◌/◌, ◌+◌, ◌-◌, ◌&&◌, ◌==◌, [], OnOk, min};
ghost use Rattle.std.specs.List.{All};
ghost use Rattle.round_program.specs.Laws.{Fits};
ghost use Rattle.round_program.specs.Batches.{taken_in};
ghost use Rattle.least_walks.specs.Vertices.{least_marked};
ghost use Rattle.delta_step.specs.declared.phase.Phase.TheVariants.{First, Find, Light, Heavy};
ghost use Rattle.delta_step.specs.Deltas.{IsDelta, DeltaState, delta_rules, bucket_of, announced_items, no_bucket, ascending, offered_along, absorbed_in, finding, sorted_out, after_activation, after_last_round};
ghost use Rattle.delta_step.specs.code.DeltaSeats.{IsDeltaSeat, DeltaTakesIn, BeginsRound};

use crate::phase::Phase;
use crate::seat::Seat;
use bale_items::{Item, NoMemory, value_of};
use least_walks::{Table, Vertices, put_offers};
use mtx_text::Cells;
use round_program::{Arrivals, Program};
use std::alloc::Global;
use std::marker::Model;
use std::mem;

/// Stands for no bucket.
const NO_BUCKET: u64 = u64::MAX;

/// One rank's part of delta-stepping. Vertex `i` belongs to rank `i mod ranks`, which keeps it at
/// place `i div ranks`.
#[derive(Drop)]
pub struct Delta {
    alloc: Global,
    rank: u32,
    ranks: u32,
    round: u64,
    /// the number of vertices
    rows: u32,
    /// how many weights a bucket has
    width: u64,
    phase: Phase,
    /// the edges of own vertices, as they come in the first round
    arriving: Cells,
    /// the light edges of own vertices from then on, by place
    light: Table,
    /// the heavy ones
    heavy: Table,
    /// own vertices by place; the pending ones are marked
    vertices: Vertices,
    /// the least bucket that was absorbed in a find round, which is then the bucket that is worked
    /// on
    bucket: u64,
    /// the places of own vertices that were active in this bucket
    settled: Vec<u32>,
    /// what is sent in this round
    outgoing: Vec<(u32, Item)>,
    /// what was sent in the round before, or anything: a list whose memory is kept for the next
    /// round
    spare: Vec<(u32, Item)>,
}

impl Model for Delta {
    ghost use Rattle.delta_step.specs.Deltas.{DeltaState, IsDelta};

    ghost Value = { DeltaState };

    ghost use Rattle.delta_step.specs.code.DeltaView.{delta_state};

    ghost view = { delta_state };

    ghost invariant = { λ s. IsDelta (delta_state s) };
}

impl Delta {
    /// A rank before its first round.
    pub(crate) fn new(
        alloc: Global,
        rank: u32,
        ranks: u32,
        rows: u32,
        width: u64,
        vertices: Vertices,
        outgoing: Vec<(u32, Item)>,
    ) -> Delta
        requires { IsDelta (record {
          rank = rank;
          ranks = ranks;
          round = 0;
          rows = rows;
          width = width;
          phase = First;
          arriving = [];
          light = [];
          heavy = [];
          vertices = vertices;
          bucket = 0;
          settled = [];
          outgoing = outgoing.items;
        }) }
        ensures { result ≡ record {
          rank = rank;
          ranks = ranks;
          round = 0;
          rows = rows;
          width = width;
          phase = First;
          arriving = [];
          light = [];
          heavy = [];
          vertices = vertices;
          bucket = 0;
          settled = [];
          outgoing = outgoing.items;
        } }
    {
        Delta {
            alloc,
            rank,
            ranks,
            round: 0,
            rows,
            width,
            phase: Phase::First,
            arriving: Cells::new(alloc),
            light: Table::new(alloc),
            heavy: Table::new(alloc),
            vertices,
            bucket: 0,
            settled: Vec::new(alloc),
            outgoing,
            spare: Vec::new(alloc),
        }
    }

    /// The number of vertices of all ranks.
    pub(crate) fn rows(&self) -> u32
        ensures { result ≡ self.now.rows }
    {
        self.rows
    }

    /// The own vertices; vertex `i` is at `i div ranks`.
    pub fn vertices(&self) -> &Vertices
        ensures { result.now ≡ self.now.vertices }
    {
        &self.vertices
    }
}

impl Program for Delta {
    ghost use Rattle.delta_step.specs.Deltas.{delta_rules};
    ghost use Rattle.delta_step.specs.laws.DeltaLaws.{delta_laws};

    ghost rules = { delta_rules };

    ghost laws = { delta_laws };

    fn rank(&self) -> u32 {
        self.rank
    }

    fn ranks(&self) -> u32 {
        self.ranks
    }

    fn round(&self) -> u64 {
        self.round
    }

    fn count(&self) -> u64 {
        self.outgoing.len() as u64
    }

    fn emission(&self, i: u64) -> (u32, Item) {
        // Taken apart and built anew, it goes through no memory.
        let (to, Item { a, b, c }) = self.outgoing[i as usize];
        (to, Item { a, b, c })
    }

    fn fits(&self, from: u32, item: Item) -> bool {
        self.seat().fits(from, item)
    }

    fn absorb(&mut self, from: u32, item: Item) -> Result<(), NoMemory> {
        let seat = self.seat();
        self.absorb_on(seat, from, item)
    }

    fn absorb_each<I: Arrivals>(&mut self, came: I) -> Result<(), NoMemory> {
        // What the rank is sent in its round, and what for, is read once for all items.
        let seat = self.seat();
        let mut came = came;
        while let Some((from, item)) = came.next() {
            self.take_in(seat, from, item)?;
        }
        Ok(())
    }

    fn vote(&self) -> u64 {
        match self.phase {
            Phase::First => 1,
            Phase::Find => self.vertices.count() as u64,
            Phase::Light => 1 + self.vertices.count_bucket(self.width, self.bucket) as u64,
            Phase::Heavy => 1,
        }
    }

    fn goes_on(&self, votes: u64) -> bool {
        votes != 0
    }

    fn end_round(&mut self, votes: u64) -> Result<bool, NoMemory> {
        match self.phase {
            Phase::First => self.sort_out()?,
            Phase::Find => self.activate()?,
            Phase::Light => {
                if votes > self.ranks as u64 {
                    self.activate()?
                } else {
                    self.finish()?
                }
            }
            Phase::Heavy => self.find()?,
        }
        Ok(votes != 0)
    }
}

impl Delta {
    /// Which items this rank may be sent, and what its round is for.
    #[inline(always)]
    fn seat(&self) -> Seat
        ensures { IsDeltaSeat result self.now }
    {
        Seat {
            rank: self.rank,
            ranks: self.ranks,
            rows: self.rows,
            round: self.round,
            phase: self.phase,
        }
    }

    /// Takes in an item of a rank, if it fits.
    #[inline(always)]
    fn take_in(&mut self, seat: Seat, from: u32, item: Item) -> Result<(), NoMemory>
        requires { IsDeltaSeat seat self.old }
        ensures { DeltaTakesIn (taken_in delta_rules self.old from item) seat self.old self.new result }
    {
        if seat.fits(from, item) {
            return self.absorb_on(seat, from, item);
        }
        Ok(())
    }

    /// Takes in an item that fits.
    #[inline(always)]
    fn absorb_on(&mut self, seat: Seat, from: u32, item: Item) -> Result<(), NoMemory>
        requires seat { IsDeltaSeat seat self.old }
        requires fits { Fits delta_rules self.old from item }
        ensures { DeltaTakesIn (delta_rules.absorbed self.old from item) seat self.old self.new result }
    {
        match seat.phase {
            Phase::First => self.take_edge(item),
            Phase::Find => {
                self.hear(item.a);
                Ok(())
            }
            Phase::Light => self.take_offer(seat, item),
            Phase::Heavy => self.take_offer(seat, item),
        }
    }

    /// Takes an edge in.
    #[inline(always)]
    fn take_edge(&mut self, item: Item) -> Result<(), NoMemory>
        requires first { self.old.phase ≡ First }
        requires row { item.a < self.old.rows }
        requires col { item.b < self.old.rows }
        ensures { AllOrNothing (absorbed_in First self.old item) self.old self.new result }
    {
        self.arriving
            .raise(item.a as u32, item.b as u32, value_of(item.c))?;
        Ok(())
    }

    /// Hears of a bucket.
    #[inline(always)]
    fn hear(&mut self, bucket: u64)
        ensures { self.new ≡ record self.old { bucket = min self.old.bucket bucket } }
    {
        self.bucket = self.bucket.min(bucket);
    }

    /// Takes the offer of a weight in, if its vertex is an own one.
    #[inline(always)]
    fn take_offer(&mut self, seat: Seat, item: Item) -> Result<(), NoMemory>
        requires seat { IsDeltaSeat seat self.old }
        ensures { AllOrNothing (record self.old { vertices = offered_along self.old item }) self.old self.new result }
    {
        if item.a < seat.rows as u64 && item.a as u32 % seat.ranks == seat.rank {
            self.vertices.improve(item.a as u32 / seat.ranks, item.b)?;
        }
        Ok(())
    }

    /// Ends the first round: edges are light or heavy, and a find round begins.
    fn sort_out(&mut self) -> Result<(), NoMemory>
        requires { self.old.phase ≡ First }
        ensures { BeginsRound (finding (sorted_out self.old)) self.old self.new result }
    {
        let places = self.vertices.len() as u32;
        let entries = mem::replace(&mut self.arriving, Cells::new(self.alloc)).into_entries();
        let light = Table::of(self.alloc, self.ranks, places, 0, self.width, &entries)?;
        let above = self.width + 1;
        let heavy = Table::of(self.alloc, self.ranks, places, above, u64::MAX, &entries)?;
        announce(&mut self.spare, self.ranks, self.width, &mut self.vertices)?;
        mem::swap(&mut self.outgoing, &mut self.spare);
        self.light = light;
        self.heavy = heavy;
        begin_finding(&mut self.settled, &mut self.bucket);
        self.phase = Phase::Find;
        self.round = self.round.saturating_add(1);
        Ok(())
    }

    /// Begins a find round, in which no vertex is settled.
    fn find(&mut self) -> Result<(), NoMemory>
        requires { self.old.phase ≢ First }
        ensures { BeginsRound (finding self.old) self.old self.new result }
    {
        announce(&mut self.spare, self.ranks, self.width, &mut self.vertices)?;
        mem::swap(&mut self.outgoing, &mut self.spare);
        begin_finding(&mut self.settled, &mut self.bucket);
        self.phase = Phase::Find;
        self.round = self.round.saturating_add(1);
        Ok(())
    }

    /// Begins a light round: the pending vertices of the bucket are active and settled.
    fn activate(&mut self) -> Result<(), NoMemory>
        requires { self.old.phase ≢ First }
        ensures { BeginsRound (after_activation self.old) self.old self.new result }
    {
        let active = self.vertices.take_bucket(self.width, self.bucket)?;
        self.settled.extend_from_slice(&active)?;
        put_offers(&mut self.spare, &self.light, &self.vertices, &active)?;
        mem::swap(&mut self.outgoing, &mut self.spare);
        self.phase = Phase::Light;
        self.round = self.round.saturating_add(1);
        Ok(())
    }

    /// Begins a heavy round: the settled vertices offer along their heavy edges.
    fn finish(&mut self) -> Result<(), NoMemory>
        requires { self.old.phase ≢ First }
        ensures { BeginsRound (after_last_round self.old) self.old self.new result }
    {
        put_in_order(&mut self.settled, self.vertices.len());
        put_offers(&mut self.spare, &self.heavy, &self.vertices, &self.settled)?;
        mem::swap(&mut self.outgoing, &mut self.spare);
        self.phase = Phase::Heavy;
        self.round = self.round.saturating_add(1);
        Ok(())
    }
}

/// In a find round no vertex is settled, and no bucket was heard of yet.
fn begin_finding(settled: &mut Vec<u32>, bucket: &mut u64)
    ensures settled { settled.new.items ≡ [] }
    ensures bucket { bucket.new ≡ no_bucket }
{
    settled.clear();
    *bucket = NO_BUCKET;
}

/// Puts word for each rank of the least bucket with a pending vertex in the place of what
/// `outgoing` held, whose memory is kept.
fn announce(
    outgoing: &mut Vec<(u32, Item)>,
    ranks: u32,
    width: u64,
    vertices: &mut Vertices,
) -> Result<(), NoMemory>
    requires { 0 < width }
    ensures told { OnOk result (outgoing.new.items ≡ announced_items ranks (bucket_of width (least_marked
        vertices.old))) }
    ensures same { vertices.new ≡ vertices.old }
{
    let bucket = bucket_of(width, vertices.least());
    outgoing.clear();
    for rank in 0..ranks {
        let item = Item {
            a: bucket,
            b: 0,
            c: 0,
        };
        outgoing.push((rank, item))?;
    }
    Ok(())
}

/// The bucket of a weight.
fn bucket_of(width: u64, least: Option<u64>) -> u64
    requires { 0 < width }
    ensures { result ≡ bucket_of width least }
{
    match least {
        None => NO_BUCKET,
        Some(weight) => (weight / width).min(NO_BUCKET),
    }
}

/// Puts places below `n` in order, each once.
fn put_in_order(places: &mut Vec<u32>, n: usize)
    requires { All (λ p. p < n) places.old.items }
    ensures { places.new.items ≡ ascending n places.old.items }
{
    places.sort_unstable();
    places.dedup();
}
