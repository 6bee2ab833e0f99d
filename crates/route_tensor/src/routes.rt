//! What one rank knows of its ways, for the loops that handle every item: made once, so that
//! sending, passing on and receiving an entry is a look-up and no division.

ghost use Rattle.std.specs.Prelude.{◌≡◌, ℕ, ◌+◌, ◌-◌, ◌<◌, ◌≤◌, length, sum, slice_index_or, IfOk};
ghost use Rattle.list_laws.specs.Lists.{EachAt};
ghost use Rattle.route_tensor.specs.Grid.{ranks, dim, coord, place, IsGrid};
ghost use Rattle.route_tensor.specs.Link.{links, links_before};
ghost use Rattle.route_tensor.specs.Ends.{hop_at, sender_at, reader_at};
ghost use Rattle.route_tensor.specs.Neighbour.{hop_to, neighbour, link_to, link_from, out_index, in_index};
ghost use Rattle.route_tensor.specs.Tag.{digit, IsFair, tag_at, sender_of};
ghost use Rattle.route_tensor.specs.Routes.{first_step, about, passed_on};

use crate::grid::Grid;
use bale_items::{Entry, Item, NoMemory, Tag};
use std::alloc::Global;
use std::marker::Model;

/// Where an entry goes next.
#[derive(Clone, Copy, PartialEq, Eq, Debug)]
pub struct Onward {
    /// The number of the neighbour.
    pub out: u32,
    /// The entry's tag on the link to it.
    pub tag: Tag,
}

/// What a rank knows of one of its neighbours.
#[derive(Clone, Copy, PartialEq, Eq, Debug)]
pub struct Neighbour {
    /// Which rank it is.
    pub rank: u32,
    /// The hop of the links to it and from it.
    pub hop: u32,
    /// The numbers of these two links.
    pub link_to: u32,
    pub link_from: u32,
    /// Its coordinate of that hop.
    pub digit: u8,
    /// The number of the first neighbour on the next hop.
    pub next: u32,
    /// Its rank, without the coordinates below that hop.
    pub high: u32,
    /// Fills it up to 32 bytes: its place in a list is a shift of its number.
    pub filler: u32,
}

impl Neighbour {
    /// Where an entry goes that came from this neighbour with this tag.
    #[inline]
    pub fn passed_on(&self, tag: Tag) -> Onward
        requires first { 1 ≤ self.now.hop }
        requires last { self.now.hop ≤ 2 }
        requires small { self.now.next ≤ 66 }
        ensures { result ≡ passed_on self.now tag }
    {
        if self.hop == 1 {
            Onward {
                out: self.next + u32::from(tag.d2),
                tag: Tag {
                    d1: self.digit,
                    d2: 0,
                    d3: tag.d3,
                },
            }
        } else {
            Onward {
                out: self.next + u32::from(tag.d3),
                tag: Tag {
                    d1: tag.d1,
                    d2: self.digit,
                    d3: 0,
                },
            }
        }
    }
}

/// The tables of one rank. Contracts see the rank and its grid.
#[derive(Drop)]
pub struct Routes {
    grid: Grid,
    rank: u32,
    /// The grid's first dimension.
    first_dim: u32,
    /// By destination.
    firsts: Vec<Onward>,
    /// By destination: an entry with its first tag.
    stamps: Vec<Entry>,
    /// By number.
    neighbours: Vec<Neighbour>,
    /// By link: the number of the neighbour at the link's other end, if the link is one of this
    /// rank's.
    numbers: Vec<u8>,
}

impl Model for Routes {
    ghost use Rattle.route_tensor.specs.Routes.{Site, IsRankTable, IsStamped};

    ghost Value = { Site };

    ghost view = { λ t. record { dims = t.grid; rank = t.rank } };

    ghost invariant = { λ t. IsRankTable t.grid t.rank t.first_dim t.firsts.items t.neighbours.items t.numbers.items
        × IsStamped t.grid t.rank t.stamps.items };
}

impl Routes {
    /// The tables of this rank.
    pub fn new(alloc: Global, grid: &Grid, rank: u32) -> Result<Routes, NoMemory>
        requires { rank < ranks grid.now }
        ensures { IfOk result (λ t. t ≡ record { dims = grid.now; rank = rank }) }
    {
        let firsts = first_steps(alloc, grid, rank)?;
        let stamps = stamps(alloc, grid, rank)?;
        let neighbours = neighbours(alloc, grid, rank)?;
        let numbers = numbers(alloc, grid, rank, &neighbours)?;
        Ok(Routes {
            grid: *grid,
            rank,
            first_dim: grid.dim(1),
            firsts,
            stamps,
            neighbours,
            numbers,
        })
    }

    /// Does nothing, and states what holds of tables at every moment.
    #[inline]
    pub fn known(&self)
        ensures grid { IsGrid self.now.dims }
        ensures rank { self.now.rank < ranks self.now.dims }
    {
        let _neighbours = &self.neighbours;
    }

    /// How many neighbours the rank has.
    #[inline]
    pub fn neighbours(&self) -> u32
        ensures value { result ≡ sum self.now.dims }
        ensures grid { IsGrid self.now.dims }
        ensures rank { self.now.rank < ranks self.now.dims }
    {
        self.neighbours.len() as u32
    }

    /// The number of the first neighbour on hop `h`; past the last hop, how many neighbours there
    /// are.
    #[inline]
    pub fn first_of(&self, h: u32) -> u32
        requires first { 1 ≤ h }
        requires last { h ≤ length self.now.dims + 1 }
        ensures value { result ≡ links_before self.now.dims h }
        ensures grid { IsGrid self.now.dims }
        ensures within { result ≤ sum self.now.dims }
    {
        self.grid.sum(h - 1)
    }

    /// What the rank knows of its neighbour number `i`.
    #[inline]
    pub fn neighbour(&self, i: u32) -> Neighbour
        requires { i < sum self.now.dims }
        ensures value { result ≡ about self.now.dims self.now.rank i }
        ensures first_hop { 1 ≤ result.hop }
        ensures last_hop { result.hop ≤ length self.now.dims }
        ensures small { result.next ≤ 66 }
    {
        self.neighbours[i as usize]
    }

    /// The first link of an entry from this rank to `to`.
    #[inline]
    pub fn first(&self, to: u32) -> Onward
        requires { to < ranks self.now.dims }
        ensures value { result ≡ first_step self.now.dims self.now.rank to }
        ensures fair { IsFair self.now.dims 1 result.tag }
        ensures below { result.out < sum self.now.dims }
    {
        let first = &self.firsts[to as usize];
        Onward {
            out: first.out,
            tag: first.tag,
        }
    }

    /// The entry for `to` with this item, as this rank sends it first. It is copied whole, so that
    /// the tag goes as one word.
    #[inline]
    pub fn entry(&self, to: u32, item: Item) -> Entry
        requires { to < ranks self.now.dims }
        ensures value { result ≡ record { tag = tag_at self.now.dims self.now.rank to 1; item = item } }
        ensures fair { IsFair self.now.dims 1 result.tag }
    {
        let mut entry = self.stamps[to as usize];
        entry.item = item;
        entry
    }

    /// The sender of an entry that came with this tag on the last hop, from neighbour number `i`.
    #[inline]
    pub fn sender(&self, i: u32, tag: Tag) -> u32
        requires neighbour { i < sum self.now.dims }
        requires last { hop_to self.now.dims i ≡ length self.now.dims }
        requires fair { IsFair self.now.dims (length self.now.dims) tag }
        ensures value { result ≡ sender_of self.now.dims tag (length self.now.dims)
            (neighbour self.now.dims self.now.rank i) }
        ensures rank { result < ranks self.now.dims }
    {
        self.neighbours[i as usize].high + u32::from(tag.d1) + self.first_dim * u32::from(tag.d2)
    }

    /// The number of the neighbour to which this link leads.
    #[inline]
    pub fn number_to(&self, link: u32) -> u32
        requires link { link < links self.now.dims }
        requires starts_here { sender_at self.now.dims link ≡ self.now.rank }
        ensures value { result ≡ out_index self.now.dims link }
        ensures hop { hop_to self.now.dims result ≡ hop_at self.now.dims link }
        ensures below { result < sum self.now.dims }
    {
        u32::from(self.numbers[link as usize])
    }

    /// The number of the neighbour from which this link comes.
    #[inline]
    pub fn number_from(&self, link: u32) -> u32
        requires link { link < links self.now.dims }
        requires ends_here { reader_at self.now.dims link ≡ self.now.rank }
        ensures value { result ≡ in_index self.now.dims link }
        ensures hop { hop_to self.now.dims result ≡ hop_at self.now.dims link }
        ensures below { result < sum self.now.dims }
    {
        u32::from(self.numbers[link as usize])
    }
}

/// The first steps from `rank`, by destination.
fn first_steps(alloc: Global, grid: &Grid, rank: u32) -> Result<Vec<Onward>, NoMemory>
    requires { rank < ranks grid.now }
    ensures grid { IsGrid grid.now }
    ensures all { IfOk result (λ steps. length steps.items ≡ ranks grid.now) }
    ensures each { IfOk result (λ steps. EachAt (λ d step. step ≡ first_step grid.now rank d) steps.items) }
{
    let ranks = grid.ranks();
    let mut steps = Vec::with_capacity(alloc, ranks as usize)?;
    for d in 0..ranks {
        steps.push(Onward {
            out: grid.coord(d, 1),
            tag: grid.tag_first(rank, d),
        })?;
    }
    Ok(steps)
}

/// By destination, entries that have the first tag from `rank`.
fn stamps(alloc: Global, grid: &Grid, rank: u32) -> Result<Vec<Entry>, NoMemory>
    requires { rank < ranks grid.now }
    ensures all { IfOk result (λ stamps. length stamps.items ≡ ranks grid.now) }
    ensures each { IfOk result (λ stamps. EachAt (λ d e. e.tag ≡ tag_at grid.now rank d 1) stamps.items) }
{
    let ranks = grid.ranks();
    let mut stamps = Vec::with_capacity(alloc, ranks as usize)?;
    for d in 0..ranks {
        let tag = grid.tag_first(rank, d);
        let item = Item::default();
        stamps.push(Entry { tag, item })?;
    }
    Ok(stamps)
}

/// What `rank` knows of each of its neighbours.
fn neighbours(alloc: Global, grid: &Grid, rank: u32) -> Result<Vec<Neighbour>, NoMemory>
    requires { rank < ranks grid.now }
    ensures all { IfOk result (λ all. length all.items ≡ sum grid.now) }
    ensures each { IfOk result (λ all. EachAt (λ i n. n ≡ about grid.now rank i) all.items) }
{
    let most = grid.sum(grid.hops());
    let mut all = Vec::with_capacity(alloc, most as usize)?;
    for i in 0..most {
        all.push(grid.neighbour(rank, i))?;
    }
    Ok(all)
}

/// By link, the number of the neighbour at its other end.
fn numbers(
    alloc: Global,
    grid: &Grid,
    rank: u32,
    neighbours: &[Neighbour],
) -> Result<Vec<u8>, NoMemory>
    requires rank { rank < ranks grid.now }
    requires all { length neighbours.now ≡ sum grid.now }
    requires each { EachAt (λ i n. n ≡ about grid.now rank i) neighbours.now }
    ensures all { IfOk result (λ numbers. length numbers.items ≡ links grid.now) }
    ensures to { IfOk result (λ numbers. (i : ℕ) (d : ℕ) → i < sum grid.now
        → slice_index_or numbers.items (link_to grid.now rank i) d ≡ i) }
    ensures from { IfOk result (λ numbers. (i : ℕ) (d : ℕ) → i < sum grid.now
        → slice_index_or numbers.items (link_from grid.now rank i) d ≡ i) }
{
    let mut numbers = vec![in alloc; 0u8; grid.links() as usize]?;
    for i in 0..neighbours.len() {
        let neighbour = neighbours[i];
        numbers[neighbour.link_to as usize] = i as u8;
        numbers[neighbour.link_from as usize] = i as u8;
    }
    Ok(numbers)
}

impl Grid {
    /// What `rank` knows of its neighbour number `i`.
    fn neighbour(&self, rank: u32, i: u32) -> Neighbour
        requires rank { rank < ranks self.now }
        requires number { i < sum self.now }
        ensures { result ≡ about self.now rank i }
    {
        let hop = self.hop_among(1, i);
        let digit = i - self.sum(hop - 1);
        let other = self.with_coord(rank, hop, digit);
        Neighbour {
            rank: other,
            hop,
            link_to: self.link(hop, rank, other),
            link_from: self.link(hop, other, rank),
            digit: digit as u8,
            next: self.sum(hop),
            high: self.place(other, 0, hop - 1),
            filler: 0,
        }
    }
}
