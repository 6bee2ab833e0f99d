//! One rank's part of the propagation of labels.

ghost use Rattle.round_program.specs.Ranks.{IsRankOf};
ghost use Rattle.std.specs.Prelude.{◌≡◌, ◌<◌, length, IfOk};
ghost use Rattle.std.specs.List.{All, filter};
ghost use Rattle.reductions.specs.Reductions.{has_changed};
ghost use Rattle.components.specs.LabelRules.{IsVertexLink};
ghost use Rattle.components.specs.Starts.{label_begins};

use crate::starting::{links_of, numbers};
use bale_items::{Item, NoMemory};
use mtx_text::Matrix;
use reductions::{HasCells, Reduced, Reduction};
use round_program::Program;
use std::alloc::Global;
use std::marker::Model;

/// A way from a vertex to a neighbour. Each entry of the matrix is two, one in each direction.
#[derive(Clone, Copy)]
pub struct Link {
    pub from: u32,
    pub to: u32,
}

/// One rank of the run. Vertex `v` belongs to rank `v mod ranks`; each rank has a label for every
/// vertex, and only those of its own vertices ever fall.
#[derive(Drop)]
pub struct Labels {
    alloc: Global,
    rank: u32,
    ranks: u32,
    round: u64,
    /// the links from own vertices
    links: Vec<Link>,
    /// those along which a label is sent in this round
    active: Vec<Link>,
    /// the labels, by vertex
    labels: Reduced,
}

impl Model for Labels {
    ghost use Rattle.components.specs.LabelRules.{LabelState, IsLabels};

    ghost Value = { LabelState };

    ghost use Rattle.components.specs.code.LabelsView.{label_state};

    ghost view = { label_state };

    ghost invariant = { λ s. IsLabels (label_state s) };
}

impl Labels {
    /// A rank before its first round, from 0 to `ranks - 1`: each vertex is labelled by its own
    /// number, and all links are active.
    ///
    /// # Errors
    /// `NoMemory` if there was none.
    pub fn new(alloc: Global, m: &Matrix, ranks: u32, rank: u32) -> Result<Labels, NoMemory>
        requires rank { IsRankOf ranks rank }
        requires square { m.now.cols ≡ m.now.rows }
        ensures { IfOk result (λ s. s ≡ label_begins ranks m.now rank) }
    {
        let links = links_of(alloc, m.entries(), ranks, rank)?;
        let active = links_of(alloc, m.entries(), ranks, rank)?;
        let labels = Reduced::new(alloc, &numbers(alloc, m.rows())?)?;
        Ok(Labels {
            alloc,
            rank,
            ranks,
            round: 0,
            links,
            active,
            labels,
        })
    }
}

impl HasCells for Labels {
    ghost cells_of = { λ s. s.labels };

    fn cells(&self) -> &Reduced {
        &self.labels
    }
}

impl Program for Labels {
    ghost use Rattle.components.specs.LabelRules.{label_rules};
    ghost use Rattle.components.specs.laws.LabelLaws.{label_laws};

    ghost rules = { label_rules };

    ghost laws = { label_laws };

    fn rank(&self) -> u32 {
        self.rank
    }

    fn ranks(&self) -> u32 {
        self.ranks
    }

    fn round(&self) -> u64 {
        self.round
    }

    fn count(&self) -> u64 {
        self.active.len() as u64
    }

    fn emission(&self, i: u64) -> (u32, Item) {
        let link = self.active[i as usize];
        let item = Item {
            a: link.to as u64,
            b: self.labels.before()[link.from as usize],
            c: 0,
        };
        (link.to % self.ranks, item)
    }

    fn fits(&self, from: u32, item: Item) -> bool {
        let count = self.labels.len() as u64;
        from < self.ranks
            && item.a < count
            && item.b < count
            && item.a % self.ranks as u64 == self.rank as u64
    }

    fn absorb(&mut self, from: u32, item: Item) -> Result<(), NoMemory> {
        self.labels.take(Reduction::Least, item.a as usize, item.b);
        Ok(())
    }

    fn vote(&self) -> u64 {
        self.labels.vote()
    }

    fn goes_on(&self, votes: u64) -> bool {
        votes != 0
    }

    fn end_round(&mut self, votes: u64) -> Result<bool, NoMemory> {
        self.active = fallen(self.alloc, &self.links, &self.labels)?;
        self.labels.begin();
        self.round = self.round.saturating_add(1);
        Ok(votes != 0)
    }
}

/// The links from vertices whose labels fell.
fn fallen(alloc: Global, links: &[Link], labels: &Reduced) -> Result<Vec<Link>, NoMemory>
    requires { All (IsVertexLink (length labels.now.cells)) links.now }
    ensures { IfOk result (λ v. v.items ≡ filter (λ l. has_changed labels.now l.from) links.now) }
{
    let mut active = Vec::new(alloc);
    for link in links {
        if labels.has_changed(link.from as usize) {
            active.push(*link)?;
        }
    }
    Ok(active)
}
