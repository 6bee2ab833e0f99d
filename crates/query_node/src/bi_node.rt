//! A rank that asks, answers and hears.

ghost use Rattle.std.specs.Prelude.{◌≡◌, ◌≢◌, ◌+◌, ◌<◌, ◌&&◌, false, IfOk, OnOk, IsOk, Ok};
ghost use Rattle.route_tensor.specs.Grid.{ranks};
ghost use Rattle.convey.specs.Buffers.{is_complete};
ghost use Rattle.query_node.specs.States.{IsNewBiNode, IsFirst};
ghost use Rattle.query_node.specs.Turns.{MayTurnBoth, TurnsBoth, IsStuckIfStill};
ghost use Rattle.rank_node.specs.Fits.{FitsGrid};

use crate::answering::{answer_open, is_over};
use crate::asking::push_queries;
use crate::hearing::hear_all;
use crate::line::Line;
use crate::lines::all_lines;
use bale_items::{NoMemory, Steps};
use convey::{Conveyor, Phase, Progress};
use port_bank::Port;
use rank_node::Turn;
use round_program::Asker;
use route_tensor::Grid;
use std::alloc::Global;
use std::marker::Model;
use std::sync::ledger::Ledger;

/// An asker and its rank's two conveyors, for parcels of `CAP` entries and routes of `HOPS` hops.
#[derive(Drop)]
pub struct BiNode<A, const CAP: usize, const HOPS: usize> {
    asker: Box<A>,
    /// How many of its queries are pushed.
    next: u64,
    /// For each rank, the queries to it that wait for a reply.
    lines: Vec<Line>,
    queries: Conveyor<CAP, HOPS>,
    replies: Conveyor<CAP, HOPS>,
}

impl<A, const CAP: usize, const HOPS: usize> Model for BiNode<A, CAP, HOPS> {
    ghost use Rattle.query_node.specs.States.{BiState};

    ghost Value = { BiState A };

    ghost view = { λ n. record {
      asker = n.asker.value;
      next = n.next;
      lines = n.lines.items;
      queries = n.queries;
      replies = n.replies;
    } };
}

impl<A: Asker, const CAP: usize, const HOPS: usize> BiNode<A, CAP, HOPS> {
    /// A rank that hasn't turned.
    pub fn new(alloc: Global, grid: &Grid, asker: A, steady: bool) -> Result<Self, NoMemory>
        requires fits { FitsGrid CAP HOPS grid.now }
        requires rank { A.talk.rank asker < ranks grid.now }
        requires all_ranks { A.talk.ranks asker ≡ ranks grid.now }
        ensures { IfOk result (λ n. IsNewBiNode A.talk grid.now steady asker n) }
    {
        let rank = asker.rank();
        let queries = begun(alloc, grid, rank, steady)?;
        let replies = begun(alloc, grid, rank, steady)?;
        let asker = Box::new(alloc, asker)?;
        let lines = all_lines(alloc, &asker, grid.ranks())?;
        Ok(BiNode {
            asker,
            next: 0,
            lines,
            queries,
            replies,
        })
    }

    /// One turn, by which `steps` rises by one. It pushes queries, in order, until one is refused
    /// or all are pushed; advances the queries; answers those that came, until an answer is
    /// refused; advances the replies, which are done if and only if the queries are complete; and
    /// hears all replies that came.
    ///
    /// # Errors
    /// `NoMemory` comes only from a port's post.
    pub fn turn<P: Port<CAP>, R: Port<CAP>, L: Ledger>(
        &mut self,
        queries: &mut P,
        replies: &mut R,
        steps: &mut Steps<L>,
    ) -> Result<Turn, NoMemory>
        requires turns { MayTurnBoth A.talk self.old (P.view queries.old) (R.view replies.old) }
        ensures steps { steps.new ≡ steps.old + 1 }
        ensures memory { P.Memory.GROWS ≡ false → R.Memory.GROWS ≡ false → IsOk result }
        ensures turns { TurnsBoth CAP A.talk self.old self.new (P.view queries.old) (P.view queries.new)
            (R.view replies.old) (R.view replies.new) }
        ensures stuck { OnOk result (IsStuckIfStill A.talk self.old self.new (P.view queries.old) (P.view queries.new)
            (R.view replies.old) (R.view replies.new)) }

        // Ended if and only if both ways are complete.
        ensures ended { result ≡ Ok Turn.Ended → (self.new.queries.phase ≡ Phase.Complete)
            × (self.new.replies.phase ≡ Phase.Complete) }
        ensures going { result ≡ Ok Turn.Going → self.new.queries.phase ≡ Phase.Complete
            → self.new.replies.phase ≢ Phase.Complete }
    {
        steps.tick();
        self.next = push_queries(&self.asker, &mut self.queries, self.next);
        let all = self.next == self.asker.count();
        let asked = self.queries.advance(queries, all);
        self.queries.known();
        let _refused = answer_open(&self.asker, &mut self.queries, &mut self.replies);
        let over = is_over(self.queries.phase());
        let replied = self.replies.advance(replies, over);
        hear_all(&mut self.asker, &mut self.lines, &mut self.replies);
        self.replies.known();
        turn_of(asked, replied)
    }

    /// How many of its queries are pushed.
    pub fn asked(&self) -> u64
        ensures { result ≡ self.now.next }
    {
        self.next
    }

    /// Whether both ways are complete.
    pub fn is_over(&self) -> bool
        ensures { result ≡ (is_complete self.now.queries.phase && is_complete self.now.replies.phase) }
    {
        is_over(self.queries.phase()) && is_over(self.replies.phase())
    }

    /// The asker, with what it has heard.
    pub fn into_asker(self) -> A
        ensures { result ≡ self.asker }
    {
        let BiNode {
            asker,
            next: _,
            lines: _,
            queries: _,
            replies: _,
        } = self;
        Box::into_inner(asker)
    }
}

/// A new conveyor that has begun its first epoch.
fn begun<const CAP: usize, const HOPS: usize>(
    alloc: Global,
    grid: &Grid,
    rank: u32,
    steady: bool,
) -> Result<Conveyor<CAP, HOPS>, NoMemory>
    requires fits { FitsGrid CAP HOPS grid.now }
    requires rank { rank < ranks grid.now }
    ensures { IfOk result (λ c. IsFirst grid.now rank steady c) }
{
    let mut conveyor = Conveyor::new(alloc, grid, rank, steady)?;
    conveyor.begin();
    conveyor.known();
    Ok(conveyor)
}

/// What a turn tells, by how far its advances came.
fn turn_of(
    asked: Result<Progress, NoMemory>,
    replied: Result<Progress, NoMemory>,
) -> Result<Turn, NoMemory>
    ensures ok { IsOk asked → IsOk replied → IsOk result }
    ensures both { IsOk result → IsOk asked × IsOk replied }
    ensures ended { result ≡ Ok Turn.Ended → (asked ≡ Ok Progress.Complete) × (replied ≡ Ok Progress.Complete) }
    ensures going { result ≡ Ok Turn.Going → asked ≡ Ok Progress.Complete → replied ≢ Ok Progress.Complete }
{
    match (asked?, replied?) {
        (Progress::Complete, Progress::Complete) => Ok(Turn::Ended),
        _ => Ok(Turn::Going),
    }
}
