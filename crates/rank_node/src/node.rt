//! One rank of a run.
ghost use Rattle.std.specs.Prelude.{◌≡◌, ◌⊎◌, ℕ, ◌+◌, ◌-◌, ◌^◌, ◌<◌, length, IfOk, true, false, IsOk, IsErr, OnOk, Ok};
ghost use Rattle.route_tensor.specs.Grid.{ranks};
ghost use Rattle.rank_node.specs.Sending.{is_voting};
ghost use Rattle.rank_node.specs.Movers.{manner_of, has_completed, HasCap};
ghost use Rattle.rank_node.specs.Moves.{MayTurn};
ghost use Rattle.rank_node.specs.Turns.{Turns, TurnsInFull};
ghost use Rattle.rank_node.specs.Nodes.{IsNewNode};
ghost use Rattle.rank_node.specs.Next.{MayGoOn, KeepsTransport, BeginsEpoch, EndsRun};
ghost use Rattle.rank_node.specs.Fits.{FitsGrid};

use crate::ending::{Follows, end_prog, vote_of};
use crate::mover::Mover;
use crate::run::Run;
use crate::sends::{Sends, votes_now};
use crate::taking::Taken;
use crate::turn::Turn;
use crate::via::Via;
use bale_items::{NoMemory, Steps};
use port_bank::Port;
use round_program::Program;
use route_tensor::Grid;
use std::alloc::Global;
use std::marker::Model;
use std::sync::ledger::Ledger;

/// A program and its rank's mover, for parcels of `CAP` entries and routes of `HOPS` hops.
#[derive(Drop)]
pub struct Node<Q, const CAP: usize, const HOPS: usize> {
    run: Run<Q>,
    mover: Mover<CAP, HOPS>,
    /// The number of ranks.
    rank_count: u32,
}

impl<Q, const CAP: usize, const HOPS: usize> Model for Node<Q, CAP, HOPS> {
    ghost use Rattle.std.specs.Prelude.{◌≡◌};
    ghost use Rattle.route_tensor.specs.Grid.{ranks};
    ghost use Rattle.rank_node.specs.Runs.{running};
    ghost use Rattle.rank_node.specs.Movers.{mover_state, mover_dims};
    ghost use Rattle.rank_node.specs.Nodes.{NodeState};

    ghost Value = { NodeState Q };

    ghost view = { λ n. record { run = running n.run; mover = mover_state n.mover } };

    ghost invariant = { λ n. n.rank_count ≡ ranks (mover_dims (mover_state n.mover)) };
}

impl<Q: Program, const CAP: usize, const HOPS: usize> Node<Q, CAP, HOPS> {
    /// A node that hasn't turned, for a program of a rank of the grid, in any round. On exstacks
    /// `steady` changes nothing.
    pub fn new(
        alloc: Global,
        grid: &Grid,
        via: Via,
        prog: Q,
        steady: bool,
    ) -> Result<Self, NoMemory>
        requires fits { FitsGrid CAP HOPS grid.now }
        requires one_hop { via ≡ Via.Exstack → length grid.now ≡ 1 }
        requires rank { Q.rules.rank prog < ranks grid.now }
        requires all_ranks { Q.rules.ranks prog ≡ ranks grid.now }
        ensures { IfOk result (λ n. IsNewNode Q.rules CAP grid.now (manner_of via steady) prog n) }
    {
        let rank = prog.rank();
        let prog = Box::new(alloc, prog)?;
        let mover = Mover::new(alloc, grid, via, rank, steady)?;
        let rank_count = grid.ranks();
        let run = Run {
            prog,
            round: 0,
            sends: Sends::Emissions,
            next: 0,
            taken: Taken {
                sum: 0,
                spoiled: false,
            },
        };
        Ok(Node {
            run,
            mover,
            rank_count,
        })
    }

    /// One turn, by which `steps` rises by one.
    ///
    /// A turn over a conveyor pushes what is left to send, in order, until a push is refused or all
    /// is pushed; advances once; and takes in what came, until nothing is left. A turn over an
    /// exstack makes one poll, which the stage at entry decides:
    /// a proceed poll comes after all that came is taken in, and says that the rank is done if
    /// all is pushed; an exchange poll that begins its round comes after the pushes. In an epoch of
    /// work the node sends what its program emits and absorbs what fits; in an epoch of votes it
    /// sends its vote to each rank and sums those that come.
    ///
    /// # Errors
    /// `NoMemory` comes only from the port's post. An absorb that found none spoils the node, which
    /// goes on turning and drops what comes, so that no other rank is kept from its end.
    pub fn turn<P: Port<CAP>, L: Ledger>(
        &mut self,
        port: &mut P,
        steps: &mut Steps<L>,
    ) -> Result<Turn, NoMemory>
        requires turns { MayTurn Q.rules self.old (P.view port.old) }
        ensures steps { steps.new ≡ steps.old + 1 }
        ensures cap { HasCap CAP self.new.mover }
        ensures memory { P.Memory.GROWS ≡ false → IsOk result }
        ensures turns { Turns CAP Q.rules self.old self.new (P.view port.old) (P.view port.new) }
        ensures in_full { OnOk result (TurnsInFull Q.rules self.old self.new (P.view port.old) (P.view port.new)) }

        // Ended if and only if the rank has completed its epoch.
        ensures ended { result ≡ Ok Turn.Ended → has_completed self.new.mover ≡ true }
        ensures going { result ≡ Ok Turn.Going → has_completed self.new.mover ≡ false }
    {
        steps.tick();
        self.mover.turn(&mut self.run, port)
    }

    /// Goes on to the next epoch, once one has ended: from a round's work to its votes, and from
    /// these to the next round's work. Answers whether an epoch follows.
    ///
    /// If the program finds no memory for a round that follows, the node is spoiled and has
    /// nothing to send in it.
    ///
    /// # Errors
    /// `NoMemory` comes only if no epoch follows: if the sum of the votes is 2^64 - 1, as
    /// each rank then finds, or if the program found no memory to end its last round.
    pub fn next(&mut self) -> Result<bool, NoMemory>
        requires goes_on { MayGoOn Q.rules self.old }
        ensures keeps { KeepsTransport CAP self.old.mover self.new.mover }
        // After a round's work come its votes, and after the votes the next round, if and only if
        // the program goes on.
        ensures votes { is_voting self.old.run.sends ≡ false → result ≡ Ok true }
        ensures begins { result ≡ Ok true → BeginsEpoch Q.rules self.old self.new }
        ensures ends { result ≡ Ok false → EndsRun Q.rules self.old self.new }

        // No memory: only if no epoch follows, and always if the sum says that some rank had
        // none. A spoiled rank is one of these, since its own vote is in the sum.
        ensures no_memory { IsErr result → (is_voting self.old.run.sends ≡ true)
            × ((self.old.run.sum ≡ 2 ^ 64 - 1)
            ⊎ (Q.rules.goes_on (Q.rules.shape self.old.run.prog) (Q.rules.round self.old.run.prog) self.old.run.sum
            ≡ false)) }
        ensures saturated { is_voting self.old.run.sends ≡ true → self.old.run.sum ≡ 2 ^ 64 - 1 → IsErr result }
    {
        if !votes_now(self.run.sends) {
            let vote = vote_of(&self.run.prog, self.run.taken.spoiled);
            self.mover.reset();
            self.run.sends = Sends::Votes(vote, self.rank_count);
            self.run.next = 0;
            self.run.taken.sum = 0;
            return Ok(true);
        }
        self.mover.known();
        if self.run.taken.is_lost() {
            return Err(NoMemory);
        }
        match end_prog(&mut self.run.prog, self.run.taken.sum) {
            Follows::Round => {
                self.mover.reset();
                self.run.round += 1;
                self.run.sends = Sends::Emissions;
                self.run.next = 0;
                self.run.taken.sum = 0;
                return Ok(true);
            }
            Follows::SpoiledRound => {
                self.mover.reset();
                self.run.round += 1;
                self.run.sends = Sends::Nothing;
                self.run.next = 0;
                self.run.taken = Taken {
                    sum: 0,
                    spoiled: true,
                };
                return Ok(true);
            }
            Follows::Nothing => return Ok(false),
            Follows::SpoiledNothing => return Err(NoMemory),
        }
    }

    /// How many of this epoch's items are pushed.
    pub fn pushed(&self) -> u64
        ensures { result ≡ self.now.run.next }
    {
        self.run.next
    }

    /// The program.
    pub fn into_prog(self) -> Q
        ensures { result ≡ self.run.prog }
    {
        let Node {
            run,
            mover: _,
            rank_count: _,
        } = self;
        let Run {
            prog,
            round: _,
            sends: _,
            next: _,
            taken: _,
        } = run;
        Box::into_inner(prog)
    }
}
