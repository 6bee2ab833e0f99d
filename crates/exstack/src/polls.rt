//! The polls of an exstack: each begins a round or goes on with it.
ghost use Rattle.std.specs.Prelude.{◌≡◌, ℕ, ◌<◌, ◌&&◌, ◌||◌, not, true, false, None, IfOk, OnOk, IsOk, IsErr, Ok};
ghost use Rattle.port_bank.specs.Frames.{SamePort};
ghost use Rattle.exstack.specs.State.{stack_unread};
ghost use Rattle.exstack.specs.State.{is_proceeding, is_exchanging, may_proceed, may_exchange, in_proceed, in_exchange, missing_link, all_ended, proceed_answer, exchange_answer, stage_of_proceed, stage_of_exchange};
ghost use Rattle.exstack.specs.Steps.{MadeRound, AsksOnce, StopsShort};
ghost use Rattle.exstack.specs.Agreement.{AgreesIn};
ghost use Rattle.exstack.specs.Parts.{IsStackAtPort};
ghost use Rattle.exstack.specs.Polls.{MayPollProceed, PollsProceed, MayPollExchange, PollsExchange};
ghost use Rattle.exstack.specs.Standing.{IsStack};

use crate::exstack::Exstack;
use crate::rounds::{all_ended, begin_ins, begin_outs, collect_all, missing, post_all};
use crate::stage::{Poll, Proceed, Stage};
use bale_items::NoMemory;
use port_bank::Port;

impl<const CAP: usize> Exstack<CAP> {
    /// Makes the posts that are missing in a proceed round, and then the missing collects. If
    /// none is in progress one begins; `done` says whether the rank pushes nothing more in this
    /// epoch.
    ///
    /// # Errors
    /// `NoMemory` comes only from the port's post. What was posted before it stays posted, and the
    /// poll may be made again.
    pub fn poll_proceed<P: Port<CAP>>(
        &mut self,
        port: &mut P,
        done: bool,
    ) -> Result<Proceed, NoMemory>
        requires may { MayPollProceed done self.old (P.view port.old) }
        ensures polls { PollsProceed done self.old self.new (P.view port.old) (P.view port.new) }

        // Answers.
        ensures answer { IfOk result (λ p. p ≡ proceed_answer (missing_link self.new) (all_ended self.new)) }
        ensures stage { IfOk result (λ p. self.new.stage ≡ stage_of_proceed p) }
        ensures no_memory { IsErr result → self.new.stage ≡ Stage.Proceeding }
        ensures memory { P.Memory.GROWS ≡ false → IsOk result }

        // What the port was asked, with memory and without.
        ensures asks { OnOk result (AsksOnce (in_proceed done self.old) self.new (P.view port.old) (P.view port.new)) }
        ensures stops { IsErr result
            → StopsShort (in_proceed done self.old) self.new (P.view port.old) (P.view port.new) }
    {
        self.begin_proceed(done);
        let missing = self.go_round(port, done, false)?;
        Ok(self.settle_proceed(missing))
    }

    /// Makes the posts that are missing in an exchange round, and then the missing collects. If
    /// none is in progress one begins.
    ///
    /// # Errors
    /// `NoMemory` comes only from the port's post. What was posted before it stays posted, and the
    /// poll may be made again.
    pub fn poll_exchange<P: Port<CAP>>(&mut self, port: &mut P) -> Result<Poll, NoMemory>
        requires may { MayPollExchange self.old (P.view port.old) }
        ensures polls { PollsExchange self.old self.new (P.view port.old) (P.view port.new) }

        // Answers.
        ensures answer { IfOk result (λ p. p ≡ exchange_answer (missing_link self.new)) }
        ensures stage { IfOk result (λ p. self.new.stage ≡ stage_of_exchange p) }
        ensures no_memory { IsErr result → self.new.stage ≡ Stage.Exchanging }
        ensures memory { P.Memory.GROWS ≡ false → IsOk result }

        // What the port was asked, with memory and without.
        ensures asks { OnOk result (AsksOnce (in_exchange self.old) self.new (P.view port.old) (P.view port.new)) }
        ensures stops { IsErr result
            → StopsShort (in_exchange self.old) self.new (P.view port.old) (P.view port.new) }
    {
        self.begin_exchange();
        let missing = self.go_round(port, false, true)?;
        Ok(self.settle_exchange(missing))
    }

    fn begin_proceed(&mut self, done: bool)
        requires may { may_proceed self.old.stage ≡ true }
        requires read { stack_unread self.old ≡ 0 }
        requires done_stays { self.old.done ≡ true → done ≡ true }
        ensures state { self.new ≡ in_proceed done self.old }
        ensures standing { IsStack CAP self.old }
    {
        self.popped = None;
        if is_proceeding(self.stage) {
            return;
        }
        begin_outs(&mut self.outs);
        begin_ins(&mut self.ins);
        self.stage = Stage::Proceeding;
        self.done = done;
    }

    fn begin_exchange(&mut self)
        requires { may_exchange self.old.stage ≡ true }
        ensures state { self.new ≡ in_exchange self.old }
        ensures standing { IsStack CAP self.old }
    {
        self.popped = None;
        if is_exchanging(self.stage) {
            return;
        }
        begin_outs(&mut self.outs);
        begin_ins(&mut self.ins);
        self.stage = Stage::Exchanging;
    }

    /// Makes the posts that are missing in a round, and then the missing collects. Answers the link
    /// for which the round still waits.
    fn go_round<P: Port<CAP>>(
        &mut self,
        port: &mut P,
        last: bool,
        exchange: bool,
    ) -> Result<Option<u32>, NoMemory>
        requires in_round { (is_proceeding self.old.stage || is_exchanging self.old.stage) ≡ true }
        requires exchange { exchange ≡ is_exchanging self.old.stage }
        requires last { last ≡ (self.old.done && not exchange) }
        requires forgotten { self.old.popped ≡ None }
        requires at_port { IsStackAtPort self.old (P.view port.old) }
        ensures standing { IsStack CAP self.old }
        ensures same { self.new ≡ record self.old { outs = self.new.outs; ins = self.new.ins } }
        ensures cycle { (n : ℕ) → AgreesIn n self.old (P.view port.old).sent (P.view port.old).got
            → AgreesIn n self.new (P.view port.new).sent (P.view port.new).got }
        ensures round { MadeRound last exchange self.old self.new (P.view port.old).sent (P.view port.new).sent
            (P.view port.old).got
            (P.view port.new).got }
        ensures missing { IfOk result (λ o. o ≡ missing_link self.new) }
        ensures asks { OnOk result (AsksOnce self.old self.new (P.view port.old) (P.view port.new)) }
        ensures stops { IsErr result → StopsShort self.old self.new (P.view port.old) (P.view port.new) }
        ensures memory { P.Memory.GROWS ≡ false → IsOk result }
        ensures same_port { SamePort (P.view port.old) (P.view port.new) }
    {
        post_all(&mut self.outs, port, self.rank, self.epoch, last)?;
        collect_all(&mut self.ins, port, self.rank, self.epoch, exchange);
        self.from = 0;
        Ok(missing(&self.outs, &self.ins, self.rank))
    }

    fn settle_proceed(&mut self, missing: Option<u32>) -> Proceed
        requires proceeding { self.old.stage ≡ Stage.Proceeding }
        requires forgotten { self.old.popped ≡ None }
        requires is_missing { missing ≡ missing_link self.old }
        ensures value { result ≡ proceed_answer missing (all_ended self.old) }
        ensures state { self.new ≡ record self.old { stage = stage_of_proceed result } }
    {
        if let Some(link) = missing {
            return Proceed::NotYet(link);
        }
        if all_ended(&self.ins) {
            self.stage = Stage::AllDone;
            Proceed::AllDone
        } else {
            self.stage = Stage::Filling;
            Proceed::GoOn
        }
    }

    fn settle_exchange(&mut self, missing: Option<u32>) -> Poll
        requires exchanging { self.old.stage ≡ Stage.Exchanging }
        requires forgotten { self.old.popped ≡ None }
        requires is_missing { missing ≡ missing_link self.old }
        ensures value { result ≡ exchange_answer missing }
        ensures state { self.new ≡ record self.old { stage = stage_of_exchange result } }
    {
        if let Some(link) = missing {
            return Poll::NotYet(link);
        }
        self.stage = Stage::Full;
        Poll::Ready
    }
}

/// Whether a proceed round is in progress.
fn is_proceeding(stage: Stage) -> bool
    ensures { result ≡ is_proceeding stage }
{
    match stage {
        Stage::Proceeding => true,
        Stage::Start | Stage::Filling | Stage::Exchanging | Stage::Full | Stage::AllDone => false,
    }
}

/// Whether an exchange round is in progress.
fn is_exchanging(stage: Stage) -> bool
    ensures { result ≡ is_exchanging stage }
{
    match stage {
        Stage::Exchanging => true,
        Stage::Start | Stage::Proceeding | Stage::Filling | Stage::Full | Stage::AllDone => false,
    }
}
