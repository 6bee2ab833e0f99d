//! The epoch's course: it begins, is done, comes to its end, and makes room for the next.

ghost use Rattle.std.specs.Prelude.{◌≡◌, ◌≢◌, ◌+◌, ◌-◌, ◌^◌, ◌<◌, map, true, false, None};
ghost use Rattle.hop_core.specs.State.{phase_of, out_in_new_epoch, in_in_new_epoch};

use crate::in_links::{hop_finished, resume_all};
use crate::out_links::reopen_all;
use crate::phase::Phase;
use crate::state::RankState;
use route_tensor::MOST_HOPS;

impl<const CAP: usize, const HOPS: usize> RankState<CAP, HOPS> {
    ghost use Rattle.hop_core.specs.Standing.{IsState};

    /// Begins an epoch.
    pub fn begin(&mut self)
        requires dormant { self.old.phase ≡ Phase.Dormant }
        ensures { self.new ≡ record self.old { phase = Phase.Working; pulled = None } }
    {
        self.pulled = None;
        self.phase = Phase::Working;
    }

    /// How far the rank is.
    #[inline]
    pub fn phase(&self) -> Phase
        ensures value { result ≡ self.now.phase }
        ensures standing { IsState self.now }
        ensures cap { self.now.cap ≡ CAP }
    {
        self.phase
    }

    /// Says that nothing more is pushed in this epoch.
    pub fn set_done(&mut self)
        requires begun { self.old.phase ≢ Phase.Dormant }
        ensures { self.new ≡ record self.old { done = true; pulled = None } }
    {
        self.pulled = None;
        self.done = true;
    }

    /// Sets the phase by what is done, sent, got and read.
    pub fn settle(&mut self) -> Phase
        requires begun { self.old.phase ≢ Phase.Dormant }
        ensures value { result ≡ phase_of self.old }
        ensures state { self.new ≡ record self.old { phase = phase_of self.old; pulled = None } }
    {
        self.phase = self.current_phase();
        self.pulled = None;
        self.phase
    }

    /// The phase by what is done, sent, got and read.
    fn current_phase(&self) -> Phase
        ensures { result ≡ phase_of self.now }
    {
        if !self.done {
            return Phase::Working;
        }
        if self.still_open > 0 {
            return Phase::Endgame;
        }
        if self.still_coming > 0 {
            return Phase::Cleanup;
        }
        // Below `from` no link in has an entry: most often that is all of them.
        if self.from >= self.routes.neighbours() {
            return Phase::Complete;
        }
        if !hop_finished(&self.routes, &self.ins, HOPS as u32) {
            return Phase::Cleanup;
        }
        Phase::Complete
    }

    /// Ends an epoch that is complete.
    pub fn reset(&mut self)
        requires complete { self.old.phase ≡ Phase.Complete }
        requires epochs { self.old.epoch < 2 ^ 63 }
        ensures { self.new ≡ record self.old {
          outs = map out_in_new_epoch self.old.outs;
          ins = map in_in_new_epoch self.old.ins;
          done = false;
          phase = Phase.Dormant;
          epoch = self.old.epoch + 1;
          pulled = None;
        } }
    {
        self.pulled = None;
        reopen_all(&mut self.outs);
        resume_all(&mut self.ins);
        self.done = false;
        let ends = [false; MOST_HOPS];
        self.ends = ends;
        self.still_open = self.routes.neighbours();
        self.still_coming = self.routes.neighbours() - self.routes.first_of(HOPS as u32);
        self.phase = Phase::Dormant;
        self.epoch += 1;
    }
}
