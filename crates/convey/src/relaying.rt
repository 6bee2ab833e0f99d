//! Passes on what came over one hop to the next.
ghost use Rattle.std.specs.Prelude.{◌≡◌, ◌≢◌, ℕ, ◌+◌, ◌<◌, ◌≤◌, List, length};
ghost use Rattle.route_tensor.specs.Link.{links};
ghost use Rattle.route_tensor.specs.Ends.{hop_at};
ghost use Rattle.port_bank.specs.Logs.{Logs};
ghost use Rattle.hop_core.specs.Standing.{IsState};
ghost use Rattle.convey.specs.Buffers.{out_of, in_of};
ghost use Rattle.convey.specs.Due.{IsBlocked};
ghost use Rattle.convey.specs.AdvanceSteps.{IsReady, PassedOn};

use hop_core::RankState;

/// Passes on, from the hop before the last one down to the first.
pub(crate) fn relay_all<const CAP: usize, const HOPS: usize>(state: &mut RankState<CAP, HOPS>)
    requires hops { length state.old.dims ≡ HOPS }
    ensures passed { (dims : List ℕ) (rank : ℕ) (sent got : Logs) → IsReady dims rank state.old sent got
        → PassedOn dims rank state.old state.new sent got }
    ensures stopped { (l : ℕ) → l < links state.new.dims → hop_at state.new.dims l < length state.new.dims
        → IsBlocked state.new l }
    ensures standing { IsState state.new }
    ensures same_dims { state.new.dims ≡ state.old.dims }
{
    state.known();
    for h in (1..HOPS as u32).rev() {
        relay_one(state, h);
    }
}

/// Passes on from the links in of one hop.
pub(crate) fn relay_one<const CAP: usize, const HOPS: usize>(
    state: &mut RankState<CAP, HOPS>,
    h: u32,
)
    requires first { 1 ≤ h }
    requires last { h < length state.old.dims }
    ensures passed { (dims : List ℕ) (rank : ℕ) (sent got : Logs) → IsReady dims rank state.old sent got
        → PassedOn dims rank state.old state.new sent got }
    ensures stopped { (l : ℕ) → l < links state.new.dims → hop_at state.new.dims l ≡ h → IsBlocked state.new l }
    ensures ins { (l : ℕ) → l < links state.new.dims → hop_at state.new.dims l ≢ h
        → in_of state.new l ≡ in_of state.old l }
    ensures outs { (l : ℕ) → l < links state.new.dims → hop_at state.new.dims l ≢ h + 1
        → out_of state.new l ≡ out_of state.old l }
    ensures standing { IsState state.new }
    ensures same_dims { state.new.dims ≡ state.old.dims }
    ensures same_rank { state.new.rank ≡ state.old.rank }
    ensures cap { state.new.cap ≡ state.old.cap }
{
    state.known();
    state.relay(h);
    state.known();
}
