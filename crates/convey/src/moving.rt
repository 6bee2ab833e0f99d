//! Moves an exchange on: what an advance does before it settles the phase.
ghost use Rattle.std.specs.Prelude.{◌≡◌, ◌≢◌, ◌⊎◌, ◌<◌, true, false, None, OnOk, IsOk, IsErr};
ghost use Rattle.convey.specs.Buffers.{is_complete};
ghost use Rattle.convey.specs.AdvanceSteps.{MayMoveOn, MovesAtPort, MovesInFull, MoveStops};

use crate::collecting::collect_all;
use crate::posting::post_all;
use crate::relaying::relay_all;
use crate::spare::Spare;
use bale_items::NoMemory;
use hop_core::{Phase, RankState};
use port_bank::Port;

/// Notes done, collects, relays and posts, in this order. A rank that is complete has nothing left
/// to move, and one in Cleanup nothing left to post.
///
/// # Errors
/// `NoMemory` comes only from the port's post. What was done before it stays done.
pub(crate) fn move_on<const CAP: usize, const HOPS: usize, P: Port<CAP>>(
    state: &mut RankState<CAP, HOPS>,
    spare: &mut Spare<CAP>,
    port: &mut P,
    done: bool,
) -> Result<(), NoMemory>
    requires may { MayMoveOn HOPS done state.old (P.view port.old) }
    ensures moves { MovesAtPort HOPS CAP done state.old state.new (P.view port.old) (P.view port.new) }
    ensures in_full { OnOk result (MovesInFull state.old state.new (P.view port.old) (P.view port.new)) }
    ensures stops { IsErr result → MoveStops state.old state.new (P.view port.old) (P.view port.new) }
    ensures complete_port { state.old.phase ≡ Phase.Complete → port.new ≡ port.old }
    ensures memory { P.Memory.GROWS ≡ false → IsOk result }
{
    // The contract of `phase` says what holds of the state.
    if is_over(state.phase()) {
        return Ok(());
    }
    note_done(state, done);
    let parcel = &mut spare.parcel;
    parcel.set_epoch(state.epoch());
    collect_all(state, parcel, port);
    relay_all(state);
    if state.phase() == Phase::Cleanup {
        return Ok(());
    }
    post_all(state, parcel, port)
}

/// Notes that nothing more is pushed in this epoch, if that is so.
fn note_done<const CAP: usize, const HOPS: usize>(state: &mut RankState<CAP, HOPS>, done: bool)
    requires begun { state.old.phase ≢ Phase.Dormant }
    requires stays { state.old.done ≡ true → done ≡ true }
    ensures state { state.new ≡ record state.old { done = done; pulled = state.new.pulled } }
    ensures pulled { (state.new.pulled ≡ state.old.pulled) ⊎ (state.new.pulled ≡ None) }
{
    if done {
        state.set_done();
    }
}

/// Whether the epoch is over.
fn is_over(phase: Phase) -> bool
    ensures { result ≡ is_complete phase }
{
    match phase {
        Phase::Dormant | Phase::Working | Phase::Endgame | Phase::Cleanup => false,
        Phase::Complete => true,
    }
}
