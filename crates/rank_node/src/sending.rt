//! Pushes what a node sends.
ghost use Rattle.std.specs.Prelude.{◌≡◌};
ghost use Rattle.rank_node.specs.Sending.{to_send};
ghost use Rattle.rank_node.specs.Pushes.{MayPushOn};
ghost use Rattle.rank_node.specs.Pulls.{PushesItems};

use crate::departures::OnConveyor;
use crate::sends::{Sends, send_each};
use convey::Conveyor;
use round_program::Program;

/// Pushes the items to send from number `from` on, in order, until one is refused or all are
/// pushed. Answers how many are pushed by then.
pub(crate) fn push_all<Q: Program, const CAP: usize, const HOPS: usize>(
    prog: &Box<Q>,
    sends: Sends,
    conveyor: &mut Conveyor<CAP, HOPS>,
    from: u64,
) -> u64
    requires { MayPushOn (to_send Q.rules prog.now.value sends) conveyor.old from }
    ensures { PushesItems CAP (to_send Q.rules prog.now.value sends) conveyor.old conveyor.new from result }
{
    let mut out = OnConveyor { conveyor };
    push_each(prog, sends, &mut out, from)
}

/// Pushes the items to send through `out`, which is the conveyor before and after it.
fn push_each<Q: Program, const CAP: usize, const HOPS: usize>(
    prog: &Box<Q>,
    sends: Sends,
    out: &mut OnConveyor<'_, CAP, HOPS>,
    from: u64,
) -> u64
    requires { MayPushOn (to_send Q.rules prog.now.value sends) out.old.conveyor.now from }
    ensures handed { PushesItems CAP (to_send Q.rules prog.now.value sends) out.old.conveyor.now out.new.conveyor.now
        from
        result }
    ensures same_conveyor { out.new.conveyor.ghost_name ≡ out.old.conveyor.ghost_name }
{
    send_each(prog, sends, from, out)
}
