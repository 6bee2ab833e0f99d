//! Pushes what a rank asks.

ghost use Rattle.std.specs.Prelude.{◌≡◌, ℕ, ◌+◌, ◌<◌, ◌≤◌, true, false, length, slice_get, Some};
ghost use Rattle.std.specs.List.{All};
ghost use Rattle.bale_items.specs.declared.item.Item.{Item};
ghost use Rattle.route_tensor.specs.Grid.{ranks};
ghost use Rattle.port_bank.specs.Logs.{Logs};
ghost use Rattle.convey.specs.Buffers.{buffers_of};
ghost use Rattle.convey.specs.Conveyors.{AgreesWith, KeepsAgreement, open_count_toward};
ghost use Rattle.convey.specs.Parts.{part_of};
ghost use Rattle.round_program.specs.Replies.{asks_of};
ghost use Rattle.rank_node.specs.Pulls.{PushedOn};
ghost use Rattle.query_node.specs.Taking.{PushesQueries};

use bale_items::Item;
use convey::{Conveyor, Phase, Pushed};
use round_program::Asker;

/// Pushes the queries from number `from` on, in order, until one is refused or all are pushed.
/// Answers how many are pushed by then.
pub(crate) fn push_queries<A: Asker, const CAP: usize, const HOPS: usize>(
    asker: &Box<A>,
    conveyor: &mut Conveyor<CAP, HOPS>,
    from: u64,
) -> u64
    requires from { from ≤ length (asks_of A.talk asker.now.value) }
    requires receivers { All (λ e. e.0 < ranks conveyor.old.dims) (asks_of A.talk asker.now.value) }
    requires working { conveyor.old.done ≡ false → conveyor.old.phase ≡ Phase.Working }
    requires all_pushed { conveyor.old.done ≡ true → from ≡ length (asks_of A.talk asker.now.value) }
    ensures { PushesQueries (asks_of A.talk asker.now.value) CAP from result conveyor.old conveyor.new }
{
    let count = asker.count();
    let mut next = from;
    while next < count {
        match push_query(asker, conveyor, next) {
            Pushed::Accepted => next += 1,
            Pushed::Full => return next,
        }
    }
    next
}

/// Pushes query number `next`.
fn push_query<A: Asker, const CAP: usize, const HOPS: usize>(
    asker: &Box<A>,
    conveyor: &mut Conveyor<CAP, HOPS>,
    next: u64,
) -> Pushed
    requires low { next < length (asks_of A.talk asker.now.value) }
    requires receivers { All (λ e. e.0 < ranks conveyor.old.dims) (asks_of A.talk asker.now.value) }
    requires working { conveyor.old.phase ≡ Phase.Working }
    requires not_done { conveyor.old.done ≡ false }
    ensures same { conveyor.new ≡ record conveyor.old { outs = conveyor.new.outs; pulled = conveyor.new.pulled } }
    ensures kept { KeepsAgreement conveyor.old conveyor.new }
    ensures accepted { result ≡ Pushed.Accepted → (sent got : Logs) → AgreesWith conveyor.old sent got
        → PushedOn (asks_of A.talk asker.now.value) (ranks conveyor.old.dims) next (next + 1)
        (part_of (buffers_of conveyor.old) sent got) (part_of (buffers_of conveyor.new) sent got) }
    ensures refused { result ≡ Pushed.Full → (sent got : Logs) → AgreesWith conveyor.old sent got
        → PushedOn (asks_of A.talk asker.now.value) (ranks conveyor.old.dims) next next
        (part_of (buffers_of conveyor.old) sent got) (part_of (buffers_of conveyor.new) sent got) }
    ensures full { result ≡ Pushed.Full → (to : ℕ) (x : Item) → slice_get (asks_of A.talk asker.now.value) next
        ≡ Some (to, x)
        → (to < ranks conveyor.new.dims) × (open_count_toward conveyor.new to ≡ CAP) }
{
    let (to, question) = asker.query(next);
    conveyor.push(
        Item {
            a: question,
            b: 0,
            c: 0,
        },
        to,
    )
}
