//! Pulls replies and hears them.

ghost use Rattle.std.specs.Prelude.{◌≡◌, ◌<◌, length, Some};
ghost use Rattle.port_bank.specs.Machine.{ItemLists};
ghost use Rattle.hop_core.specs.Relay.{waiting};
ghost use Rattle.hop_core.specs.State.{lowest_unread};
ghost use Rattle.rank_node.specs.Movers.{AllRead};
ghost use Rattle.query_node.specs.Taking.{MayHear, HasHeard, Hears, HearsOne};

use crate::line::Line;
use crate::lines::next_of;
use convey::Conveyor;
use round_program::Asker;

/// Hears replies until none is unread.
pub(crate) fn hear_all<A: Asker, const CAP: usize, const HOPS: usize>(
    asker: &mut Box<A>,
    lines: &mut Vec<Line>,
    replies: &mut Conveyor<CAP, HOPS>,
)
    requires may { MayHear A.talk asker.old.value lines.old.items replies.old }
    ensures hears { Hears A.talk asker.old.value asker.new.value lines.old.items lines.new.items replies.old
        replies.new }
    ensures read { AllRead replies.new }
{
    while let Some(number) = replies.unread() {
        hear_batch(asker, lines, replies, number);
    }
}

/// Hears all replies of the link in from which the next pull takes.
fn hear_batch<A: Asker, const CAP: usize, const HOPS: usize>(
    asker: &mut Box<A>,
    lines: &mut Vec<Line>,
    replies: &mut Conveyor<CAP, HOPS>,
    number: u32,
)
    requires lowest { lowest_unread replies.old ≡ Some number }
    requires may { MayHear A.talk asker.old.value lines.old.items replies.old }
    ensures hears { Hears A.talk asker.old.value asker.new.value lines.old.items lines.new.items replies.old
        replies.new }
    ensures less { waiting replies.new.ins < waiting replies.old.ins }
{
    for entry in replies.batch(number) {
        let from = replies.sender_of(number, entry.tag);
        hear_one(asker, lines, from, entry.item.a);
    }
    replies.pull_all(number);
}

/// Hears one reply, as that to the first query to the rank `from` that has none; drops it if
/// there is none.
fn hear_one<A: Asker>(asker: &mut Box<A>, lines: &mut Vec<Line>, from: u32, reply: u64)
    requires from { from < length lines.old.items }
    requires heard { (start : A) × (came : ItemLists)
        × HasHeard A.talk start (length lines.old.items) asker.old.value lines.old.items came }
    ensures { HearsOne A.talk from reply asker.old.value asker.new.value lines.old.items lines.new.items }
{
    if let Some(i) = next_of(lines, from) {
        asker.hear(i, reply);
    }
}
