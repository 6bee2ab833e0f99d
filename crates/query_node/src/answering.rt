//! Pulls queries and pushes their answers.

ghost use Rattle.std.specs.Prelude.{◌≡◌, ◌≢◌, ◌+◌, ◌<◌, ◌≤◌, true, false, length, Some, None, IfSome};
ghost use Rattle.route_tensor.specs.Grid.{ranks};
ghost use Rattle.hop_core.specs.Relay.{waiting};
ghost use Rattle.hop_core.specs.State.{in_at, lowest_unread, pulls};
ghost use Rattle.convey.specs.Buffers.{is_complete};
ghost use Rattle.rank_node.specs.Movers.{AllRead};
ghost use Rattle.query_node.specs.Taking.{MayAnswer, AnswersQueries, PushesAnswer, RefusesAnswer};

use bale_items::Item;
use convey::{Conveyor, Phase, Pushed};
use round_program::Asker;

/// Answers queries until none is unread or an answer is refused, unless the queries are over.
/// Answers to whom one was refused; its query is unread still.
pub(crate) fn answer_open<A: Asker, const CAP: usize, const HOPS: usize>(
    asker: &Box<A>,
    queries: &mut Conveyor<CAP, HOPS>,
    replies: &mut Conveyor<CAP, HOPS>,
) -> Option<u32>
    requires may { queries.old.phase ≢ Phase.Complete → MayAnswer queries.old replies.old }
    ensures answers { AnswersQueries A.talk asker.now.value queries.old queries.new replies.old replies.new }
    ensures read { result ≡ None → AllRead queries.new }
    ensures refused { IfSome result (λ to. RefusesAnswer CAP to queries.new replies.new) }
{
    if is_over(queries.phase()) {
        return None;
    }
    while let Some(number) = queries.unread() {
        if let Some(to) = answer_batch(asker, queries, replies, number) {
            return Some(to);
        }
    }
    None
}

/// Whether an epoch is over, by the phase.
pub(crate) fn is_over(phase: Phase) -> bool
    ensures { result ≡ is_complete phase }
{
    match phase {
        Phase::Dormant | Phase::Working | Phase::Endgame | Phase::Cleanup => false,
        Phase::Complete => true,
    }
}

/// Answers the queries of the link in from which the next pull takes, in order, until an answer is
/// refused.
fn answer_batch<A: Asker, const CAP: usize, const HOPS: usize>(
    asker: &Box<A>,
    queries: &mut Conveyor<CAP, HOPS>,
    replies: &mut Conveyor<CAP, HOPS>,
    number: u32,
) -> Option<u32>
    requires lowest { lowest_unread queries.old ≡ Some number }
    requires may { MayAnswer queries.old replies.old }
    ensures answers { AnswersQueries A.talk asker.now.value queries.old queries.new replies.old replies.new }
    ensures less { result ≡ None → waiting queries.new.ins < waiting queries.old.ins }
    ensures refused { IfSome result (λ to. RefusesAnswer CAP to queries.new replies.new) }
{
    let replied = push_answers(asker, queries, replies, number);
    pull_answered(queries, number, &replied);
    replied.refused
}

/// How many answers were pushed, and to whom the next one was refused.
#[derive(Clone, Copy)]
struct Replied {
    count: usize,
    refused: Option<u32>,
}

/// Pushes the answers to the unread queries of that link, in order, until one is refused. The
/// queries aren't pulled yet.
fn push_answers<A: Asker, const CAP: usize, const HOPS: usize>(
    asker: &Box<A>,
    queries: &Conveyor<CAP, HOPS>,
    replies: &mut Conveyor<CAP, HOPS>,
    number: u32,
) -> Replied
    requires lowest { lowest_unread queries.now ≡ Some number }
    requires may { MayAnswer queries.now replies.old }
    ensures answers { AnswersQueries A.talk asker.now.value queries.now
        (pulls result.count queries.now) replies.old replies.new }
    ensures count { result.count + waiting (pulls result.count queries.now).ins ≤ waiting queries.now.ins }
    ensures all { result.refused ≡ None → result.count ≡ length (in_at queries.now number).parcel.untaken }
    ensures some { 0 < length (in_at queries.now number).parcel.untaken }
    ensures refused { IfSome result.refused (λ to. RefusesAnswer CAP to (pulls result.count queries.now)
        replies.new) }
{
    let mut count = 0;
    for entry in queries.batch(number) {
        let from = queries.sender_of(number, entry.tag);
        match push_answer(asker, replies, from, entry.item) {
            Pushed::Accepted => count += 1,
            Pushed::Full => {
                return Replied {
                    count,
                    refused: Some(from),
                };
            }
        }
    }
    Replied {
        count,
        refused: None,
    }
}

/// Pushes the answer to one query.
fn push_answer<A: Asker, const CAP: usize, const HOPS: usize>(
    asker: &Box<A>,
    replies: &mut Conveyor<CAP, HOPS>,
    from: u32,
    query: Item,
) -> Pushed
    requires from { from < ranks replies.old.dims }
    requires working { replies.old.phase ≡ Phase.Working }
    requires not_done { replies.old.done ≡ false }
    ensures { PushesAnswer A.talk asker.now.value CAP from query result replies.old replies.new }
{
    replies.push(
        Item {
            a: asker.answer(from, query.a),
            b: 0,
            c: 0,
        },
        from,
    )
}

/// Pulls the queries whose answers are pushed.
fn pull_answered<const CAP: usize, const HOPS: usize>(
    queries: &mut Conveyor<CAP, HOPS>,
    number: u32,
    replied: &Replied,
)
    requires begun { queries.old.phase ≢ Phase.Dormant }
    requires lowest { lowest_unread queries.old ≡ Some number }
    requires all { replied.now.refused ≡ None → replied.now.count ≡ length (in_at queries.old number).parcel.untaken }
    ensures { queries.new ≡ pulls replied.now.count queries.old }
{
    if replied.refused.is_some() {
        pull_some(queries, replied.count);
        return;
    }
    queries.pull_all(number);
}

/// Pulls so many queries.
fn pull_some<const CAP: usize, const HOPS: usize>(queries: &mut Conveyor<CAP, HOPS>, count: usize)
    requires begun { queries.old.phase ≢ Phase.Dormant }
    ensures { queries.new ≡ pulls count queries.old }
{
    for _ in 0..count {
        let _query = queries.pull();
    }
}
