//! What C calls, of a rank.
ghost use Rattle.std.specs.Prelude.{◌≡◌, None};
ghost use Rattle.std.specs.Option.{option_map};
ghost use Rattle.rank_handles.specs.Codes.{code_of, phase_code};
ghost use Rattle.rank_handles.specs.Answers.{begin_answer, push_answer, pull_result, unpull_answer, advance_answer, reset_answer};
ghost use Rattle.rank_handles.specs.Calls.{OnRank, Begins, Pushes, Pulls, Unpulls, Advances, Resets};
ghost use Rattle.rank_handles.specs.Grouped.{answer_with};
ghost use Rattle.rank_handles.specs.Items.{item_of, item_given, sender_given};
ghost use Rattle.rank_handles.specs.Handles.{if_there, result_if_there, phase_in, ranks_in};
ghost use Rattle.rank_handles.specs.HandleView.{seated_rank};
ghost use Rattle.rank_handles.specs.Statistics.{statistics_given};

use hop_core::Phase;
use rank_handles::{
    Answer, BaleItem, BaleRank, BaleStatistics, Exchange, bale_item_from, item_from,
};
use std::alloc::Global;

/// Begins an epoch.
#[unsafe(no_mangle)]
pub extern "C" fn bale_begin(rank: &mut BaleRank) -> i32
    ensures answer { result ≡ code_of (if_there (seated_rank rank.old) (λ s. begin_answer s.state.phase)) }
    ensures begins { OnRank Begins (seated_rank rank.old) (seated_rank rank.new) }
{
    let Some(there) = rank.get_mut() else {
        return Answer::Gone.code();
    };
    there.begin().code()
}

/// Pushes an item toward a rank.
#[unsafe(no_mangle)]
pub extern "C" fn bale_push(rank: &mut BaleRank, item: &BaleItem, to: u32) -> i32
    ensures answer { result ≡ code_of (if_there (seated_rank rank.old) (λ s. push_answer s to)) }
    ensures pushes { OnRank (Pushes (item_of item.now) to) (seated_rank rank.old) (seated_rank rank.new) }
{
    let Some(there) = rank.get_mut() else {
        return Answer::Gone.code();
    };
    there.push(item_from(item), to).code()
}

/// Puts the item back that the latest call pulled.
#[unsafe(no_mangle)]
pub extern "C" fn bale_unpull(rank: &mut BaleRank) -> i32
    ensures answer { result ≡ code_of (if_there (seated_rank rank.old) unpull_answer) }
    ensures unpulls { OnRank Unpulls (seated_rank rank.old) (seated_rank rank.new) }
{
    let Some(there) = rank.get_mut() else {
        return Answer::Gone.code();
    };
    there.unpull().code()
}

/// Ends an epoch that is complete.
#[unsafe(no_mangle)]
pub extern "C" fn bale_reset(rank: &mut BaleRank) -> i32
    ensures answer { result ≡ code_of (if_there (seated_rank rank.old) reset_answer) }
    ensures resets { OnRank Resets (seated_rank rank.old) (seated_rank rank.new) }
{
    let Some(there) = rank.get_mut() else {
        return Answer::Gone.code();
    };
    there.reset().code()
}

/// Pulls the next item that came, with its sender.
#[unsafe(no_mangle)]
pub extern "C" fn bale_pull(rank: &mut BaleRank, item: &mut BaleItem, from: &mut u32) -> i32
    ensures answer { result ≡ code_of (answer_with (result_if_there (seated_rank rank.old) pull_result)) }
    ensures item { item.new ≡ item_given (result_if_there (seated_rank rank.old) pull_result) item.old }
    ensures from { from.new ≡ sender_given (result_if_there (seated_rank rank.old) pull_result) from.old }
    ensures pulls { OnRank Pulls (seated_rank rank.old) (seated_rank rank.new) }
{
    let Some(there) = rank.get_mut() else {
        return Answer::Gone.code();
    };
    match there.pull() {
        Ok((sender, given)) => {
            *from = sender;
            *item = bale_item_from(given);
            Answer::Good.code()
        }
        Err(answer) => answer.code(),
    }
}

/// Advances the exchange, and tells how far the rank is.
#[unsafe(no_mangle)]
pub extern "C" fn bale_advance(rank: &mut BaleRank, done: bool) -> i32
    ensures answer { result ≡ code_of (if_there (seated_rank rank.old) (λ s. advance_answer s done
        (phase_in (seated_rank rank.new)))) }
    ensures advances { OnRank (Advances done) (seated_rank rank.old) (seated_rank rank.new) }
{
    let Some(there) = rank.get_mut() else {
        return Answer::Gone.code();
    };
    there.advance(done).code()
}

/// How many ranks there are; 0 if the handle has no rank.
#[unsafe(no_mangle)]
pub extern "C" fn bale_ranks(rank: &mut BaleRank) -> u32
    ensures value { result ≡ ranks_in (seated_rank rank.old) }
    ensures unchanged { seated_rank rank.new ≡ seated_rank rank.old }
{
    let Some(there) = rank.get_mut() else {
        return 0;
    };
    there.ranks()
}

/// How far the rank is in its epoch.
#[unsafe(no_mangle)]
pub extern "C" fn bale_phase(rank: &mut BaleRank) -> i32
    ensures value { result ≡ phase_code (option_map (λ s. s.state.phase) (seated_rank rank.old)) }
    ensures unchanged { seated_rank rank.new ≡ seated_rank rank.old }
{
    let Some(there) = rank.get_mut() else {
        return Answer::Gone.code();
    };
    code_of_phase(there.phase())
}

/// What the rank sent and received since it was made.
#[unsafe(no_mangle)]
pub extern "C" fn bale_statistics(rank: &mut BaleRank, statistics: &mut BaleStatistics) -> i32
    ensures answer { result ≡ code_of (if_there (seated_rank rank.old) (λ s. Answer.Good)) }
    ensures statistics { statistics.new ≡ statistics_given (seated_rank rank.old) statistics.old }
    ensures unchanged { seated_rank rank.new ≡ seated_rank rank.old }
{
    let Some(there) = rank.get_mut() else {
        return Answer::Gone.code();
    };
    *statistics = there.statistics();
    Answer::Good.code()
}

/// Frees the rank. Its group and the other ranks stay.
#[unsafe(no_mangle)]
pub extern "C" fn bale_rank_free(alloc: Global, rank: &mut BaleRank) -> i32
    ensures answer { result ≡ code_of (if_there (seated_rank rank.old) (λ s. Answer.Good)) }
    ensures gone { seated_rank rank.new ≡ None }
{
    match rank.take(alloc) {
        Some(_) => Answer::Good.code(),
        None => Answer::Gone.code(),
    }
}

/// The number by which C knows a phase.
pub(crate) fn code_of_phase(phase: Option<Phase>) -> i32
    ensures { result ≡ phase_code phase }
{
    match phase {
        Some(Phase::Dormant) => 100,
        Some(Phase::Working) => 101,
        Some(Phase::Endgame) => 102,
        Some(Phase::Cleanup) => 103,
        Some(Phase::Complete) => 104,
        None => Answer::Gone.code(),
    }
}
