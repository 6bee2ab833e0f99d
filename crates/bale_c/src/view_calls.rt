//! What C calls, of a rank and the items that wait for it, if they are.
ghost use Rattle.std.specs.Prelude.{◌≡◌, ◌≢◌};
ghost use Rattle.rank_handles.specs.Answers.{pull_result};
ghost use Rattle.rank_handles.specs.Calls.{OnRank};
ghost use Rattle.rank_handles.specs.Codes.{code_of};
ghost use Rattle.rank_handles.specs.Grouped.{answer_with};
ghost use Rattle.rank_handles.specs.Handles.{if_there, result_if_there};
ghost use Rattle.rank_handles.specs.HandleView.{seated_rank};
ghost use Rattle.rank_handles.specs.Views.{LentBy, pulled_answer, PullsLent};

use rank_handles::{Answer, BaleRank, BaleView, Exchange};

/// Lends the entries that the next pulls give, as far as they are in one buffer and of one sender.
/// The view holds the rank until it ends, so no clause says what the rank is after it; `Exchange`'s
/// `view` only looks at it.
#[unsafe(no_mangle)]
#[tactic(auto, using(rank_handles::proofs::Codes::code_good))]
pub extern "C" fn bale_lend<'a>(rank: &'a mut BaleRank, view: &mut BaleView<'a>) -> i32
    ensures answer { result ≡ code_of (answer_with (result_if_there (seated_rank rank.old) pull_result)) }
    ensures lent { result ≡ code_of Answer.Good → LentBy view.new.entries.now view.new.from (seated_rank rank.old) }
    ensures unchanged { result ≢ code_of Answer.Good → view.new ≡ view.old }
{
    let Some(there) = rank.get_mut() else {
        return Answer::Gone.code();
    };
    match there.view() {
        Ok(lent) => {
            *view = lent;
            Answer::Good.code()
        }
        Err(answer) => answer.code(),
    }
}

/// Pulls the first items that a view lends.
#[unsafe(no_mangle)]
pub extern "C" fn bale_pulled(rank: &mut BaleRank, count: usize) -> i32
    ensures answer { result ≡ code_of (if_there (seated_rank rank.old) (λ s. pulled_answer s count)) }
    ensures pulls { OnRank (PullsLent count) (seated_rank rank.old) (seated_rank rank.new) }
{
    let Some(there) = rank.get_mut() else {
        return Answer::Gone.code();
    };
    there.pulled(count).code()
}
