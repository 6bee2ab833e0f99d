//! One rank's side of an exchange, whatever its capacity and its hops.
ghost use Rattle.std.specs.Prelude.{◌≡◌, ◌≢◌, ◌≤◌, Option, IfOk, IfErr, length, drop};
ghost use Rattle.std.specs.Option.{option_map};
ghost use Rattle.rank_handles.specs.Seated.{Seated};
ghost use Rattle.rank_handles.specs.Answers.{begin_answer, push_answer, pull_result, unpull_answer, advance_answer, reset_answer};
ghost use Rattle.rank_handles.specs.Calls.{OnRank, Begins, Pushes, Pulls, Unpulls, Advances, Resets};
ghost use Rattle.rank_handles.specs.Handles.{if_there, result_if_there, phase_in, ranks_in};
ghost use Rattle.rank_handles.specs.Grouped.{answer_with};
ghost use Rattle.rank_handles.specs.Statistics.{statistics_in};
ghost use Rattle.rank_handles.specs.Views.{LentBy, pulled_answer, PullsLent};
ghost use Rattle.rank_handles.specs.Many.{push_many_answer, pull_many_answer, number_or, moved_by, told_of, count_in, PushesMany, PullsMany};

use crate::answer::Answer;
use crate::item::BaleItem;
use crate::statistics::BaleStatistics;
use crate::view::BaleView;
use bale_items::Item;
use hop_core::Phase;

/// One rank's side of an exchange. Each call tests what the layers below require: misuse has an
/// answer, and changes nothing.
///
/// Contracts see the rank at its bank (`Seated`), if there is one, and tell of each call what it
/// answers and what it leaves of the rank.
pub trait Exchange: Drop {
    ghost seen: { Self → Option Seated };

    /// How many ranks there are; 0 if there is no rank.
    fn ranks(&self) -> u32
        ensures { result ≡ ranks_in (seen self.now) };

    /// How far the rank is in its epoch.
    fn phase(&self) -> Option<Phase>
        ensures { result ≡ option_map (λ s. s.state.phase) (seen self.now) };

    /// What the rank sent and received since it was made; nothing if there is no rank.
    fn statistics(&self) -> BaleStatistics
        ensures { result ≡ statistics_in (seen self.now) };

    /// Begins an epoch.
    fn begin(&mut self) -> Answer
        ensures answer { result ≡ if_there (seen self.old) (λ s. begin_answer s.state.phase) }
        ensures begins { OnRank Begins (seen self.old) (seen self.new) };

    /// Pushes an item toward a rank.
    fn push(&mut self, item: Item, to: u32) -> Answer
        ensures answer { result ≡ if_there (seen self.old) (λ s. push_answer s to) }
        ensures pushes { OnRank (Pushes item to) (seen self.old) (seen self.new) };

    /// Pulls the next item that came, with its sender.
    fn pull(&mut self) -> Result<(u32, Item), Answer>
        ensures value { result ≡ result_if_there (seen self.old) pull_result }
        ensures pulls { OnRank Pulls (seen self.old) (seen self.new) };

    /// Puts the item back that the latest call pulled.
    fn unpull(&mut self) -> Answer
        ensures answer { result ≡ if_there (seen self.old) unpull_answer }
        ensures unpulls { OnRank Unpulls (seen self.old) (seen self.new) };

    /// Advances the exchange, and tells how far the rank is.
    fn advance(&mut self, done: bool) -> Answer
        ensures answer { result ≡ if_there (seen self.old) (λ s. advance_answer s done (phase_in (seen self.new))) }
        ensures advances { OnRank (Advances done) (seen self.old) (seen self.new) };

    /// What the next pulls give, as far as it is in one inbox and of one sender, if it is.
    ///
    /// # Errors
    /// As of a pull; the rank is as it was.
    fn view(&self) -> Result<BaleView<'_>, Answer>
        ensures answer { answer_with result ≡ answer_with (result_if_there (seen self.now) pull_result) }
        ensures refused { IfErr result (λ a. a ≢ Answer.Good) }
        ensures lent { IfOk result (λ v. LentBy v.entries.now v.from (seen self.now)) };

    /// Pulls the first items that a view lends.
    fn pulled(&mut self, count: usize) -> Answer
        ensures answer { result ≡ if_there (seen self.old) (λ s. pulled_answer s count) }
        ensures pulls { OnRank (PullsLent count) (seen self.old) (seen self.new) };

    /// Ends an epoch that is complete.
    fn reset(&mut self) -> Answer
        ensures answer { result ≡ if_there (seen self.old) reset_answer }
        ensures resets { OnRank Resets (seen self.old) (seen self.new) };

    /// Pushes items toward ranks until one finds no room. How many were pushed.
    ///
    /// # Errors
    /// What is wrong with the rank, or with a destination; then nothing is pushed.
    fn push_many(&mut self, items: &[BaleItem], to: &[u32]) -> Result<usize, Answer>
        requires same { length to.now ≡ length items.now }
        ensures answer { result ≡ number_or (if_there (seen self.old) (λ s. push_many_answer s to.now))
            (moved_by result) }
        ensures few { moved_by result ≤ length items.now }
        ensures told { count_in (told_of result) ≡ moved_by result }
        ensures pushes { OnRank (PushesMany items.now to.now (moved_by result)) (seen self.old) (seen self.new) };

    /// Pulls items until there are none, or no place is left. How many were pulled.
    ///
    /// # Errors
    /// The epoch has not begun.
    fn pull_many(&mut self, items: &mut [BaleItem], from: &mut [u32]) -> Result<usize, Answer>
        requires same { length from.old ≡ length items.old }
        ensures answer { result ≡ number_or (if_there (seen self.old) pull_many_answer) (moved_by result) }
        ensures few { moved_by result ≤ length items.old }
        ensures told { count_in (told_of result) ≡ moved_by result }
        ensures other_items { drop (moved_by result) items.new ≡ drop (moved_by result) items.old }
        ensures other_from { drop (moved_by result) from.new ≡ drop (moved_by result) from.old }
        ensures pulls { OnRank (PullsMany (length items.old) items.new from.new (moved_by result)) (seen self.old)
            (seen self.new) };
}
