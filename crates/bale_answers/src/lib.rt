//! What a command answers, below the drives that run it: the serial answer, and each application
//! from its subject to the bytes of its answer.
//!
//! | Call | For |
//! |---|---|
//! | [`start_task`] | the programs of a task on its subject, in round 0 |
//! | [`finish_task`] | the same programs after their last round, to the bytes of the answer or their summary |
//! | [`finish_by_asking`] | the same of ig, by the ranks that asked one another |
//! | [`answer_law`], [`words_law`] | theorems: what the bytes of each answer mean, in the words of its field; which status words give |
//!
//! Read `specs/Answer` first: the serial answer, about the words and the text alone. Then
//! `specs/Tasks` (what each task runs and answers), `specs/Orders` (what topo answers),
//! `specs/Summary` (the line of `--gen`) and `specs/AnswerEnds` (how the writing of an answer
//! ends). `specs/Laws` is what the laws say: `Means` in `specs/Tasks` has a line for each
//! task, and names the `specs/Meanings` of the applications' crates.
//! The other files of `specs/` are the code's own words.
#![tactic(auto)]

mod application;
mod column_answers;
mod counter;
mod finish;
mod laws;
mod line_answer;
mod matrix_answers;
mod order_answer;
mod tasks;
mod walk_answers;

pub use finish::{AnswerEnd, finish_by_asking};
pub use laws::{answer_law, words_law};
pub use tasks::{finish_task, start_task};
