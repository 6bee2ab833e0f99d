//! The program `bale` without its streams: from the words of the command line and the bytes that
//! come in to the bytes that go out.
//!
//! | Call | For |
//! |---|---|
//! | [`run`] | from the words and the bytes that come in to the bytes that go out, the ranks on threads or all on one, as the words ask |
//! | [`run_serial`] | the same, all ranks on this thread: it returns, and its turns are bounded |
//! | [`report`] | to say on a sink why a run ended without an answer |
//!
//! Read `specs/Run` first: what both calls promise, sentence by sentence. It stands on the serial
//! answer, `specs/Answer` of bale_answers, which is about the words and the text alone, on
//! bale_subjects (what a command is asked of), and on bale_runs (what the rounds tell).
//! `specs/Outcomes` is the way there.
//!
//! What the bytes of each answer mean, in the words of its field, is the law of bale_answers:
//! `Means` in `specs/Tasks` of bale_answers has a line for each task.
#![tactic(auto)]

mod calls;

pub use bale_subjects::{BadText, Refusal, Subject, Unfit, report};
pub use calls::{Outcome, run, run_serial};
