//! The run of a command for its subject: its programs, driven by one of the drives, and then the
//! answer, written.
//!
//! | Call | For |
//! |---|---|
//! | [`run_command`] | the run that the words ask for, the ranks on threads or all on one |
//! | [`run_serially`] | the run on this thread, whatever the words say: its turns are bounded |
//! | [`drives_serially`] | whether the words ask for one thread |
//! | [`RunEnd`] | how a run ended: the answer's status, whether it was written, and what was exchanged |
//!
//! Read `specs/RunEnds` first: what a run needs, and how it ends. Then `specs/Jobs` (how a command
//! is driven and carried), `specs/Runs` (which programs' run the rounds tell, and the bound on
//! turns) and `specs/Asking` (the same by queries and replies).
#![tactic(auto)]

mod asking;
mod exchange;

pub use exchange::{RunEnd, drives_serially, run_command, run_serially};
