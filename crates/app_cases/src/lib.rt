//! The applications as one program, so that a drive is compiled once for them all.
//!
//! `AnyProgram` holds a tree of `Either`s with one leaf for each application, tally in its mailer,
//! and one for the sums of ig alone. A `Case` is a program that is one of its leaves: it knows the
//! way in and out, and that a run of the leaf is the program's own run.
//!
//! | Item | What it is |
//! |---|---|
//! | `AnyProgram` | any of the applications |
//! | `Case` | one of them |
//! | `TallyCase` | a mailer of tally as one of them |
//! | `put_all`, `take_all` | the programs of one application as any of them, and out again |
//!
//! `specs/Any` has the tree, and the way to each leaf.
#![tactic(auto)]

mod any_program;
mod case;
mod tally_case;
mod ways;

pub use any_program::AnyProgram;
pub use case::Case;
pub use tally_case::TallyCase;
pub use ways::{put_all, take_all};
