//! A program in rounds that is proved as it stands, to be changed into one's own.
//!
//! As it stands it finds, for each column of a matrix, the least row that has an entry there: each
//! entry is sent by the owner of its row to the owner of its column, which keeps the least. It
//! takes one round.
//!
//! | File | What is in it |
//! |---|---|
//! | `src/program.rt` | [`Skeleton`], one rank's part: its fields, and the calls of `Program` |
//! | `specs/State` | its state, when that is valid, and what each call answers or makes of it |
//! | `specs/View` | the state, read from the fields |
//! | `specs/Laws` | the proof of the laws |
//! | `src/starting.rt`, `specs/Starts`, `proofs/Starts` | the programs of all ranks, and that they are in round 0 of one run, which ends |
//! | `specs/Found` | the answer, as it stands the cells that the owners have after the run: say here what they mean |
//! | `src/drives.rt` | [`skeleton_serial`], [`skeleton_threads`]: from a matrix to the answer |
#![tactic(auto)]

mod drives;
mod program;
mod starting;
#[cfg(test)]
mod tests;

pub use drives::{skeleton_serial, skeleton_threads};
pub use program::Skeleton;
pub use starting::start;
