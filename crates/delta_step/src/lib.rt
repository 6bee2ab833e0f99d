//! sssp by buckets: delta-stepping after Meyer and Sanders, as a program in rounds. Its answer is
//! that of `app_sssp`.
//!
//! | Call | For | Answer |
//! |---|---|---|
//! | [`delta_start`] | the programs on so many ranks | in round 0 of a run of at most n (n + 2) + 2 rounds |
//! | [`delta_write`] | the programs, once they ended | a line for each vertex: vertex, least weight or `-` |
//! | [`Delta::vertices`] | one rank, at any moment | its vertices with the weights found so far |
//!
//! A vertex with least weight x stands in bucket x div delta, and an edge is light where its weight
//! is at most delta.
//! A bucket is found, its vertices offer along light edges until none of the bucket is pending, and
//! then all of them offer along heavy edges. Rounds are of four kinds ([`Phase`]), and all ranks
//! know from the votes which comes next.
//!
//! The definitions, in the order in which to read them: `Deltas` (the program's rules) and
//! `DeltaRuns` (how a run begins and ends); `DeltaView` is the state read from the fields.
#![tactic(auto)]

mod delta;
mod delta_run;
mod phase;
mod seat;

pub use delta::Delta;
pub use delta_run::{delta_start, delta_write};
pub use phase::Phase;
