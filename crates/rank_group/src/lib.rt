//! The ranks of a run: programs that exchange their items over conveyors or exstacks.
//!
//! A rank is a node of rank_node and whether its run is over. Ranks may be turned in whatever
//! order, since a turn never waits. A *sweep* turns each rank once, and `drive_serial` makes sweeps
//! until no epoch follows for any rank.
//!
//! | Call | What it does |
//! |---|---|
//! | `drive_serial` | drives the programs of all ranks from their first round to their last, on one thread |
//! | `drive_threads`, `drive_with` | the same on threads: as many as suit the machine, or with so many workers |
//! | `drive_in_turn`, `drive_on_threads` | both with what most callers want: `Settings`, the order of the ranks, no count, no gate |
//! | `threads_for` | how many threads suit so many ranks on this machine |
//! | `Rounds::get`, `ClosedRound::epochs` | what a run leaves of its bank |
//! | `rest_law` | a sweep in which nothing moves ends the least epoch |
//! | `NotingPort` | a rank's port that notes whether a parcel moved |
//! | `one_by_one` | takes a list of ranks apart |
//!
//! On threads workers poll the ranks, as rank_crews has them: its `Gate`, `Seated` and
//! `run_together` are passed on here.
//!
//! `specs/Transcript` says what the closed round of a run tells, and how many turns a run takes at
//! most. `specs/Rounds` says what contracts see of a closed round, `specs/Ranks` begins with what
//! an order of the ranks is, `specs/Turns` says what sweeps in one order are. The others are the
//! code's own.
#![tactic(auto)]

mod at_port;
mod closed_round;
mod closes;
mod defaults;
mod drive;
mod list_parts;
mod noting;
mod rank_turn;
mod ranks;
mod rest;
mod seating;
mod sweep;
mod sweeps;
mod thread_count;
mod threads;

pub use at_port::await_turn;
pub use bale_items::Steps;
pub use closed_round::{ClosedRound, Rounds};
pub use defaults::{Settings, Slots, drive_in_turn, drive_on_threads, in_order};
pub use drive::{Finished, drive_serial};
pub use list_parts::{OneByOne, one_by_one};
pub use noting::NotingPort;
pub use rank_crews::{Gate, GateLog, OpenGate, Seated, ThreadLimit, Workers, run_together};
pub use rank_node::{Node, Turn, Via};
pub use rest::rest_law;
pub use thread_count::threads_for;
pub use threads::{drive_threads, drive_with};
