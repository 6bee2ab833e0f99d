//! Programs that many ranks run together in rounds.
//!
//! A program says what one rank does; how items travel is a drive's work. In each round a rank
//! emits items to ranks, absorbs what comes, and votes; then every rank ends the round with the sum
//! of the votes, and the program goes on or has ended. `specs/Canonical` defines what all ranks
//! compute together, the *canonical run*: the emissions are read from the states, each rank absorbs
//! them sender by sender, and the votes are summed. It has no word on transport.
//!
//! A drive absorbs in whatever order items come, with ranks in different rounds. That it ends in
//! the canonical run's states rests on the program's laws (`specs/Laws`) and on the two theorems
//! below.
//!
//! | Item | What it is |
//! |---|---|
//! | `Program` | one rank's part of a computation in rounds, its meanings and its laws |
//! | `Arrivals` | a batch of items that came, each with its sender |
//! | `Departures` | what takes the items that a rank sends, as long as it has room |
//! | `Progs` | the programs of all ranks, one per rank: `new`, `add`, `len`, `get`, `take_first` |
//! | `Asker` | one rank's part of an exchange of queries and replies |
//! | `every_order` | the interleaving theorem: every order of absorbs gives the canonical state |
//! | `every_run` | the theorem over all rounds: at every moment each rank is within the canonical run |
//! | `same_runs` | one program as a case of another: a run of the cases is the run of the program |
//! | `Either` (of the crate either) | either of two programs is a program, and runs whichever is there: see `either_runs` |
//!
//! The definitions, in the order in which to read them: `Rules` (a program's meanings), `Laws`,
//! `Emissions` and `Batches` (items that are handed over, and that come, one after the other),
//! `Canonical` (the canonical run), `Orders` (the interleaving theorem), `Epochs` (the theorem over
//! all rounds), `Injections` (one program as a case of another), `Eithers` (either of two
//! programs), `Talks` (askers), `Replies` (what askers hear).
#![tactic(auto)]

mod arrivals;
mod asker;
mod departures;
mod either_program;
mod program;
mod progs;
mod theorems;

pub use arrivals::Arrivals;
pub use asker::Asker;
pub use departures::Departures;
pub use program::Program;
pub use progs::Progs;
pub use theorems::{case_of_case, either_runs, every_order, every_run, same_runs};
