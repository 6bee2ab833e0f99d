//! Ranks that are polled side by side, by workers on threads, whatever a rank is.
//!
//! A rank is a `Seated`: it sits at its ports, and is polled until its run is over. Turns of
//! different ranks may come in any order, since a turn never waits.
//!
//! | Call | What it does |
//! |---|---|
//! | `run_together` | polls all ranks until the run of each is over |
//! | `Seated::turn`, `Seated::is_over` | one turn of a rank, and whether its run is over |
//! | `Gate::turn` | is called before each turn of a rank on a thread; an `OpenGate` holds no rank |
//!
//! With T workers, worker k has the ranks r with r mod T = k, and makes *sweeps*: one turn of each
//! of its ranks whose run isn't over. With no more ranks than processors each worker has one rank.
//! The ranks of a worker go to its thread once that is up, through a ring with room for one, so
//! those of a worker whose thread was refused never left.
//!
//! If other work has the processors, a worker calls the *fallback* (`src/backoff.rt` says when):
//! all workers return, and the caller polls their ranks. It begins with the first that returns,
//! while the others are still on their threads.
//!
//! `specs/Runs` says what turns leave of ranks. The others are the code's own.
#![tactic(auto)]

mod assignment;
mod backoff;
mod caller;
mod child;
mod counts;
mod dealing;
mod gate;
mod job;
mod seated;
mod shared;
mod threads;
mod turned;
mod worker;
mod worker_thread;

pub use counts::{ThreadLimit, Workers};
pub use gate::{Gate, OpenGate};
pub use seated::{GateLog, Seated};
pub use threads::run_together;
