//! Queries and replies at once: each rank asks others, answers what it is asked, and hears the
//! replies, with both ways underway at the same time. What a rank does is query_node's; here all
//! ranks of a grid are driven over two banks.
//!
//! | Call | What it does |
//! |---|---|
//! | `bi_serial` | drives all ranks on one thread, until each query has its one reply |
//! | `bi_threads` | the same on threads |
//! | `drive_both`, `thread_both`, `thread_with` | these, for a capacity and a number of hops that are known when the program is compiled |
//!
//! `specs/Drives` says what the two closed rounds tell, and `specs/RanksOverBanks` bounds the turns
//! (`turns_of`).
#![tactic(auto)]

mod at_ports;
mod drive;
mod nodes;
mod on_threads;
mod seating;
mod serial;
mod sweep;
mod sweeps;
mod threads;

pub use bale_items::Steps;
pub use drive::drive_both;
pub use on_threads::{thread_both, thread_with};
pub use query_node::BiNode;
pub use rank_node::Turn;
pub use serial::bi_serial;
pub use threads::bi_threads;
