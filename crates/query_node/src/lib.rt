//! A rank that asks others, answers what it is asked, and hears the replies, with both ways
//! underway at the same time.
//!
//! It has two conveyors over two banks, one for queries and one for replies. A reply carries no
//! number of its query.
//! Both ways keep the order of each pair of ranks, so the replies of a rank come in the order of
//! the queries to it, and the next one is that to the first query to this rank that has none.
//!
//! | Call | What it does |
//! |---|---|
//! | `BiNode::new` | a rank that hasn't turned |
//! | `BiNode::turn` | one turn, which never waits: asks, advances, answers, advances, hears; `Ended` if and only if both ways are complete |
//! | `replies_law` | the replies theorem, over any two lawful banks |
//! | `askers_law` | what all ranks have heard, whenever each is between turns or between a turn's two advances, and at the end |
//! | `steps_law` | what each has got, at every step within turns |
//!
//! round_program's `specs/Replies` says what a rank hears, with no word on how it travels;
//! `specs/Banks` states the replies theorem.
//! The crate biconvey drives such ranks.
#![tactic(auto)]

mod answering;
mod asking;
mod bi_node;
mod hearing;
mod law;
mod line;
mod lines;

pub use bi_node::BiNode;
pub use law::{askers_law, replies_law, steps_law};
