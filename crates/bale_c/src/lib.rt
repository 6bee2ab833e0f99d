//! The conveyors for programs in C, Rust and Python.
//!
//! A static library: the calls of `rank_handles` as C has them. `c/bale.h` is its header and its
//! manual; `c/build` makes the archive. Ranks are threads of the caller's own; no call starts one,
//! takes a lock or waits.
//!
//! | Calls | File | Answer |
//! |---|---|---|
//! | `bale_group_new`, `bale_rank_new`, `bale_group_free` | `group_calls` | what became of the wish; the handle has a new group or a new rank |
//! | `bale_begin`, `bale_push`, `bale_pull`, `bale_unpull`, `bale_advance`, `bale_reset` | `rank_calls` | as the conveyor's own calls; each is a step of the exchange machine |
//! | `bale_ranks`, `bale_phase`, `bale_rank_free` | `rank_calls` | how many ranks there are; how far the rank is |
//! | `bale_statistics` | `rank_calls` | what the rank sent and received so far |
//! | `bale_lend`, `bale_pulled` | `view_calls` | the entries that the next pulls give, if they are; pulls the first ones |
//! | `bale_elastic_new`, `bale_elastic_begin`, `bale_epush`, `bale_elastic_pull`, `bale_elastic_string`, `bale_elastic_advance`, `bale_elastic_reset` | `elastic_calls` | strings of up to 65,535 bytes: pushed whole or not at all, and lent whole |
//! | `bale_elastic_ranks`, `bale_elastic_phase`, `bale_elastic_free` | `elastic_calls` | as those of a rank of items |
//! | `bale_push_many`, `bale_pull_many` | `many_calls` | how many items were moved, as by so many single calls |
//!
//! Misuse has an answer of its own, by a code below 0, and changes nothing.
#![tactic(auto)]

mod elastic_calls;
mod group_calls;
mod many_calls;
mod rank_calls;
mod view_calls;
