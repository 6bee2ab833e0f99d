//! sssp: the least weight of a walk from a source to each vertex of a graph, as a program in rounds
//! of improvements.
//!
//! | Call | For | Answer |
//! |---|---|---|
//! | [`sssp_start`] | the programs of sssp on so many ranks | in round 0 of a run of at most n + 1 rounds |
//! | [`sssp_write`] | the programs, once they ended | a line for each vertex: vertex, least weight or `-` |
//! | [`Sssp::vertices`] | one rank, at any moment | its vertices with the weights found so far |
//! | [`vertices_of`], [`edges_of`] | what a rank begins with, also of another program for least walks | |
//!
//! The entries of a square matrix are edges, and no value is negative. In round 0 each edge goes to
//! the owner of its beginning. From then on the vertices that were improved in the round before
//! offer their ends a weight along each edge, and a round in which no vertex is improved is the
//! last.
//!
//! What the lines are is said by walks over the matrix (`least_walks`). `proofs/Rounds` carries
//! that to the rounds: each weight is that of a walk, and where no vertex was improved no edge
//! improves a weight.
//!
//! The definitions, in the order in which to read them: `Sssps` (the program's rules) and
//! `SsspRuns` (how a run begins and ends); `SsspView` is the state read from the fields.
#![tactic(auto)]

mod seat;
mod sssp;
mod sssp_run;

pub use sssp::Sssp;
pub use sssp_run::{edges_of, sssp_start, sssp_write, vertices_of};
