//! What the ranks of each application send in each round, and how they vote: a table, in terms of
//! the matrix or the lines alone, and the law that the canonical run goes by it.
//!
//! | Application | Round | A rank sends, in order |
//! |---|---|---|
//! | histo, ig, permute, transpose, topo, tally | | what `specs/*Table` of its crate says |
//! | sssp | 0 | for each own entry, to the owner of row i, (i, j, bits of v) |
//! | | k + 1 | for each edge (i,j,v) of an own vertex i that improves with k edges, to weight w, to the owner of j, (j, w + v, 0) |
//! | sssp by buckets | 0 | the same as sssp |
//! | | find | to each rank, (b,0,0) with the least own bucket b in which a vertex is pending |
//! | | light | for each light edge (i,j,v) of an own active vertex i of weight w, to the owner of j, (j, w + v, 0) |
//! | | heavy | for each heavy edge of an own settled vertex, the same |
//!
//! The calls do nothing, and tell laws: [`table_laws`] of all applications, [`sssp_rounds`] and
//! [`delta_rounds`] of what is emitted alone. The programs keep books, by which each rank knows
//! what to send next; no table speaks of them, so they are proved and need not be believed. For
//! sssp by buckets what all ranks together know is told step by step, over the whole graph
//! (`Look`).
//!
//! Read `specs/Tables` first, and from there what it names. `specs/Follows` and `specs/Laws` say
//! what it is that a run goes by its table.
#![tactic(auto)]

mod laws;

pub use laws::{delta_rounds, sssp_rounds, table_laws};
