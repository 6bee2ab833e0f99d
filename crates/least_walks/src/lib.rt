//! Least weights of walks over the entries of a matrix: what they are, and what a rank keeps of its
//! own vertices.
//!
//! An entry `(i, j, v)` is an edge from vertex `i` to vertex `j`, and a walk weighs the sum of its
//! edges (`specs/Walks`). Vertex `i` belongs to rank `i mod P`, which keeps it at place `i div P`.
//!
//! | Item | What it is |
//! |---|---|
//! | [`Vertices`] | the least weight found for each own vertex, and which were improved |
//! | [`Table`] | the edges of own vertices, those of each vertex together |
//! | [`put_offers`] | what vertices offer along their edges |
//! | [`no_negative`] | whether the entries can be edges |
//! | [`write_vertex`] | the line of a vertex |
//!
//! `proofs/Settled` has the lemma on which every answer stands: where no edge improves a weight,
//! each is least.
//! `proofs/Simple` cuts cycles out of walks, for bounds on rounds alone. `specs/code/Spans` tells
//! how a table keeps its edges.
#![tactic(auto)]

mod lines;
mod table;
mod vertices;
mod weights;

pub use lines::write_vertex;
pub use table::{Edge, Table, put_offers};
pub use vertices::{Vertex, Vertices};
pub use weights::no_negative;
