//! The topological order of a square matrix, by levels: rows and columns in an order in which the
//! matrix is upper triangular with a full diagonal, where there is one. It is a program in rounds.
//!
//! | Call | For | Answer |
//! |---|---|---|
//! | [`topo_start`] | the programs of topo on so many ranks | in round 0 of a run of at most `2n + 2` rounds |
//! | [`topo_end`] | the programs, once they ended | the order, or `None` if and only if there is none |
//! | [`topo_write`] | an order | a line for each position: position, row, column |
//! | [`TopoOrder::len`], [`TopoOrder::get`] | the positions | `None` exactly past the end |
//! | [`TopoOrder::of_places`] | rows and columns in an order found elsewhere | that order |
//! | [`Topo::claimed`] | one rank, at any moment | its rows that have claimed, each with its level and column |
//!
//! Level by level, each row that has one entry left outside the taken columns claims that column,
//! and a column that was claimed tells its rows that they have an entry less. `specs/Triangular`
//! says what a valid order is and `specs/Levels` what the levels are; neither has a rank or a
//! round. `proofs/Printed` and `proofs/Claimed` prove both directions: the order of the levels is
//! valid, and where any valid pair of permutations exists, every level takes a row until all have
//! claimed. The other proofs tie the rounds to the levels.
//!
//! | Law | Round | A rank emits, in order |
//! |---|---|---|
//! | [`topo_rounds`] | 0 | for each own entry, to the owner of row i, (i,j,0), and then to that of column j, (j,i,1) |
//! | | 2t + 1 | for each own row i of level t, to the owner of the column j that it claims, (j,i,2) |
//! | | 2t + 2 | for each entry (i,j) of an own column that level t claimed, to the owner of row i, (i,j,3) |
//!
//! What the answer means is in `specs/Meanings`, and what is emitted in `specs/TopoTable`.
#![tactic(auto)]

mod lists;
mod marks;
mod order;
mod placed;
mod rounds;
mod seat;
mod sent;
mod spans;
mod topo;
mod topo_answer;
mod topo_lines;
mod topo_run;

pub use order::TopoOrder;
pub use placed::Placed;
pub use rounds::topo_rounds;
pub use topo::Topo;
pub use topo_answer::topo_end;
pub use topo_lines::topo_write;
pub use topo_run::topo_start;
