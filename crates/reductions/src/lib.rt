//! What most programs in rounds need and each would prove anew: numbers by key that are reduced by
//! what comes for them, the programs of all ranks made rank by rank, and when a run ends.
//!
//! | Item | What it is |
//! |---|---|
//! | [`Reduced`] | numbers by key, each reduced by what comes for it, and which of them changed in this round |
//! | [`Reduction`] | how: the least, the greatest, or the sum |
//! | [`programs`] | the programs of all ranks, each made from its rank |
//! | [`HasCells`], [`owned`] | the answer of a run: the cell of each key, as its owner has it |
//!
//! A program that keeps a `Reduced` in its state proves its laws and its answer by lemmas that
//! stand here:
//!
//! | File | What it says |
//! |---|---|
//! | `specs/Reductions` | what contracts see of a `Reduced`: read this first |
//! | `specs/Answers` | the cells as their owners have them |
//! | `proofs/Answers` | what holds of each cell at its owner holds of the answer; at the end all ranks have a cell for each key |
//! | `proofs/Cells` | reductions commute, and keep the number of cells; a vote is below 2^32 |
//! | `proofs/CellRounds` | after a round a cell is the fold of all that all ranks sent for it; if least values are kept, it fell, heard all, and is one of them |
//! | `proofs/CellRuns` | least values fall, so the run ends; after a round without votes no cell has changed |
//! | `proofs/Links` | if what a link offers its end is sent once the cell of its beginning fell, at the end no offer is below its end's cell |
//! | `proofs/Ends` | when a run ends: at a round after which none follows, or since a number falls; the round in which it ended |
//! | `proofs/Rounds` | what a round makes of each rank, whatever the program |
//! | `proofs/Starts` | the ranks that `programs` made are in round 0 of one run |
#![tactic(auto)]

mod answer;
mod making;
mod reduced;

pub use answer::{HasCells, owned};
pub use making::programs;
pub use reduced::{Reduced, Reduction};
