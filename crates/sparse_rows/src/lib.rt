//! What the applications share of matrices that lie on many ranks: a matrix split into cyclic
//! parts, and lists that are permutations.
//!
//! | Call | For | Answer |
//! |---|---|---|
//! | [`split`] | a matrix dealt out to ranks | entry number `e` is in the part of rank `e mod P` |
//! | [`Parts::len`], [`Parts::entry`], [`Parts::get`] | a rank's part | its entries with their numbers |
//! | [`join`] | the cells of all ranks | the matrix that has them, by row and then column |
//! | [`is_permutation`] | a list of new numbers | whether it has each number below `n` once |
//!
//! `specs/Deals.antt` has the words for dealing, and `proofs/Deals.antt` what holds of every deal:
//! counts, sums and filters over the hands are those over the whole list. The other lemmas are on
//! programs whose ranks own entries, rows and columns in turn: `proofs/Starts.antt` on the programs
//! as they begin, `proofs/EveryEntry.antt` on a round in which every element of a list reaches its
//! owner once, and `proofs/Gathering.antt` on cells that so arrive.
#![tactic(auto)]

mod joining;
mod parts;
mod permutations;

pub use joining::join;
pub use parts::{Parts, split};
pub use permutations::is_permutation;
