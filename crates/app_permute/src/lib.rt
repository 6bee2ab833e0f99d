//! Rows and columns of a matrix in another order: transpose turns a matrix over its diagonal, and
//! permute gives its rows and columns new numbers. Both are programs in rounds.
//!
//! | Call | For | Answer |
//! |---|---|---|
//! | [`transpose_start`] | the programs of transpose on so many ranks | in round 0 of a run of one round |
//! | [`transpose_end`] | the programs, once they ended | the transposed matrix |
//! | [`permute_start`] | the programs of permute on so many ranks, with new numbers for rows and columns | in round 0 of a run of three rounds |
//! | [`permute_end`] | the programs, once they ended | the permuted matrix |
//! | [`Transpose::cells`], [`Permute::cells`] | one rank, at any moment | the cells that it has; after the run those of its rows |
//! | [`seed_perms`] | permutations of rows and columns from a seed | drawn from one generator, the rows' first |
//! | [`Perms::rows`], [`Perms::cols`] | the new numbers | the element at `x` is the new number of `x` |
//!
//! The entries are dealt out in turn; row `i` and column `j` belong to ranks `i mod P` and `j mod
//! P`. What the new matrices are is said of the matrix alone (`specs/Reorderings`): no rank, no
//! round and no order of items occurs there.
//!
//! | Law | Round | A rank emits, in order |
//! |---|---|---|
//! | [`permute_rounds`] | 0 | for each own entry, to the owner of row i, (i, j, bits of v) |
//! | | 1 | for each entry of an own row i, to the owner of column j, (p(i), j, bits of v) |
//! | | 2 | for each entry of an own column j, to the owner of its new row p(i), (p(i), q(j), bits of v) |
//! | [`transpose_rounds`] | 0 | for each own entry, to the owner of column j, (j, i, bits of v) |
//!
//! What the answers mean is in `specs/Meanings`, and what is emitted in `specs/PermuteTable` and
//! `specs/TransposeTable`.
#![tactic(auto)]

mod carried;
mod perms;
mod permute;
mod permute_lists;
mod permute_run;
mod rounds;
mod sending;
mod transpose;
mod transpose_run;

pub use perms::{Perms, seed_perms};
pub use permute::Permute;
pub use permute_run::{permute_end, permute_start};
pub use rounds::{permute_rounds, transpose_rounds};
pub use transpose::Transpose;
pub use transpose_run::{transpose_end, transpose_start};
