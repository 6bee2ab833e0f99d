//! Two applications on the entries of a matrix, as programs in rounds: histo counts the entries of
//! each column, and ig tells each entry the sum of its column.
//!
//! | Call | For | Answer |
//! |---|---|---|
//! | [`histo_start`] | the programs of histo on so many ranks | in round 0 of a run of one round |
//! | [`histo_write`] | the programs, once they ended | a line for each column: column, count |
//! | [`ig_start`] | the programs of ig on so many ranks | in round 0 of a run of three rounds |
//! | [`ig_write`] | the programs, once they ended | a line for each entry: row, column, sum of the column |
//! | [`ig_sums_start`] | the programs of ig's first round alone | in round 0 of a run of one round |
//! | [`ig_askers`] | these programs, once they ended | ranks that ask one another for the sums of their entries' columns |
//! | [`ig_heard_write`] | these ranks, once each has heard its replies | the lines of `ig_write` |
//! | [`Histo::counts`], [`Answered::answers`] | one rank, at any moment | the counts of its columns, the sums for its entries |
//! | [`write_count`] | a column and its count | its line of `histo_write` |
//! | [`all_askers`] | programs of `ig_sums_start`, at any moment | their askers, by what each has added up |
//!
//! The entries are dealt out in turn, and column `j` belongs to rank `j mod P`. What the lines are
//! is said of the matrix alone (`specs/HistoLines` and `specs/IgLines`): no rank, no round and no
//! order of items occurs there.
//! sparse_rows' `proofs/EveryEntry` has the lemma that carries one to the other: after a round in
//! which the ranks emit what is theirs of a list, each rank is as if it alone had gone through the
//! list and absorbed what is sent to it.
//!
//! | Law | Round | A rank emits, in order |
//! |---|---|---|
//! | [`histo_rounds`] | 0 | for each own entry (i,j,v), to the owner of column j, (j,1,0) |
//! | [`ig_rounds`], [`ig_sums_rounds`] | 0 | for each own entry, to the owner of column j, (j, bits of v, 0) |
//! | [`ig_rounds`] | 1 | for each own entry, with its number e, to the owner of column j, (j,e,0) |
//! | | 2 | for each entry in an own column, with its number e, to its rank, (e, bits of the column's sum, 0) |
//!
//! What the answers mean is in `specs/Meanings`, and what is emitted in `specs/HistoTable` and
//! `specs/IgTable`.
#![tactic(auto)]

mod answered;
mod batches;
mod histo;
mod histo_run;
mod ig;
mod ig_asker;
mod ig_by_askers;
mod ig_lists;
mod ig_replies;
mod ig_run;
mod ig_sent;
mod ig_sums;
mod rounds;
mod seat;

pub use answered::Answered;
pub use histo::Histo;
pub use histo_run::{histo_start, histo_write, write_count};
pub use ig::Ig;
pub use ig_asker::IgAsker;
pub use ig_by_askers::{all_askers, ig_askers, ig_heard_write, ig_sums_start};
pub use ig_run::{ig_start, ig_write};
pub use ig_sums::IgSums;
pub use rounds::{histo_rounds, ig_rounds, ig_sums_rounds};
