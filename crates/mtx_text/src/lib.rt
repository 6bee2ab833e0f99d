//! Matrices from text, to text, of cells and of seeds: the Matrix Market exchange format in
//! coordinate form, as this project reads it.
//!
//! The grammar is the definition *the matrix of a text* (`specs/Grammar.antt`): each text has a
//! matrix, or a first bad line and the reason why it is bad. The reader gives exactly that.
//!
//! | Call | For | Answer |
//! |---|---|---|
//! | [`parse_matrix`] | a text in memory | its matrix, or its first bad line |
//! | [`read_matrix`] | the text of a source | the same, or that a read failed |
//! | [`parse_matrix_by`], [`read_matrix_by`] | the same on several threads ([`OnThreads`]) or on one | the same |
//! | [`write_matrix`] | a matrix as text | that text is read as the same matrix |
//! | [`EntryLine`] | the line of one entry after another, as `write_matrix` writes them | |
//! | [`Matrix::rows`], [`Matrix::cols`], [`Matrix::kind`] | the parts | |
//! | [`Matrix::entries`] | loops over all entries | a slice of triples, in the order of the lines |
//! | [`Matrix::len`], [`Matrix::get`] | one entry | `None` exactly past the end |
//! | [`entries_are_a_map`] | a law: the list and the finite map of a matrix say the same | |
//! | [`Cells`] | an ordered map from places to values: [`Cells::put`], [`Cells::raise`], [`Cells::at_or_after`] | |
//! | [`Cells::of_maps`] | several such maps as one | |
//! | [`Matrix::of_cells`], [`Matrix::of_own_cells`], [`Matrix::of_all_cells`] | the matrix of cells, in order | |
//! | [`Words`] | the words of a seed, and permutations drawn from them | |
//! | [`gen_matrix`] | a matrix generated from a seed | |
//! | [`Reason::text`] | what to print of a bad line | |
//!
//! The definitions, in the order in which to read them: `Lines`, `Integers`, `Sparse`, `Reasons`,
//! `Grammar` and `Answers` for reading, `Written` for writing, `Cells` and `Maps` for cells,
//! `Seeds`, `Permutations` and `Generated` for generated matrices. `specs/code/` tells how the code
//! reads lines, keeps entries and sorts triples.
#![tactic(auto)]

mod ahead;
mod apart;
mod append;
mod banner;
mod careful;
mod cell;
mod cells;
mod digit_lanes;
mod distribution;
mod draft;
mod entries;
mod entry_line;
mod execution;
mod finite_map;
mod generate;
mod integer;
mod kind;
mod lines;
mod links;
mod matrix;
mod numbers;
mod of_cells;
mod parse;
mod piece;
mod place_order;
mod places;
mod plain;
mod read;
mod refusal;
mod rows;
mod seeds;
mod sizes;
mod words;
mod write;

pub use cells::Cells;
pub use entry_line::EntryLine;
pub use execution::{Execution, OnThreads, OneThread};
pub use finite_map::entries_are_a_map;
pub use generate::gen_matrix;
pub use kind::Kind;
pub use matrix::Matrix;
pub use parse::{parse_matrix, parse_matrix_by};
pub use read::{read_matrix, read_matrix_by};
pub use refusal::{BadLine, ParseFault, ReadFault, Reason};
pub use seeds::Words;
pub use write::write_matrix;
