//! Connected components of a graph by label propagation: a whole program in rounds, to be read from
//! top to bottom and copied.
//!
//! A square matrix is read as a graph: an entry `(i, j)` joins the vertices `i` and `j`. Each
//! vertex has a label, at first its own number. In each round a vertex whose label fell sends it to
//! its neighbours, and each keeps the least that it heard. A round in which no label fell is the
//! last. Then the label of a vertex is the least number of its component.
//!
//! | File | What is in it |
//! |---|---|
//! | `specs/Connected` | what the answer means, with no rank and no round: read this first |
//! | `src/labels.rt` | [`Labels`], one rank's part: its fields, [`Labels::new`], and the calls of `Program` |
//! | `specs/LabelRules` | its state, when that is valid, and what each call answers or makes of it |
//! | `specs/code/LabelsView` | the state, read from the fields |
//! | `specs/laws/LabelLaws` | the proof of the seven laws |
//! | `src/starting.rt`, `specs/Starts` | [`start`], the programs of all ranks from a matrix, and the states in which they begin |
//! | `src/drives.rt` | [`components_serial`], [`components_threads`]: from a matrix to the labels of its vertices |
//! | `proofs/Starts` | that the ranks begin in round 0 of one run |
//! | `proofs/Rounds`, `Runs` | what holds as a round begins holds as the next begins; the run ends, and each label is then least |
//!
//! What says nothing of labels stands in the crate reductions: labels are a `Reduced`, whose
//! reductions commute, and whose rounds and ends are proved there.
#![tactic(auto)]

mod drives;
mod labels;
mod starting;
#[cfg(test)]
mod tests;

pub use drives::{components_serial, components_threads};
pub use labels::{Labels, Link};
pub use starting::start;
