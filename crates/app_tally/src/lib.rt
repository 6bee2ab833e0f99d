//! tally: reads lines and counts equal ones, over letters of any ranks.
//!
//! | Call | For | Answer |
//! |---|---|---|
//! | [`read_lines`] | the lines of a source's text | a list of lines, or why it isn't read |
//! | [`tally_start`] | the programs of tally on so many ranks | in round 0 of a run of one round |
//! | [`tally_end`] | the programs, once they ended | each distinct line with how many times it was read |
//! | [`tally_write`] | the answer's text | a line for each distinct line, in the order of bytes |
//!
//! The lines are dealt out in turn, and each goes as one letter to the rank that is the sum of its
//! bytes modulo the number of ranks. A rank counts what comes at once; the distinct lines are
//! sorted at the end. What the answer is, is said of the lines alone (`specs/Counts`): no rank, no
//! round and no item occurs there.
//!
//! | Law | Round | A rank emits, in order |
//! |---|---|---|
//! | [`tally_rounds`] | 0 | for each own line, to the rank that is the sum of its bytes modulo the ranks, its spelling |
//!
//! What the answer means is in `specs/Meanings`, and what is emitted in `specs/TallyTable`.
#![tactic(auto)]

mod counts;
mod line_index;
mod lines;
mod multiset;
mod numbered;
mod read;
mod rounds;
mod run;
mod share;
mod strings;
mod tally;
mod write;

pub use counts::Counts;
pub use lines::{Lines, LinesFault};
pub use read::read_lines;
pub use rounds::tally_rounds;
pub use run::{tally_end, tally_start};
pub use strings::Strings;
pub use tally::Tally;
pub use write::tally_write;
