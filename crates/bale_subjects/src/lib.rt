//! What a command of the words is asked of, and why a run ended without an answer.
//!
//! | Type or call | What it is |
//! |---|---|
//! | [`Subject`] | a matrix, or the lines of the text for tally |
//! | [`read_words`] | the command of the words, or that they are none |
//! | [`subject_for`] | the subject of a command, read or generated, if the command fits it |
//! | [`Refusal`], [`BadText`], [`Unfit`] | why a run ended without an answer, and its exit status |
//! | [`report`] | says that on a sink |
//! | [`new_numbers`], [`in_order`] | new numbers of rows or columns; the numbers from 0 on |
//!
//! Read `specs/Subjects` first: what a command is asked of, about the text alone. Then
//! `specs/Fitness` and `specs/Numberings`: for which matrices an application has an answer.
//! `specs/Refusals` has the texts and the statuses, and `specs/Reading` begins with what a source
//! told and whether a command reads it (`SourceHad`, `reads`), which the contracts of the top calls
//! cite; the rest of it is the code's own.
#![tactic(auto)]

mod job;
mod numberings;
mod refusal;
mod subject;
mod unfit;

pub use job::{read_words, subject_for};
pub use numberings::{in_order, new_numbers};
pub use refusal::{BadText, Refusal, report};
pub use subject::Subject;
pub use unfit::Unfit;
