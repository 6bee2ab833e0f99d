//! The words of the command line, and what they ask for.
//!
//! The definitions, in the order in which to read them: `Words` (which lists of words are accepted,
//! and what they ask for), `Options` (how words are cut into options), `Values` and `Numbers` (what
//! a text gives), `Ranges` (what a command's numbers may be). `Clap`, `Pairs` and `Reading` are the
//! code's own.
#![tactic(auto)]

mod command;
mod fault;
mod numbers;
mod options;
mod parse;
mod read;
mod task;
mod travel;
mod values;

pub use command::{Command, Driving, Generated, Permutations, Transport};
pub use fault::WordsFault;
pub use numbers::Numbers;
pub use read::read_command;
pub use task::Task;
pub use travel::Travel;
