//! What every layer of the conveyors speaks of: items, tags and entries, the triples of a matrix, a
//! count of turns, and the fault of an allocation.
//!
//! | Type or call | What it is |
//! |---|---|
//! | `Item`, `Tag`, `Entry` | what an application sends, the digits of its route, and the two together |
//! | `Triple` | one entry of a sparse matrix |
//! | `NoMemory` | an allocation was refused |
//! | `Steps` | how many turns were made, which proofs alone see |
//! | `bits_of`, `value_of` | a signed number as a word, and back |
//!
//! The definitions are short: `Bits` of words, `Changes` of calls that may fail, `Counters` of
//! counts in 64 bits, and `Ledgers` of the count of turns.
#![tactic(auto)]

mod bits;
mod fault;
mod item;
mod steps;
mod triple;

pub use bits::{bits_of, value_of};
pub use fault::NoMemory;
pub use item::{Entry, Item, Tag};
pub use steps::Steps;
pub use triple::Triple;
