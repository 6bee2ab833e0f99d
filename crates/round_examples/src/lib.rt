//! Small programs, as examples of how a program and an asker are written and proved.
//!
//! | Program | What it shows |
//! |---|---|
//! | `Count` | one round; emissions read from the input; counts that rise modulo 2^64 commute |
//! | `Ask` | two rounds; a list for each sender, so that absorbs of different senders commute; emissions built at `end_round` |
//! | `Traffic` | as many rounds as it is told; emissions numbered as they are read; nothing but sums, so it measures what moves them |
//! | `Lookup` | an asker: queries to other ranks, each with its reply |
//!
//! For each there is a state that contracts see and the program's rules (`specs/Counts`, `Asks`,
//! `Traffics`, `Lookups`), how the state is read from the fields (`CountView` and so on), and the
//! proof of the laws (`CountLaws` and so on).
#![tactic(auto)]

mod ask;
mod count;
mod lookup;
mod traffic;

pub use ask::Ask;
pub use count::Count;
pub use lookup::Lookup;
pub use traffic::{CELLS, Traffic};
