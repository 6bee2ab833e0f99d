//! Parcels: what travels on a link from one rank to another.
//!
//! A rank pushes entries into a parcel until it is full, hands it over whole, and the rank at the
//! other end takes them out in the same order. A parcel can hold `CAP` entries, and carries the
//! mark `last` and the number of its epoch. Its entries lie in a vector of fixed capacity behind a
//! box, so that it takes no memory after `new`, and moving it moves no entry.
//!
//! | Call | Needs | Answer |
//! |---|---|---|
//! | `new(alloc)` | `IsCap CAP`: from 1 to `MOST_ENTRIES` | empty, nothing taken, not last, epoch 0 |
//! | `try_push(e)` | nothing taken | `false` if and only if the parcel holds `CAP` entries |
//! | `head()` | | the first untaken entry, if any |
//! | `take()` | | the same, which is then taken |
//! | `untaken()` | | all untaken entries |
//! | `skip(n)` | `n` entries untaken | takes the first `n` of them |
//! | `untake()` | an entry taken since the last clear, and not put back | puts it back in front |
//! | `clear()` | | empty, nothing taken, not last, the same epoch |
//! | `len()`, `is_full()`, `cap()` | | of the untaken entries, and `CAP` |
//! | `last()`, `set_last(on)`, `epoch()`, `set_epoch(e)` | | the marks |
//!
//! `is_capacity(cap)` tells for which capacities the product is compiled, and `by_capacity!` calls
//! the function of one of them. `specs/Contents` says what contracts see of a parcel, and
//! `specs/Capacity` what `CAP` may be.
#![tactic(auto)]

mod by_capacity;
mod capacity;
mod parcel;

pub use capacity::{MOST_ENTRIES, is_capacity};
pub use parcel::Parcel;
