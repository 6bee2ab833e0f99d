//! Drives chosen by numbers that are known when the program runs.
//!
//! A drive is compiled for one capacity of a parcel and one number of hops, so that buffers have a
//! fixed size. The calls here take the capacity as a number and the hops from the grid, and hand on
//! what they were given to the drive of that case, one of 33: eleven capacities, and one to three
//! hops. They promise what the drives promise.
//!
//! | Call | Chooses among the cases of |
//! |---|---|
//! | `case_serial` | `drive_serial` |
//! | `case_threads` | `drive_threads` |
//!
//! item_buffer's `IsCapacity` says which capacities there are.
#![tactic(auto)]

mod serial;
mod threads;

pub use serial::case_serial;
pub use threads::case_threads;
