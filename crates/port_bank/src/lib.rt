//! Links between ranks: what a rank may do on its own links, and a bank of links for one thread.
//!
//! A rank posts parcels on its links out and collects parcels on its links in, through a `Port`.
//! Everything above knows of a transport only this trait. The transport here is the plain bank,
//! whose ports take turns on it. Each of its links is a ring of parcels: a post exchanges the full
//! parcel for an empty one of the ring, and a collect the empty one at hand for a full one. So no
//! entry is copied, and nothing is kept of what was collected.
//!
//! `specs/Machine.antt` states the exchange machine: what the ranks of any bank do, seen as two
//! lists of items for each epoch and ordered pair of ranks.
//!
//! | Call | Answer |
//! |---|---|
//! | `Port::post` | `Sent`; `NoRoom` if as many parcels as there are slots wait for the link's reader |
//! | `Port::collect` | `Got`; `Nothing` if every parcel that the port heard of is collected |
//! | `PlainBank::new` | a bank on which nothing was sent |
//! | `PlainBank::port`, `PlainPort::into_bank` | one rank's port, which owns the bank, and the bank back |
//! | `PlainBank::live_law`, `PlainPort::live_law` | the laws of a closed round hold of a bank's lists at every moment |
//! | `PlainBank::close` | a closed round, on which what each rank pulled is what the others pushed |
//! | `PlainRound::ranks`, `PlainRound::epochs` | the number of ranks; how many epochs every link has ended |
//! | `is_slot_count` | whether a link may have so many slots |
//! | `few_parcels_law` | if only its last parcel may be less than full, an epoch has few parcels |
#![tactic(auto)]

mod calls;
mod few_parcels;
mod log;
mod memory;
mod plain_bank;
mod plain_link;
mod plain_port;
mod plain_round;
mod port;
mod ring;
mod slots;

pub use calls::Calls;
pub use few_parcels::few_parcels_law;
pub use memory::{Fixed, Growing, Memory};
pub use plain_bank::PlainBank;
pub use plain_port::PlainPort;
pub use plain_round::PlainRound;
pub use port::{Collected, Port, Posted};
pub use slots::{MOST_SLOTS, is_slot_count};
