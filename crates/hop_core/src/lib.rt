//! One rank's part of a conveyor: its buffers, the relay between its hops, and the endgame.
//!
//! A rank has one *open parcel* for each link that starts there, which `push` and `relay` fill, and
//! one *inbox* for each link that ends there, which `relay` and `pull` empty. Whoever carries
//! parcels between ranks exchanges them for an empty one: `take_out` for an open parcel that is
//! due, which borrows the state until the parcel is noted as `sent` or `put_back`; `take_in` for an
//! inbox that is wanted. Or they borrow them: `lend_out` and `note_sent`, `lend_in` and `note_got`.
//! A lent parcel leaves the state by a move, and the rank's spare one is in its place until it
//! comes back. No entry is copied.
//!
//! An epoch ends by *last marks*. A hop has reached its end when nothing more can come to it: hop 1
//! once `set_done` was called, hop h + 1 once every link in of hop h has ended and its entries were
//! passed on.
//! From then on each link out of that hop is due until its last parcel, which may be empty, was
//! sent.
//!
//! | Phase | After `settle` it is this one if and only if |
//! |---|---|
//! | `Dormant` | the epoch has not begun; `begin` leads to `Working` |
//! | `Working` | done is not set |
//! | `Endgame` | done is set, and a link out is not closed |
//! | `Cleanup` | all links out are closed, and a link in of the last hop has not ended or is not read |
//! | `Complete` | all is sent, got and read; `reset` leads to `Dormant` |
//!
//! | Call | What it does |
//! |---|---|
//! | `push` | appends an item to the open parcel toward its destination, or finds it full |
//! | `due`, `due_to`, `take_out` | whether an open parcel is to be sent; exchanges it for an empty one |
//! | `Outgoing::sent`, `Outgoing::put_back` | what became of the open parcel that was taken out |
//! | `wants`, `wants_from`, `take_in` | whether an inbox is to be filled; exchanges it for a parcel that came |
//! | `lend_out`, `note_sent` | lends an open parcel that is due; takes it back, sent or not |
//! | `lend_in`, `note_got` | lends an inbox that is wanted; takes it back, filled or not |
//! | `take_spare` | gives the spare parcel away to a caller that carries parcels by exchanges; then nothing can be lent |
//! | `relay` | passes entries on from one hop to the next |
//! | `pull`, `unpull` | the next item that came, with its sender; puts it back |
//! | `unread`, `batch`, `sender_of`, `pull_all` | the items of one inbox at once, as so many pulls would give them |
//! | `begin`, `set_done`, `settle`, `reset` | the epoch's course |
//!
//! No call after `RankState::new` takes memory.
//!
//! A rank's calls name a link by the number of the neighbour at its other end, ports by its number
//! in the grid:
//! route_tensor's `specs/Neighbour` leads from one to the other (`link_to`, `link_from`) and back
//! (`out_index`, `in_index`).
//!
//! The definitions, in the order in which to read them: `Link`, `Lent` and `State` (what contracts
//! see of a rank), `Lending` (what holds while a parcel is lent), `Relay` (what it passes on).
//! `Standing` is what the code keeps up.
#![tactic(auto)]

mod carrying;
mod in_links;
mod lending;
mod loan;
mod out_links;
mod outgoing;
mod phase;
mod phases;
mod pulling;
mod relay;
mod state;

pub use outgoing::Outgoing;
pub use phase::{Phase, Pushed};
pub use state::RankState;
