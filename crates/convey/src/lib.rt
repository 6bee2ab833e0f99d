//! The conveyor: one rank's side of an aggregated many-to-many exchange.
//!
//! A rank pushes items toward other ranks and pulls those that came. Items travel in parcels over
//! the links of a port; `advance` moves them on, and never waits. An epoch is over once every rank
//! has said that it is done and all items are pulled; how ranks find that out is in
//! `docs/ENDGAME.md`.
//!
//! | Phase | Call | After it |
//! |---|---|---|
//! | | `Conveyor::new` | Dormant, epoch 0 |
//! | Dormant | `begin` | Working |
//! | Working, not done | `push` | the item is in an open parcel, or that is `Full` and nothing changed |
//! | all but Dormant | `pull` | the next item with its sender, or none is unread |
//! | all but Dormant | `unread`, `batch`, `sender_of`, `pull_all` | all items of one inbox at once, as so many pulls would give them |
//! | any | `unpull` | the item of the latest call is unread again, if that was a pull that gave one |
//! | all but Dormant | `advance` | what can be sent and collected now is; `More`, `Near` or `Complete` |
//! | Complete | `reset` | Dormant, the epoch one higher |
//!
//! Contracts see a conveyor as the state of its rank (`hop_core`), and say of each call which step
//! of the exchange machine it is (`port_bank`'s `specs/Machine.antt`), a machine of two lists for
//! each epoch and ordered pair of ranks, which knows no parcels, hops or tags. `exchange_law` says
//! that the steps of all ranks over one bank fit together, `closes_law` that the ranks end each
//! epoch together, and `rest_law` that a sweep in which nothing moves ends an epoch.
//!
//! The definitions, in the order in which to read them: `Buffers`, `Conveyors` and `Agreement`
//! (what contracts see, and when it agrees with a port), `Parts` and `Progress` (which steps of the
//! machine a call makes), `Arrived` and `Due` (which links an advance serves, and why it leaves
//! entries in an inbox), then `Law` and `Rest`. `Way` is the code's own.
#![tactic(auto)]

mod collecting;
mod conveyor;
mod law;
mod moving;
mod posting;
mod progress;
mod relaying;
mod spare;

pub use conveyor::Conveyor;
pub use hop_core::{Phase, Pushed};
pub use law::{closes_law, exchange_law, rest_law};
pub use progress::Progress;
