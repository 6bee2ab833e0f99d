//! The exstack: one rank's side of a many-to-many exchange in collective rounds.
//!
//! An epoch is a sequence of cycles. In each, all ranks take part in a *proceed round*, which finds
//! whether some rank isn't done, push into their buffers, and take part in an *exchange round*,
//! which hands the buffers over; then each pops what came.
//! In a round a rank posts one parcel on each of its links and collects one from each. No call
//! waits: a poll does what can be done now, and says for which link the round still waits.
//!
//! | Stage | Call | After it |
//! |---|---|---|
//! | | `Exstack::new` | Start, epoch 0 |
//! | Start, Full, Proceeding | `poll_proceed` | `GoOn`: Filling; `AllDone`: AllDone; `NotYet`: Proceeding |
//! | Filling, not done | `push` | the item is in a buffer, or the headroom was 0 and nothing changed |
//! | Filling, Exchanging | `poll_exchange` | `Ready`: Full; `NotYet`: Exchanging |
//! | any | `pop` | the next item with its sender, or none is unread |
//! | any | `next_sender`, `batch` | the lowest sender with unread items; those items, as a slice |
//! | any | `pop_all` | the items of that sender are read, as by so many pops |
//! | any | `unpop` | the item of the latest call is unread again, if that was a pop that gave one |
//! | any | `headroom`, `min_headroom`, `unread`, `stage` | the same |
//! | AllDone | `reset` | Start, the epoch one higher |
//!
//! Contracts see an exstack as a state (`specs/State.antt`), and say of each call which step of the
//! exchange machine it is (`port_bank`'s `specs/Machine.antt`), as those of a conveyor do. Parcel
//! number 2n of a link's epoch is the proceed parcel of cycle n, and parcel number 2n + 1 its
//! exchange parcel (`specs/Cycles.antt`): so the n-th exchange on one side meets the n-th on the
//! other. `exchange_law` and `closes_law` say that the steps of all ranks over one bank fit
//! together.
#![tactic(auto)]

mod exstack;
mod in_link;
mod law;
mod out_link;
mod polls;
mod rounds;
mod stage;

pub use exstack::Exstack;
pub use law::{closes_law, cycles_law, exchange_law, lockstep_law};
pub use stage::{Poll, Proceed, Stage};
