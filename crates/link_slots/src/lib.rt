//! Links between ranks by slot exchange: a bank that threads share without a lock.
//!
//! A link has 1, 2, 4 or 8 slots, each with a parcel in it. To post, a rank exchanges its full
//! parcel for the empty one in a slot; to collect, its empty one for the full one. Two words for
//! each link count what was posted and what was released, and one doorbell word for each rank and
//! hop shows a reader which links were rung for. After `new` no memory is taken, and no call waits.
//! docs/SLOT_LINKS.md says which race each step prevents.
//!
//! | Call | Answer |
//! |---|---|
//! | `SlotBank::new` | a bank on which nothing was sent, and its gathering seat |
//! | `SlotBank::seat` | the seat of a rank, which may go to the rank's thread |
//! | `SlotSeat::post`, `SlotSeat::collect` | those of a port; their contracts tell too which steps on doorbells they make |
//! | `SlotBank::port`, `SlotPort::into_seat` | the rank's port, by the trait of port_bank, and its seat back |
//! | `SlotBank::gather` | the gathering seat knows what the rank sent and got |
//! | `SlotBank::close` | a closed round, on which what each rank pulled is what the others pushed |
//! | `SlotBank::table` | the table of the bank, whose type names the rule that it keeps |
//! | `rule_law`, `live_law` | between any two steps the bank is lawful, and its lists keep the laws of a closed round |
//! | `bell_law` | a collect that answers Nothing after a hear has left no offered parcel |
//! | `room_law` | a post that answers NoRoom after a look found every slot taken |
//! | `SlotRound::ranks`, `SlotRound::epochs` | the number of ranks; how many epochs every link has ended |
//!
//! The definitions, in the order in which to read them: `Logs` (what a rank knows of its links),
//! `Shape` (grid and slots), `SeatView` (a bank and a seat, as contracts see them), `Doorbell`
//! (when a collect hears and looks), `Offered` and `Room` (what Nothing and NoRoom say),
//! `PortCalls` (a call on a port), `ClosedBank` (a closed round) and `Gathering` (a gathering seat,
//! as contracts see it). `Wiring`, `View`, `Link`, `Bank`, `WordSteps` and `StepEffects` are the
//! rule of the table and its steps; the others are the code's own.
#![tactic(auto)]

mod port;
mod seat;
mod slot_bank;
mod table;

pub use port::SlotPort;
pub use seat::SlotSeat;
pub use slot_bank::SlotBank;
pub use slot_bank::gather::GatherSeat;
pub use slot_bank::live::{bell_law, live_law, room_law, rule_law};
pub use slot_bank::round::SlotRound;
