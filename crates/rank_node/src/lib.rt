//! One rank of a run: a program that exchanges its items over a conveyor or an exstack.
//!
//! A *node* is a program and its rank's *mover*, which is a conveyor or an exstack. A *turn* over a
//! conveyor pushes what the program emits until an open parcel is full, advances once, and absorbs
//! all that came. A turn over an exstack makes one poll:
//! before a proceed poll it absorbs what came, before an exchange poll it pushes until a buffer is
//! full. A turn never waits, so nodes may be turned in whatever order, over any port.
//!
//! Epoch 2n is the work of round n. Epoch 2n + 1 carries its votes: each rank sends its vote to all
//! ranks, and the sum says whether a further round follows.
//!
//! | Call | What it does |
//! |---|---|
//! | `Node::new` | a node that hasn't turned, for a program of the grid |
//! | `Node::turn` | one turn; `Ended` if and only if the epoch is over for this rank |
//! | `Node::next` | goes on to the next epoch, if one follows |
//! | `Node::into_prog` | the program |
//!
//! `specs/Runs` says what a rank has done, against its part of the exchange machine: which of its
//! emissions are pushed, and that its state is the one that its pulls make of the start, in
//! whatever order they came. `specs/Cycles` says how the cycles of an exstack keep pace with what
//! its rank has to send: a rank that isn't done pushes at least one item in each.
#![tactic(auto)]

mod arrivals;
mod conveying;
mod departures;
mod ending;
mod mover;
mod node;
mod run;
mod sending;
mod sends;
mod stacking;
mod taking;
mod turn;
mod via;

pub use node::Node;
pub use sends::Sends;
pub use turn::Turn;
pub use via::Via;
