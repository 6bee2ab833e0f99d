//! Grids of ranks, the links between them, and the way of an entry from hop to hop.
//!
//! A grid arranges the ranks in one to three dimensions. An entry from rank `s` to rank `d` takes
//! one hop for each dimension, and each hop sets one coordinate from that of `s` to that of `d`. So
//! each rank has links to few others only, and what it sends to many destinations shares their
//! buffers.
//!
//! | Call | Answer |
//! |---|---|
//! | `Grid::new` | the grid of these dimensions, or why there is none |
//! | `ranks`, `hops`, `links` | how many ranks, hops and links it has |
//! | `coord`, `place` | a rank's coordinate; the place of an entry after some hops |
//! | `link`, `ends` | the number of a link; the hop and the two ranks of a number |
//! | `tag_first`, `tag_next` | the tag of an entry on its first and on its next link |
//! | `pair_of` | the sender and the destination of an entry, by its tag and link |
//! | `tags_law` | nothing: it tells that a pair's tag is fair and names the pair on each link of its route |
//! | `by_hops!` | a function compiled for each number of hops, called for one of them |
//! | `Routes` | what one rank looks up for each entry: its neighbours, first steps, next steps, senders |
//!
//! The definitions, in the order in which to read them: `Grid` (ranks and coordinates), `Link` and
//! `Ends` (links and their numbers), `Neighbour`, `Pair` (the way from one rank to another), `Tag`,
//! `Routes`, `Refusal`. `GridNumbers` is a grid as the code keeps it.
#![tactic(auto)]

mod by_hops;
mod grid;
mod law;
mod link;
mod routes;
mod tag;

pub use by_hops::MOST_HOPS;
pub use grid::{Grid, GridError};
pub use law::tags_law;
pub use routes::{Neighbour, Onward, Routes};
