//! Ranks and groups of any capacity and any number of hops, and the handles that C has of them.
//!
//! One set of calls for the 33 cases of eleven capacities and one to three hops, over `convey` and
//! `link_slots`. A group makes the ranks that share its slot bank, and each rank is a conveyor at
//! its seat there. Each `requires` of the layers below is tested here: misuse has an `Answer` of
//! its own, and changes nothing. `bale_c` is these calls as C has them.
//!
//! | | |
//! |---|---|
//! | `BaleGroup`, `BaleRank`, `BaleElastic` | the handles: nothing, or a `Part`, which `take` takes out and `put` puts in; `get_mut` lends a rank if it stands |
//! | `make_group`, `make_rank`, `make_elastic` | a group of these numbers; a rank of a group, for items or for strings |
//! | `Exchange` | the conveyor's own calls, each a step of the exchange machine, one or many at a time |
//! | `ElasticRank` | strings of up to 65,535 bytes over such an exchange: `push` and `pull` of whole strings |
//! | `BaleStatistics` | what a rank sent and received so far |
//! | `push_number`, `pull_number` | calls of many items, as the number that C is told |
//!
//! From the bottom up: a `Rank` of one case and a `Group` of one capacity, with every call tested;
//! `AnyRank` and `AnyGroup`, whatever their case, by the trait `Exchange`; a `Part`, what a handle
//! may have; `Held`, which owns a part behind a pointer that C may keep (`Loose` is the box on its
//! way there and back); and the handles.
//!
//! The definitions, in the order in which to read them: `Codes` (the numbers that C knows),
//! `Seated` (a rank, and a call that makes a step), `Answers` (when each answer comes), `Calls`
//! (what a call leaves), `Grouped` (a group, and a rank that was just made), `Handles` and
//! `HandleView` (what a handle has), `Many` (calls of many items), `Statistics`, `Items`, `Strings`
//! and `StringCalls` (ranks for strings). `RankAtBank`, `ElasticKept`, `Cases`, `Ownership`,
//! `Lends`, `LendsRank` and `LendsElastic` are the code's own.
#![tactic(auto)]

mod answer;
mod cases;
mod elastic_handle;
mod elastic_rank;
mod exchange;
mod group;
mod handle;
mod held;
mod item;
mod loose;
mod making;
mod many;
mod numbers;
mod part;
mod rank;
mod statistics;
mod strings;
mod view;

pub use answer::Answer;
pub use cases::{AnyGroup, AnyRank};
pub use elastic_handle::BaleElastic;
pub use elastic_rank::ElasticRank;
pub use exchange::Exchange;
pub use handle::{BaleGroup, BaleRank};
pub use held::Held;
pub use item::{BaleItem, bale_item_from, item_from};
pub use making::{make_elastic, make_group, make_rank};
pub use numbers::{pull_number, push_number};
pub use part::Part;
pub use statistics::BaleStatistics;
pub use strings::BaleString;
pub use view::BaleView;
