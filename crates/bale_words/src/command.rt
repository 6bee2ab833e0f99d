//! What a command line asks for.

use crate::numbers::Numbers;
use crate::task::Task;
use crate::travel::Travel;
use route_tensor::Grid;

/// How items travel.
#[derive(Clone, Copy, PartialEq, Eq, Debug)]
pub enum Transport {
    /// By conveyors, over as many hops as the grid has numbers.
    Convey,
    /// In collective rounds.
    Exstack,
    /// As queries and replies, for ig.
    Biconvey,
}

/// Who turns the ranks.
#[derive(Clone, Copy, PartialEq, Eq, Debug)]
pub enum Driving {
    /// The ranks on threads.
    Threads,
    /// One thread, one rank after the other.
    Serial,
}

/// A matrix to be generated, in place of a text.
#[derive(Clone, Copy, PartialEq, Eq, Debug)]
pub struct Generated {
    /// the number of rows and of columns, from 1 to 16,384
    pub rows: u32,
    /// the number of entries, from `rows` to the least of 262,144 and `rows * (rows + 1) / 2`
    pub entries: u32,
    /// what the generator begins with
    pub seed: u64,
}

/// New numbers for rows and columns.
#[derive(Drop)]
pub enum Permutations {
    /// Lists for the rows and for the columns, counted from 1; one that isn't given changes
    /// nothing.
    Lists(Option<Numbers>, Option<Numbers>),
    /// Both drawn from a seed.
    Seed(u64),
}

/// What a command line asks for.
#[derive(Drop)]
pub struct Command {
    pub task: Task,
    /// the ranks
    pub grid: Grid,
    pub travel: Travel,
}
