//! How many workers share the ranks of a run, and how many of them get a thread.

/// The number of workers that share the ranks of a run.
#[derive(Clone, Copy, PartialEq, Eq, Debug)]
pub struct Workers {
    pub number: usize,
}

/// The number of threads that a run may start, one for each of its first workers.
#[derive(Clone, Copy, PartialEq, Eq, Debug)]
pub struct ThreadLimit {
    pub number: usize,
}
