//! The transports of a run.

/// How items travel.
#[derive(Clone, Copy, PartialEq, Eq, Debug)]
pub enum Via {
    /// By conveyors, over routes of as many hops as the grid has numbers.
    Convey,
    /// By exstacks, in collective rounds over one hop.
    Exstack,
}
