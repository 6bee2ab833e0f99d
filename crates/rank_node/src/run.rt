//! How far a node's run is.
use crate::sends::Sends;
use crate::taking::Taken;

/// A program, and how far its rank is in the run.
#[derive(Drop)]
pub struct Run<Q> {
    pub(crate) prog: Box<Q>,
    /// The number of the round.
    pub(crate) round: u64,
    pub(crate) sends: Sends,
    /// How many of the items to send are pushed.
    pub(crate) next: u64,
    pub(crate) taken: Taken,
}
