//! The rest law of nodes.
ghost use Rattle.rank_group.specs.Rest.{NodesRestLaw};

use round_program::Program;

/// If a sweep of turns over the conveyors of all ranks moved nothing, neither a parcel nor an
/// item out of an inbox, each rank of the least epoch has completed it. The ranks may be in
/// different epochs.
pub fn rest_law<Q: Program>()
    ensures { NodesRestLaw Q.rules }
{
    convey::rest_law();
}
