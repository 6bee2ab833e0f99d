//! What both transports tell of the epochs of all ranks.
ghost use Rattle.rank_group.specs.Closes.{ClosesLaws};

/// Does nothing, and states the closes laws of conveyors and of exstacks, and how exstacks keep
/// step.
pub(crate) fn closes_laws()
    ensures { ClosesLaws }
{
    convey::closes_law();
    exstack::closes_law();
    exstack::lockstep_law();
    exstack::cycles_law();
}
