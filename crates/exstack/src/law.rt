//! The laws that tie the exstacks of all ranks together.
ghost use Rattle.exstack.specs.Law.{StacksStayTogether, StackExchangeLaw, ProceedLaw, StackClosesLaw, CyclesLaw};
ghost use Rattle.exstack.specs.Lockstep.{RoomLaw, ArrivalLaw};

/// If the exstacks of all ranks agree with the ports of one bank, every call on any of them, in
/// any order, is a step of the exchange machine, and a proceed poll one or two, after which they
/// agree again.
pub fn exchange_law()
    ensures together { StacksStayTogether }
    ensures step { StackExchangeLaw }
    ensures proceed { ProceedLaw }
{}

/// If they agree so, what a rank pulled is a prefix of what its sender pushed; and in each
/// epoch that some rank has completed every rank was done, and what was pulled is what was pushed.
pub fn closes_law()
    ensures { StackClosesLaw }
{}

/// The n-th exchange on one side meets the n-th on the other, although no rank waits.
pub fn cycles_law()
    ensures { CyclesLaw }
{}

/// Ranks that have finished as many rounds never keep each other: what a rank has to post finds
/// room, even with one slot, and once all have posted, what it has to collect is there.
pub fn lockstep_law()
    ensures room { RoomLaw }
    ensures arrival { ArrivalLaw }
{}
