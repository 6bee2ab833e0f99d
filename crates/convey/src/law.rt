//! The laws that tie the conveyors of all ranks together.
ghost use Rattle.convey.specs.Law.{StaysTogether, ExchangeLaw, ClosesLaw};
ghost use Rattle.convey.specs.Rest.{RestLaw};

/// If the conveyors of all ranks agree with the ports of one bank, every call on any of them, in
/// any order, is a step of the exchange machine, after which they agree again.
pub fn exchange_law()
    ensures together { StaysTogether }
    ensures step { ExchangeLaw }
{}

/// If they agree so, what a rank pulled is a prefix of what its sender pushed; and in each
/// epoch that some rank has completed every rank was done, and what was pulled is what was pushed.
pub fn closes_law()
    ensures { ClosesLaw }
{}

/// If a sweep over the conveyors of all ranks moved no parcel and shrank no inbox of a hop below
/// the last, the least epoch is over for every rank that is in it. The ranks may be in different
/// epochs.
pub fn rest_law()
    ensures { RestLaw }
{}
