//! What is sent in each round: laws about the canonical run. The calls do nothing, and tell them.
ghost use Rattle.app_tally.specs.TallyTable.{TallyRounds};

/// tally has one round, in which each line goes as one letter to the rank that its bytes tell.
pub fn tally_rounds()
    ensures { TallyRounds }
{}
