//! What is sent in each round: laws about the canonical run. The calls do nothing, and tell them.
ghost use Rattle.app_histo_ig.specs.HistoTable.{HistoRounds};
ghost use Rattle.app_histo_ig.specs.IgTable.{IgRounds, IgSumsRounds};

/// histo has one round, in which each entry goes to the owner of its column.
pub fn histo_rounds()
    ensures { HistoRounds }
{}

/// ig has three rounds: each entry's value goes to the owner of its column, then its query, and the
/// owner replies with the sum.
pub fn ig_rounds()
    ensures { IgRounds }
{}

/// If ranks ask one another at once (`ig --via biconvey`), the values are sent in a round of
/// their own.
pub fn ig_sums_rounds()
    ensures { IgSumsRounds }
{}
