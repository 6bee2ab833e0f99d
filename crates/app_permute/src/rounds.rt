//! What is sent in each round: laws about the canonical run. The calls do nothing, and tell them.
ghost use Rattle.app_permute.specs.PermuteTable.{PermuteRounds};
ghost use Rattle.app_permute.specs.TransposeTable.{TransposeRounds};

/// permute has three rounds: each entry goes to the owner of its row, of its column, and of its new
/// row, and gets its new row and its new column on the way.
pub fn permute_rounds()
    ensures { PermuteRounds }
{}

/// transpose has one round, in which each entry goes, turned, to the owner of its column.
pub fn transpose_rounds()
    ensures { TransposeRounds }
{}
