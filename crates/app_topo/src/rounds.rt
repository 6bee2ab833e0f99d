//! What is sent in each round: laws about the canonical run. The calls do nothing, and tell them.
ghost use Rattle.app_topo.specs.TopoTable.{TopoRounds};

/// topo tells each entry to the owners of its row and of its column; then, level by level, the rows
/// of the level claim their columns, and the columns that were claimed tell all their rows.
pub fn topo_rounds()
    ensures { TopoRounds }
{}
