//! The laws of sssp, by rounds and by buckets.
ghost use Rattle.round_tables.specs.Delta.{DeltaRounds};
ghost use Rattle.round_tables.specs.Laws.{TableLaws};
ghost use Rattle.round_tables.specs.Sssp.{SsspRounds};

/// sssp tells each edge to the owner of its beginning; then, with one edge more in each round, the
/// vertices that have lighter walks than before offer their weights along their edges.
pub fn sssp_rounds()
    ensures { SsspRounds }
{}

/// sssp by buckets is delta-stepping over the whole graph, and each rank sends in each round its
/// own vertices' part of it.
pub fn delta_rounds()
    ensures { DeltaRounds }
{}

/// The canonical run of each application goes by its table: how many rounds there are, what each
/// rank sends in each, and how it votes.
pub fn table_laws()
    ensures { TableLaws }
{}
