//! How many parcels so many entries travel in.
ghost use Rattle.std.specs.Prelude.{◌<◌, List, false};
ghost use Rattle.item_buffer.specs.Contents.{Shipped};
ghost use Rattle.port_bank.specs.Shapes.{IsConveyorShape, TravelInFew};

/// Conveyors that aren't steady send full parcels, but for the last of each epoch: so the entries
/// of an epoch travel in few parcels. This call tells it of every log, and does nothing else.
pub fn few_parcels_law<const CAP: usize>()
    requires some { 0 < CAP }
    ensures { (log : List Shipped) → IsConveyorShape false CAP log → TravelInFew CAP log }
{}
