//! What is left of a plain bank when its exchange is over.
ghost use Rattle.std.specs.Prelude.{◌≡◌};
ghost use Rattle.route_tensor.specs.Grid.{ranks};
ghost use Rattle.list_laws.specs.Counts.{saturated_count};
ghost use Rattle.port_bank.specs.Round.{Round, IsRound, epochs_of};
ghost use Rattle.port_bank.specs.Plain.{round_of_bank};

use crate::plain_link::PlainLink;
use route_tensor::Grid;
use std::marker::Model;

/// All parcels that were posted on a plain bank's links and collected from them, for contracts
/// alone.
/// It stores no parcel, and is made by `PlainBank::close` alone.
#[derive(Drop)]
pub struct PlainRound {
    grid: Grid,
    cap: u32,
    slots: u32,
    links: Vec<PlainLink>,
}

impl Model for PlainRound {
    ghost use Rattle.port_bank.specs.Round.{Round, IsRound};
    ghost use Rattle.port_bank.specs.Plain.{round_of_bank};

    ghost Value = { Round };

    ghost view = { λ r. round_of_bank r.cap (record { dims = r.grid; slots = r.slots; channels = r.links.items }) };

    ghost invariant = { λ r. IsRound
        (round_of_bank r.cap (record { dims = r.grid; slots = r.slots; channels = r.links.items })) };
}

impl PlainRound {
    pub(crate) fn new(grid: Grid, cap: u32, slots: u32, links: Vec<PlainLink>) -> Self
        requires { IsRound (round_of_bank cap (record { dims = grid; slots = slots; channels = links.items })) }
        ensures { result ≡ round_of_bank cap (record { dims = grid; slots = slots; channels = links.items }) }
    {
        PlainRound {
            grid,
            cap,
            slots,
            links,
        }
    }

    /// The number of ranks.
    pub fn ranks(&self) -> u32
        ensures value { result ≡ ranks self.now.dims }
        ensures round { IsRound self.now }
    {
        self.grid.ranks()
    }

    /// How many epochs every link has ended. The count saturates.
    pub fn epochs(&self) -> u64
        ensures value { result ≡ saturated_count (epochs_of self.now) }
        ensures round { IsRound self.now }
    {
        let mut least = u64::MAX;
        for link in &self.links {
            least = least.min(link.ended());
        }
        least
    }
}
