//! What a bank is given once, when it is made.
ghost use Rattle.link_slots.specs.Shape.{Shape};

use route_tensor::Grid;
use std::marker::Model;

/// The grid, and the number of slots of each link.
#[derive(Drop)]
pub struct Plan {
    pub(crate) grid: Grid,
    pub(crate) slots: u32,
}

impl Model for Plan {
    ghost use Rattle.link_slots.specs.Shape.{Shape};

    ghost Value = { Shape };

    ghost view = { λ p. record { dims = p.grid; slots = p.slots } };
}
