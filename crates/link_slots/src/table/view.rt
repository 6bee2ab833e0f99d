//! What a seat at the bank's table knows, for proofs alone.
use std::marker::Model;

/// Contracts see its lists. No value of it is made.
pub struct Knows {
    never: u8,
}

impl Model for Knows {
    ghost use Rattle.item_buffer.specs.Contents.{Contents};
    ghost use Rattle.link_slots.specs.Shape.{Shape, no_shape};
    ghost use Rattle.link_slots.specs.View.{View, spent};

    ghost Value = { View Shape Contents };

    ghost view = { λ _. spent no_shape };
}
