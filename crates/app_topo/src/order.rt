//! The order of a matrix's rows and columns.

ghost use Rattle.std.specs.Prelude.{◌≡◌, length, slice_get};

use std::marker::Model;

/// Rows and columns in an order in which a matrix is upper triangular with a full diagonal: a row
/// and a column for each position, from the first on.
#[derive(Drop)]
pub struct TopoOrder {
    places: Vec<(u32, u32)>,
}

impl Model for TopoOrder {
    ghost use Rattle.std.specs.Prelude.{ℕ, List};

    ghost Value = { List (ℕ × ℕ) };

    ghost view = { λ t. t.places.items };
}

impl TopoOrder {
    /// The order of these rows and columns.
    pub fn of_places(places: Vec<(u32, u32)>) -> TopoOrder
        ensures { result ≡ places.items }
    {
        TopoOrder { places }
    }

    /// How many positions there are.
    pub fn len(&self) -> usize
        ensures { result ≡ length self.now }
    {
        self.places.len()
    }

    /// The row and the column at position `x`, from 0, and `None` exactly past the end.
    pub fn get(&self, x: usize) -> Option<(u32, u32)>
        ensures { result ≡ slice_get self.now x }
    {
        self.places.as_slice().get(x).copied()
    }
}
