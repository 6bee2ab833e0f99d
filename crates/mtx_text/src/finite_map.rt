//! Matrices as finite maps.
ghost use Rattle.mtx_text.specs.Maps.{Agree};

use crate::matrix::Matrix;

/// Law: a matrix's list of entries and its finite map from places to values say the same.
pub fn entries_are_a_map(m: &Matrix)
    ensures { Agree m.now }
{
    m.known();
}
