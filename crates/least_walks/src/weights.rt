//! Whether the entries of a matrix can be the edges of a graph.

ghost use Rattle.std.specs.Prelude.{◌≡◌};
ghost use Rattle.least_walks.specs.Walks.{no_negative};

use bale_items::Triple;

/// Whether no value is negative.
pub fn no_negative(entries: &[Triple]) -> bool
    ensures { result ≡ no_negative entries.now }
{
    for t in entries {
        if t.v < 0 {
            return false;
        }
    }
    true
}
