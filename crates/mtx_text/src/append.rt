//! Triples put behind a list that mostly has room for them.
ghost use Rattle.std.specs.Prelude.{◌++◌, ◌∷◌, []};
ghost use Rattle.bale_items.specs.Changes.{AllOrNothing};

use bale_items::Triple;
use std::alloc::AllocError;

/// Appends one triple.
#[inline(always)]
pub(crate) fn append(triples: &mut Vec<Triple>, t: Triple) -> Result<(), AllocError>
    ensures { AllOrNothing (triples.old.items ++ t ∷ []) triples.old.items triples.new.items result }
{
    if triples.len() < triples.capacity() {
        triples.push_reserved(t);
        return Ok(());
    }
    append_full(triples, t)
}

/// Appends one triple if the list has to grow: kept apart, so that `append` is few steps.
#[inline(never)]
fn append_full(triples: &mut Vec<Triple>, t: Triple) -> Result<(), AllocError>
    ensures { AllOrNothing (triples.old.items ++ t ∷ []) triples.old.items triples.new.items result }
{
    triples.push(t)?;
    Ok(())
}
