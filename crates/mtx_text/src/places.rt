//! Which places of a matrix are taken, while its entries are read.
ghost use Rattle.std.specs.Prelude.{◌≡◌, ◌<◌, ◌∷◌, [], true, List, OnOk};
ghost use Rattle.bale_items.specs.declared.triple.Triple.{Triple};
ghost use Rattle.mtx_text.specs.Grammar.{has_place, stands_for};
ghost use Rattle.mtx_text.specs.Sparse.{IsInside};
ghost use Rattle.mtx_text.specs.code.Places.{Tracks, narrow, key_of, AddsTo};

use crate::banner::Symmetry;
use crate::cell::mirror;
use bale_items::Triple;
use std::alloc::{AllocError, Global};
use std::collections::BTreeSet;

/// A place as one number.
fn key(i: u32, j: u32) -> u64
    ensures { result ≡ key_of i j }
{
    i as u64 * 65_536 + j as u64
}

/// Whether an entry is at the place of `t`.
#[tactic(auto, using(crate::proofs::Keys::place_key))]
pub(crate) fn is_taken(seen: &BTreeSet<u64>, t: Triple) -> bool
    requires { t.j < 65_536 }
    ensures { (done : List Triple) → Tracks seen.now done → narrow done ≡ true → result ≡ has_place t.i t.j done }
{
    seen.contains(&key(t.i, t.j))
}

/// Adds one entry.
pub(crate) fn add_one(
    entries: &mut Vec<Triple>,
    seen: &mut BTreeSet<u64>,
    t: Triple,
) -> Result<(), AllocError>
    requires { t.j < 65_536 }
    ensures { OnOk result (AddsTo (t ∷ []) entries.old.items entries.new.items seen.old seen.new) }
{
    entries.push(t)?;
    seen.insert(key(t.i, t.j))?;
    Ok(())
}

/// Adds what an entry line stands for.
pub(crate) fn add(
    entries: &mut Vec<Triple>,
    seen: &mut BTreeSet<u64>,
    symmetry: Symmetry,
    t: Triple,
) -> Result<(), AllocError>
    requires { IsInside 65_536 65_536 t }
    ensures { OnOk result (AddsTo (stands_for symmetry t) entries.old.items entries.new.items seen.old seen.new) }
{
    add_one(entries, seen, t)?;
    match mirror(symmetry, t) {
        None => Ok(()),
        Some(other) => add_one(entries, seen, other),
    }
}
