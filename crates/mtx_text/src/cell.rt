//! An entry line by itself.
ghost use Rattle.std.specs.Prelude.{◌≡◌, ◌≤◌, ◌∷◌, nat_abs, Some, IfSome};
ghost use Rattle.std.specs.Option.{option_map, option_to_list};
ghost use Rattle.mtx_text.specs.Sparse.{AreSides};
ghost use Rattle.mtx_text.specs.Lines.{words_of};
ghost use Rattle.mtx_text.specs.Integers.{integer_of};
ghost use Rattle.mtx_text.specs.code.Capped.{cell_from};
ghost use Rattle.mtx_text.specs.code.Drafts.{IsCellAt};
ghost use Rattle.mtx_text.specs.Grammar.{cell_by, place_of, value_within, is_index, is_skew, stands_for};

use crate::banner::{Form, Symmetry};
use crate::integer::Integer;
use crate::kind::Kind;
use crate::numbers::{Fields, read_fields};
use crate::plain::{Plain, front_of_three, last_word, plain_three, plain_two, short_value};
use crate::refusal::Reason;
use crate::sizes::Sizes;
use bale_items::Triple;

/// Absolute values at most.
const MOST_VALUE: u64 = 1_000_000_000_000;

/// What the plain line that a text begins with names, how many bytes it has, and if the next
/// line begins.
#[derive(Clone, Copy)]
pub(crate) struct PlainCell {
    pub(crate) cell: Result<Triple, Reason>,
    pub(crate) len: usize,
    pub(crate) next: usize,
}

/// The entry that a line names, counted from 0.
#[tactic(auto, using(crate::proofs::Caps::cell_capped))]
pub(crate) fn read_cell(form: Form, sizes: Sizes, line: &[u8]) -> Result<Triple, Reason>
    requires { AreSides sizes.rows sizes.cols }
    ensures { result ≡ cell_by integer_of form sizes (words_of line.now) }
{
    cell_of(form, sizes, read_fields(form.kind, line))
}

/// The entry that a plain line names.
#[inline(always)]
#[tactic(auto, using(crate::proofs::Caps::cell_capped))]
pub(crate) fn plain_cell(form: Form, sizes: Sizes, text: &[u8]) -> Option<PlainCell>
    requires { AreSides sizes.rows sizes.cols }
    ensures { IfSome result (IsCellAt form sizes text.now) }
{
    match form.kind {
        Kind::Integer => {
            let front = front_of_three(text)?;
            match short_value(front) {
                Some(last) => Some(cell_on(form, sizes, plain_three(text, front, last))),
                None => {
                    let last = last_word(front.rest)?;
                    Some(cell_on(form, sizes, plain_three(text, front, last)))
                }
            }
        }
        Kind::Pattern => Some(cell_on(form, sizes, plain_two(text)?)),
    }
}

/// What a plain line names.
#[inline(always)]
fn cell_on(form: Form, sizes: Sizes, plain: Plain) -> PlainCell
    ensures value { result.cell ≡ cell_from form sizes
        (Some (plain.fields.row, plain.fields.column, plain.fields.value)) }
    ensures line { (result.len ≡ plain.len) × (result.next ≡ plain.next) }
{
    PlainCell {
        cell: cell_of(form, sizes, Some(plain.fields)),
        len: plain.len,
        next: plain.next,
    }
}

/// The entry that the fields of a line stand for.
#[inline(always)]
#[tactic(auto, unfolding(crate::specs::code::Capped::cell_from))]
fn cell_of(form: Form, sizes: Sizes, fields: Option<Fields>) -> Result<Triple, Reason>
    ensures { result ≡ cell_from form sizes (option_map (λ f. (f.row, f.column, f.value)) fields) }
{
    let fields = fields.ok_or(Reason::EntryLine)?;
    let i = fields.row.ok_or(Reason::EntryLine)?;
    let j = fields.column.ok_or(Reason::EntryLine)?;
    let place = place(form, sizes, i, j)?;
    let v = value(fields.value)?;
    Ok(Triple {
        i: place.0,
        j: place.1,
        v,
    })
}

/// Row and column counted from 0, if they are in range and allowed.
fn place(form: Form, sizes: Sizes, i: Integer, j: Integer) -> Result<(u32, u32), Reason>
    ensures { result ≡ place_of form sizes i j }
{
    if !is_index(sizes.rows, i) {
        return Err(Reason::OutOfRange);
    }
    if !is_index(sizes.cols, j) {
        return Err(Reason::OutOfRange);
    }
    if i.size == j.size && is_skew(form.symmetry) {
        return Err(Reason::Diagonal);
    }
    Ok(((i.size - 1) as u32, (j.size - 1) as u32))
}

/// Whether an integer counts from 1 to a size.
fn is_index(size: u32, z: Integer) -> bool
    ensures { result ≡ is_index size z }
{
    !z.minus && 1 <= z.size && z.size <= size as u64
}

fn is_skew(symmetry: Symmetry) -> bool
    ensures { result ≡ is_skew symmetry }
{
    matches!(symmetry, Symmetry::SkewSymmetric)
}

/// A value within the limits.
fn value(z: Option<Integer>) -> Result<i64, Reason>
    ensures { result ≡ value_within z }
{
    match z {
        Some(z) if z.size <= MOST_VALUE => {
            let size = z.size as i64;
            Ok(if z.minus { -size } else { size })
        }
        _ => Err(Reason::Value),
    }
}

/// The mirror that an entry stands for beside itself.
pub(crate) fn mirror(symmetry: Symmetry, t: Triple) -> Option<Triple>
    requires { nat_abs t.v ≤ 1_000_000_000_000 }
    ensures { stands_for symmetry t ≡ t ∷ option_to_list result }
{
    match symmetry {
        Symmetry::General => None,
        Symmetry::Symmetric if t.i == t.j => None,
        Symmetry::Symmetric => Some(Triple {
            i: t.j,
            j: t.i,
            v: t.v,
        }),
        Symmetry::SkewSymmetric => Some(Triple {
            i: t.j,
            j: t.i,
            v: -t.v,
        }),
    }
}
