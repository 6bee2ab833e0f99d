//! The size line.
ghost use Rattle.std.specs.Prelude.{◌≡◌, IfOk};
ghost use Rattle.std.specs.Option.{option_map};
ghost use Rattle.mtx_text.specs.Lines.{words_of};
ghost use Rattle.mtx_text.specs.Integers.{integer_of};
ghost use Rattle.mtx_text.specs.code.Capped.{capped};
ghost use Rattle.mtx_text.specs.Grammar.{sizes_by, natural_of, within_limits, is_general, AreLimited};

use crate::banner::{Form, Symmetry};
use crate::integer::{Integer, read_integer};
use crate::refusal::Reason;
use crate::words::three_words;

/// Rows and columns at most.
const MOST_ROWS: u64 = 16_384;
/// Entry lines at most.
const MOST_LINES: u64 = 262_144;

/// What a size line says.
#[derive(Clone, Copy)]
pub struct Sizes {
    pub(crate) rows: u32,
    pub(crate) cols: u32,
    /// How many entry lines follow.
    pub(crate) entries: u32,
}

/// The sizes that a line names.
#[tactic(auto, using(crate::proofs::Caps::sizes_capped))]
pub(crate) fn read_sizes(form: Form, line: &[u8]) -> Result<Sizes, Reason>
    ensures value { result ≡ sizes_by integer_of form (words_of line.now) }
    ensures limited { IfOk result AreLimited }
{
    sizes_cut(form, line)
}

/// The sizes that a line names, as far as integers are read: larger ones count as the greatest.
#[tactic(auto, unfolding(crate::specs::Grammar::sizes_by))]
fn sizes_cut(form: Form, line: &[u8]) -> Result<Sizes, Reason>
    ensures value { result ≡ sizes_by (λ w. option_map capped (integer_of w)) form (words_of line.now) }
    ensures limited { IfOk result AreLimited }
{
    let three = three_words(line).ok_or(Reason::SizeLine)?;
    let rows = natural(read_integer(three.first)).ok_or(Reason::SizeLine)?;
    let cols = natural(read_integer(three.second)).ok_or(Reason::SizeLine)?;
    let entries = natural(read_integer(three.third)).ok_or(Reason::SizeLine)?;
    limited(form, rows, cols, entries)
}

/// The size of an integer that isn't negative.
fn natural(z: Option<Integer>) -> Option<u64>
    ensures { result ≡ natural_of z }
{
    let z = z?;
    if !z.minus || z.size == 0 {
        Some(z.size)
    } else {
        None
    }
}

/// The sizes, if they are within the limits.
fn limited(form: Form, rows: u64, cols: u64, entries: u64) -> Result<Sizes, Reason>
    ensures value { result ≡ within_limits form (record { rows = rows; cols = cols; entries = entries }) }
    ensures limited { IfOk result AreLimited }
{
    if rows > MOST_ROWS || cols > MOST_ROWS || entries > MOST_LINES {
        return Err(Reason::TooLarge);
    }
    if !is_general(form.symmetry) && rows != cols {
        return Err(Reason::NotSquare);
    }
    Ok(Sizes {
        rows: rows as u32,
        cols: cols as u32,
        entries: entries as u32,
    })
}

fn is_general(symmetry: Symmetry) -> bool
    ensures { result ≡ is_general symmetry }
{
    matches!(symmetry, Symmetry::General)
}
