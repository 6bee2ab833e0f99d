//! The matrix of a text in memory.
ghost use Rattle.std.specs.Prelude.{◌≡◌, ◌+◌, ◌<◌, ◌≤◌, length, Ok};
ghost use Rattle.mtx_text.specs.declared.parse.Parts.{Parts};
ghost use Rattle.mtx_text.specs.Lines.{lines_of, lines_from};
ghost use Rattle.mtx_text.specs.Grammar.{matrix_of, lines_read, body_of, line_after};
ghost use Rattle.mtx_text.specs.Answers.{Gives};

use crate::banner::{Form, read_form};
use crate::careful::bad;
use crate::entries::read_entries;
use crate::execution::{Execution, OneThread};
use crate::kind::Kind;
use crate::lines::{cut_line, next_kept};
use crate::matrix::Matrix;
use crate::refusal::{ParseFault, Reason};
use crate::sizes::read_sizes;
use bale_items::Triple;
use std::alloc::Global;

/// Bytes of a text at most.
pub(crate) const MOST_BYTES: usize = 16_777_216;

/// The parts of a matrix.
#[derive(Drop)]
struct Parts {
    rows: u32,
    cols: u32,
    kind: Kind,
    entries: Vec<Triple>,
}

/// The matrix of a text, or its first bad line: exactly as the definition *the matrix of a text*
/// says.
/// Want of memory may come at any time.
pub fn parse_matrix(alloc: Global, text: &[u8]) -> Result<Matrix, ParseFault>
    ensures { Gives (λ m. m) result (matrix_of text.now) }
{
    parse_matrix_by(&OneThread, alloc, text)
}

/// The matrix of a text, or its first bad line, as [`parse_matrix`] gives it. The text is parsed as
/// `on` says: on the caller's thread, or on several.
pub fn parse_matrix_by<X: Execution>(
    on: &X,
    alloc: Global,
    text: &[u8],
) -> Result<Matrix, ParseFault>
    requires { X.ready }
    ensures { Gives (λ m. m) result (matrix_of text.now) }
{
    let parts = read_parts(on, alloc, text)?;
    Ok(Matrix::of_parts(parts.rows, parts.cols, parts.kind, parts.entries))
}

/// The parts of a text's matrix.
#[tactic(auto, unfolding(crate::specs::Grammar::matrix_of))]
fn read_parts<X: Execution>(on: &X, alloc: Global, text: &[u8]) -> Result<Parts, ParseFault>
    requires { X.ready }
    ensures { Gives (λ p. record { rows = p.rows; cols = p.cols; kind = p.kind; entries = p.entries.items }) result
        (matrix_of text.now) }
{
    if text.len() > MOST_BYTES {
        return Err(bad(line_after(MOST_BYTES, text), Reason::TooLong));
    }
    read_lines(on, alloc, text)
}

/// The line of byte number `n + 1`.
fn line_after(n: usize, text: &[u8]) -> u64
    requires { n < length text.now }
    ensures { result ≡ line_after n text.now }
{
    let front = &text[..n];
    let mut line: u64 = 1;
    for b in front {
        if *b == b'\n' {
            line += 1;
        }
    }
    line
}

/// The parts of a text that is not too long.
#[tactic(auto, unfolding(crate::specs::Grammar::lines_read))]
fn read_lines<X: Execution>(on: &X, alloc: Global, text: &[u8]) -> Result<Parts, ParseFault>
    requires ready { X.ready }
    requires short { length text.now ≤ 16_777_216 }
    ensures { Gives (λ p. record { rows = p.rows; cols = p.cols; kind = p.kind; entries = p.entries.items }) result
        (lines_read (lines_of text.now)) }
{
    if text.is_empty() {
        return Err(bad(1, Reason::Banner));
    }
    let (line, rest) = cut_line(text);
    match read_form(line) {
        Ok(form) => read_body(on, alloc, form, rest),
        Err(reason) => Err(bad(1, reason)),
    }
}

/// What follows line 1.
#[tactic(auto, unfolding(crate::specs::Grammar::body_of))]
fn read_body<X: Execution>(
    on: &X,
    alloc: Global,
    form: Form,
    text: &[u8],
) -> Result<Parts, ParseFault>
    requires ready { X.ready }
    requires short { length text.now ≤ 16_777_216 }
    ensures { Gives (λ p. record { rows = p.rows; cols = p.cols; kind = p.kind; entries = p.entries.items }) result
        (body_of form (2 + length (lines_of text.now)) (lines_from 2 (lines_of text.now))) }
{
    let kept = match next_kept(text, 2) {
        Ok(kept) => kept,
        Err(end) => return Err(bad(end, Reason::SizeLine)),
    };
    let sizes = match read_sizes(form, kept.line) {
        Ok(sizes) => sizes,
        Err(reason) => return Err(bad(kept.number, reason)),
    };
    let entries = read_entries(on, alloc, form, sizes, kept.rest, kept.number + 1)?;
    Ok(Parts {
        rows: sizes.rows,
        cols: sizes.cols,
        kind: form.kind,
        entries,
    })
}
