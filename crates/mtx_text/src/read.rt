//! The matrix of the text that a source gives.
ghost use Rattle.std.specs.Prelude.{◌≡◌, ℕ, List, Some, Err, drop};
ghost use Rattle.bale_types.specs.Stream.{Blames, TakesUpTo};
ghost use Rattle.mtx_text.specs.Grammar.{matrix_of};
ghost use Rattle.mtx_text.specs.Answers.{ReadGives, OnDecided};

use crate::execution::{Execution, OneThread};
use crate::matrix::Matrix;
use crate::parse::{MOST_BYTES, parse_matrix_by};
use crate::refusal::{ParseFault, ReadFault};
use bale_types::{Source, Unread, read_text};
use std::alloc::Global;

/// The matrix of the text that a source still has to give, or its first bad line.
///
/// The source is read to its end, or until one byte past the limit was taken; then the text is
/// parsed. What the source has left follows what was read, whatever the answer.
///
/// # Errors
///
/// `Source` if a read failed, and only there, as the source's faults tell; `Bad` exactly as of
/// [`parse_matrix`]; want of memory may come at any time.
pub fn read_matrix<S: Source>(alloc: Global, source: &mut S) -> Result<Matrix, ReadFault>
    ensures gives { (text : List ℕ) → S.left source.old ≡ Some text → ReadGives result (matrix_of text) }
    ensures left { (text : List ℕ) → S.left source.old ≡ Some text
        → OnDecided result (S.left source.new ≡ Some (drop 16_777_217 text)) }
    ensures takes { TakesUpTo 16_777_217 (S.left source.old) (S.left source.new) }
    ensures faults { Blames (result ≡ Err ReadFault.Source) (S.faults source.old) (S.faults source.new) }
{
    read_matrix_by(&OneThread, alloc, source)
}

/// The matrix of the text that a source still has to give, or its first bad line, as
/// [`read_matrix`] gives it. The text is parsed as `on` says: on the caller's thread, or on
/// several.
///
/// # Errors
///
/// As of [`read_matrix`].
pub fn read_matrix_by<X: Execution, S: Source>(
    on: &X,
    alloc: Global,
    source: &mut S,
) -> Result<Matrix, ReadFault>
    requires { X.ready }
    ensures gives { (text : List ℕ) → S.left source.old ≡ Some text → ReadGives result (matrix_of text) }
    ensures left { (text : List ℕ) → S.left source.old ≡ Some text
        → OnDecided result (S.left source.new ≡ Some (drop 16_777_217 text)) }
    ensures takes { TakesUpTo 16_777_217 (S.left source.old) (S.left source.new) }
    ensures faults { Blames (result ≡ Err ReadFault.Source) (S.faults source.old) (S.faults source.new) }
{
    let text = match read_text(alloc, source, MOST_BYTES + 1) {
        Ok(text) => text,
        Err(Unread::Source) => return Err(ReadFault::Source),
        Err(Unread::NoMemory) => return Err(ReadFault::NoMemory),
    };
    match parse_matrix_by(on, alloc, text.as_slice()) {
        Ok(m) => Ok(m),
        Err(ParseFault::Bad(b)) => Err(ReadFault::Bad(b)),
        Err(ParseFault::NoMemory) => Err(ReadFault::NoMemory),
    }
}
