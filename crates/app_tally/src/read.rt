//! The lines of the text that a source gives.

ghost use Rattle.std.specs.Prelude.{◌≡◌, ℕ, List, Some, Err, drop};
ghost use Rattle.bale_types.specs.Stream.{Blames, TakesUpTo};
ghost use Rattle.app_tally.specs.declared.lines.LinesFault.TheVariants as LinesFault;
ghost use Rattle.app_tally.specs.Texts.{lines_of_text, LinesGive, OnRead};

use crate::lines::{Lines, LinesFault, MOST_BYTES, lines_of};
use bale_types::{Source, Unread, read_text};
use std::alloc::Global;

/// The lines of the text that a source still has to give.
///
/// The source is read to its end, or until one byte past the limit was taken; then the text is cut.
/// What the source has left follows what was read, whatever the answer.
///
/// # Errors
///
/// `Source` if a read failed, and only there, as the source's faults tell; `TooLong` if
/// and only if the text has more than 16,777,216 bytes, and else `LineTooLong` if and only if a
/// line has more than 65,535; want of memory may come at any time.
pub fn read_lines<S: Source>(alloc: Global, source: &mut S) -> Result<Lines, LinesFault>
    ensures gives { (text : List ℕ) → S.left source.old ≡ Some text → LinesGive result (lines_of_text text) }
    ensures left { (text : List ℕ) → S.left source.old ≡ Some text
        → OnRead result (S.left source.new ≡ Some (drop 16_777_217 text)) }
    ensures takes { TakesUpTo 16_777_217 (S.left source.old) (S.left source.new) }
    ensures faults { Blames (result ≡ Err LinesFault.Source) (S.faults source.old) (S.faults source.new) }
{
    match read_text(alloc, source, MOST_BYTES + 1) {
        Ok(text) => lines_of(alloc, text),
        Err(Unread::Source) => Err(LinesFault::Source),
        Err(Unread::NoMemory) => Err(LinesFault::NoMemory),
    }
}
