//! A text cut into lines, one line at a time and without a copy.
ghost use Rattle.std.specs.Prelude.{◌≡◌, not, false, ◌+◌, ◌<◌, ◌≤◌, ◌^◌, length, take, drop, slice_index, [], IfOk, IfErr};
ghost use Rattle.mtx_text.specs.Lines.{words_of, without_cr, is_blank, is_skipped};
ghost use Rattle.mtx_text.specs.code.Cuts.{CutsAt, CutsLine};
ghost use Rattle.mtx_text.specs.code.PlainLines.{CountsAt, IsFirstKept, NoneCounts};

use crate::words::trimmed;

/// A line that counts, and what follows it.
#[derive(Clone, Copy)]
pub(crate) struct Kept<'a> {
    /// Its number in the text, from 1.
    pub(crate) number: u64,
    /// The line from its first word on.
    pub(crate) line: &'a [u8],
    /// The text behind the line.
    pub(crate) rest: &'a [u8],
}

/// The next line that counts, if the text begins with line `number`; else the number of the end
/// line.
pub(crate) fn next_kept(text: &[u8], number: u64) -> Result<Kept<'_>, u64>
    requires { number + length text.now < 2 ^ 63 }
    ensures kept { IfOk result (IsFirstKept text.now number) }
    ensures none { IfErr result (NoneCounts text.now number) }
{
    let mut rest = text;
    let mut number = number;
    while !rest.is_empty() {
        let (line, behind) = cut_line(rest);
        let line = trimmed(line);
        if counts(line) {
            return Ok(Kept {
                number,
                line,
                rest: behind,
            });
        }
        rest = behind;
        number += 1;
    }
    Err(number)
}

/// The line of `len` bytes that a text begins with, if it counts; the next line begins at the
/// byte `next`.
#[inline(always)]
#[tactic(auto, using(crate::proofs::PlainLines::kept_at, crate::proofs::PlainLines::left_at))]
pub(crate) fn first_kept(text: &[u8], number: u64, len: usize, next: usize) -> Kept<'_>
    requires { CountsAt text.now len next }
    ensures line { result.line.now ≡ take len text.now }
    ensures kept { IsFirstKept text.now number result }
{
    Kept {
        number,
        line: &text[..len],
        rest: &text[next..],
    }
}

/// What follows the byte at an index.
#[inline(always)]
pub(crate) fn behind(at: usize, text: &[u8]) -> &[u8]
    requires { at < length text.now }
    ensures { result.now ≡ drop (at + 1) text.now }
{
    &text[at + 1..]
}

/// What follows a text's first `len` bytes.
#[inline(always)]
pub(crate) fn rest_after(len: usize, text: &[u8]) -> &[u8]
    requires { len ≤ length text.now }
    ensures { result.now ≡ drop len text.now }
{
    &text[len..]
}

/// Whether a line that begins with no blank has words and is no comment.
fn counts(line: &[u8]) -> bool
    requires { 0 < length line.now → is_blank (slice_index line.now 0) ≡ false }
    ensures { result ≡ not (is_skipped (words_of line.now)) }
{
    match line {
        [] => false,
        [first, ..] => *first != b'%',
    }
}

/// The first line of a text that isn't empty, without its line end, and the text behind it.
#[tactic(auto, using(crate::proofs::Cuts::lines_cut))]
pub(crate) fn cut_line(text: &[u8]) -> (&[u8], &[u8])
    requires { 0 < length text.now }
    ensures { CutsLine text.now result.0.now result.1.now }
{
    let end = piece_len(text);
    let (piece, rest) = text.split_at(end);
    (uncarried(piece), behind_first(rest))
}

/// What follows the first byte, and nothing if there is none.
fn behind_first(text: &[u8]) -> &[u8]
    ensures { result.now ≡ drop 1 text.now }
{
    match text {
        [] => text,
        [_, rest @ ..] => rest,
    }
}

/// How many bytes come before the first LF.
fn piece_len(text: &[u8]) -> usize
    ensures { CutsAt text.now result }
{
    for (i, b) in text.iter().enumerate() {
        if *b == b'\n' {
            return i;
        }
    }
    text.len()
}

/// A piece without the one CR that may end it.
#[tactic(auto, using(crate::proofs::Cuts::ends_in_cr, crate::proofs::Cuts::ends_otherwise))]
fn uncarried(piece: &[u8]) -> &[u8]
    ensures { result.now ≡ without_cr piece.now }
{
    if piece.is_empty() {
        return piece;
    }
    let last = piece.len() - 1;
    if piece[last] == b'\r' {
        &piece[..last]
    } else {
        piece
    }
}
