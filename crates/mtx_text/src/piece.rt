//! Plain entry lines read in pieces, side by side.
//!
//! A text is cut behind an LF, and the lines of each piece are read into a part of one list. How
//! many lines are before the cut is counted first, so that the parts adjoin if every line of the
//! first piece is plain. If one is not, what was read of the second piece is dropped, and the
//! caller reads on from that line.
ghost use Rattle.std.specs.Prelude.{◌≤◌, length};
ghost use Rattle.std.specs.Thread.{IsSync};
ghost use Rattle.mtx_text.specs.Sparse.{AreSides};
ghost use Rattle.mtx_text.specs.code.Pieces.{ReadsPiece};

use crate::banner::{Form, Symmetry};
use crate::cell::plain_cell;
use crate::kind::Kind;
use crate::lines::rest_after;
use crate::sizes::Sizes;
use bale_items::Triple;
use std::thread::{Threads, join_mut};

/// How many lines were read, and how many bytes they have.
#[derive(Clone, Copy)]
pub(crate) struct Piece {
    pub(crate) lines: usize,
    pub(crate) bytes: usize,
}

/// Reads the plain lines that a text begins with, as many as `out` has room for. The first `bytes`
/// bytes of the text are shared among two threads to the power `halvings`, if they can be started.
#[cycle(pieces)]
pub(crate) fn read_pieces<R: Threads + Sync>(
    rt: &R,
    halvings: u32,
    kind: Kind,
    sizes: Sizes,
    bytes: usize,
    text: &[u8],
    out: &mut [Triple],
) -> Piece
    requires sides { AreSides sizes.rows sizes.cols }
    requires within { bytes ≤ length text.now }
    ensures { ReadsPiece kind sizes text.now out.old out.new result }
{
    if halvings == 0 {
        return read_piece(kind, sizes, text, out);
    }
    let cut = cut_after(bytes / 2, bytes, text);
    let lines = count_lines(&text[..cut]).min(out.len());
    let rest = rest_after(cut, text);
    let (front, back) = out.split_at_mut(lines);
    let less = halvings - 1;
    let (first, second) = read_two(
        rt,
        less,
        kind,
        sizes,
        cut,
        text,
        front,
        bytes - cut,
        rest,
        back,
    );
    if first.lines < lines || first.bytes != cut {
        return first;
    }
    Piece {
        lines: lines + second.lines,
        bytes: cut + second.bytes,
    }
}

/// Reads the plain lines of two texts, one on a thread of its own.
#[cycle(pieces)]
fn read_two<R: Threads + Sync>(
    rt: &R,
    halvings: u32,
    kind: Kind,
    sizes: Sizes,
    bytes: usize,
    text: &[u8],
    front: &mut [Triple],
    after: usize,
    rest: &[u8],
    back: &mut [Triple],
) -> (Piece, Piece)
    requires sides { AreSides sizes.rows sizes.cols }
    requires within { bytes ≤ length text.now }
    requires after { after ≤ length rest.now }
    ensures front { ReadsPiece kind sizes text.now front.old front.new result.0 }
    ensures back { ReadsPiece kind sizes rest.now back.old back.new result.1 }
{
    let mut first = || -> Piece
        requires { IsSync R.row × AreSides sizes.rows sizes.cols × (bytes ≤ length text.now) }
        ensures { ReadsPiece kind sizes text.entry.now front.entry.now front.exit.now result }
    { read_pieces(rt, halvings, kind, sizes, bytes, text, front) };
    let mut second = || -> Piece
        requires { IsSync R.row × AreSides sizes.rows sizes.cols × (after ≤ length rest.now) }
        ensures { ReadsPiece kind sizes rest.entry.now back.entry.now back.exit.now result }
    { read_pieces(rt, halvings, kind, sizes, after, rest, back) };
    join_mut(rt, &mut first, &mut second)
}

/// Reads lines one by one, until one is not plain or names no entry, or `out` is full.
#[inline(never)]
fn read_piece(kind: Kind, sizes: Sizes, text: &[u8], out: &mut [Triple]) -> Piece
    requires { AreSides sizes.rows sizes.cols }
    ensures { ReadsPiece kind sizes text.now out.old out.new result }
{
    let symmetry = Symmetry::General;
    let form = Form { kind, symmetry };
    let mut lines = 0;
    let mut bytes = 0;
    while lines < out.len() {
        let Some(plain) = plain_cell(form, sizes, rest_after(bytes, text)) else {
            break;
        };
        let Ok(t) = plain.cell else {
            break;
        };
        out[lines] = t;
        lines += 1;
        bytes += plain.next;
    }
    Piece { lines, bytes }
}

/// The end of the line that has the byte at `from`, within a text's first `bytes` bytes.
fn cut_after(from: usize, bytes: usize, text: &[u8]) -> usize
    requires { bytes ≤ length text.now }
    ensures { result ≤ bytes }
{
    let mut at = from.min(bytes);
    while at < bytes {
        at += 1;
        if text[at - 1] == b'\n' {
            return at;
        }
    }
    at
}

/// Bytes of a block, whose LFs are counted in a `u8`.
const BLOCK: usize = 255;

/// How many LFs a text has.
fn count_lines(text: &[u8]) -> usize {
    let mut lines: usize = 0;
    let mut at = 0;
    while at < text.len() {
        let end = text.len().min(at + BLOCK);
        lines = lines.wrapping_add(count_few(&text[at..end]) as usize);
        at = end;
    }
    lines
}

/// How many LFs a block has.
#[inline(always)]
fn count_few(block: &[u8]) -> u8 {
    let mut few: u8 = 0;
    for b in block {
        few = few.wrapping_add((*b == b'\n') as u8);
    }
    few
}
