//! How a draft begins: with room for its entries, and with the plain lines that threads read.
ghost use Rattle.std.specs.Prelude.{◌≡◌, ◌≤◌, [], IfOk};
ghost use Rattle.mtx_text.specs.code.Drafts.{CanRead, ReadsOn};
ghost use Rattle.mtx_text.specs.code.Pieces.{general};

use crate::banner::Form;
use crate::draft::Run;
use crate::kind::Kind;
use crate::piece::read_pieces;
use crate::sizes::Sizes;
use bale_items::Triple;
use std::alloc::{AllocError, Global};
use std::thread::Threads;

/// The entries that were read so far, with room for more, and what is still to be read.
#[derive(Drop)]
pub struct Progress<'a> {
    pub(crate) entries: Vec<Triple>,
    pub(crate) run: Run<'a>,
}

/// Makes room for the entries of a text, and reads nothing.
pub(crate) fn begin<'a>(alloc: Global, run: Run<'a>) -> Result<Progress<'a>, AllocError>
    ensures { IfOk result (λ p. (p.entries.items ≡ []) × (p.run ≡ run.entry)) }
{
    let entries = Vec::with_capacity(alloc, room_for(run.left, run.rest.len()))?;
    Ok(Progress { entries, run })
}

/// Makes room for the entries of a text, and reads its lines on two threads to the power `halvings`
/// as long as they are plain.
pub(crate) fn read_ahead<'a, R: Threads + Sync>(
    rt: &R,
    halvings: u32,
    alloc: Global,
    kind: Kind,
    sizes: Sizes,
    run: Run<'a>,
) -> Result<Progress<'a>, AllocError>
    requires { CanRead sizes run.rest.now run.number }
    ensures { IfOk result (λ p. ReadsOn (general kind) sizes [] p.entries.items run.entry p.run) }
{
    let text = run.rest;
    let room = room_for(run.left, text.len());
    let mut entries = vec![in alloc; Triple { i: 0, j: 0, v: 0 }; room]?;
    let out = entries.as_mut_slice();
    let piece = read_pieces(rt, halvings, kind, sizes, text.len(), text, out);
    entries.truncate(piece.lines);
    let run = Run {
        rest: &text[piece.bytes..],
        number: run.number + piece.lines as u64,
        left: run.left - piece.lines as u32,
        careful: 0,
    };
    Ok(Progress { entries, run })
}

/// How many entries have room from the start, so that they don't move while they are read: as many
/// as lines are still to come, and no more than lines of four bytes, the least that name a place,
/// are in the text.
fn room_for(lines: u32, bytes: usize) -> usize
    ensures { result ≤ lines }
{
    (lines as usize).min(bytes / 4 + 1)
}
