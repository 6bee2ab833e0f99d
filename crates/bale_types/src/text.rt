//! The text that a source gives.

ghost use Rattle.std.specs.Prelude.{◌≡◌, ℕ, ◌+◌, ◌<◌, List, Some, Err, take, drop, vec_len, IfOk};
ghost use Rattle.bale_types.specs.Stream.{Blames, TakesUpTo};
ghost use Rattle.bale_types.specs.declared.text.Unread.TheVariants as Unread;

use crate::fault::Failed;
use crate::stream::Source;
use std::alloc::{AllocError, Global};

/// Bytes that one read asks for at most.
const PIECE: usize = 65_536;

/// Why a text couldn't be read to its end.
#[derive(Clone, Copy)]
pub enum Unread {
    /// A read failed.
    Source,
    /// An allocation was refused.
    NoMemory,
}

impl From<Failed> for Unread {
    ghost from_gives = { λ _ e. e ≡ Unread.Source };

    fn from(_e: Failed) -> Unread {
        Unread::Source
    }
}

impl From<AllocError> for Unread {
    ghost from_gives = { λ _ e. e ≡ Unread.NoMemory };

    fn from(_e: AllocError) -> Unread {
        Unread::NoMemory
    }
}

/// The text of a source, up to `limit` bytes.
pub fn read_text<S: Source>(alloc: Global, source: &mut S, limit: usize) -> Result<Vec<u8>, Unread>
    ensures text { (text : List ℕ) → S.left source.old ≡ Some text
        → IfOk result (λ read. read.items ≡ take limit text) }
    ensures left { (text : List ℕ) → S.left source.old ≡ Some text
        → IfOk result (λ read. S.left source.new ≡ Some (drop limit text)) }
    ensures takes { TakesUpTo limit (S.left source.old) (S.left source.new) }
    ensures faults { Blames (result ≡ Err Unread.Source) (S.faults source.old) (S.faults source.new) }
{
    let mut text = Vec::new(alloc);
    let mut buffer = room_for(alloc, PIECE)?;
    while text.len() < limit {
        let room = PIECE.min(limit - text.len());
        let piece = &mut buffer[..room];
        let count = source.read(piece)?;
        if count == 0 {
            return Ok(text);
        }
        text.extend_from_slice(&piece[..count])?;
    }
    Ok(text)
}

/// A buffer of so many bytes.
fn room_for(alloc: Global, len: usize) -> Result<Vec<u8>, AllocError>
    ensures { IfOk result (λ buffer. vec_len buffer ≡ len) }
{
    vec![in alloc; 0u8; len]
}
