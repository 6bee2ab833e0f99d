//! Letters as items.

ghost use Rattle.std.specs.Prelude.{◌≡◌, ◌<◌, ◌++◌, OnOk, IfOk, length, map, drop};
ghost use Rattle.std.specs.Int.{w32, from_le_bytes};
ghost use Rattle.elastic.specs.Spelling.{packed_word, letter_head, next_item, spelling};
ghost use Rattle.elastic.specs.Mails.{spelling_of};

use crate::letter_program::LetterProgram;
use bale_items::{Item, NoMemory};
use std::alloc::Global;

/// Bytes of a letter in its first item.
const FIRST: usize = 16;

/// Bytes of a letter in each further item.
const NEXT: usize = 24;

/// What a letter program sends in its round, as items.
pub(crate) fn spelled<Q: LetterProgram>(alloc: Global, q: &Q) -> Result<Vec<(u32, Item)>, NoMemory>
    ensures { IfOk result (λ v. v.items ≡ spelling_of (Q.rules.letters q.now)) }
{
    let count = q.count();
    let mut outgoing = Vec::with_capacity(alloc, count as usize)?;
    for i in 0..count {
        spell(&mut outgoing, q.to(i), q.letter(i))?;
    }
    Ok(outgoing)
}

/// Appends the spelling of a letter, each item with the rank that the letter goes to.
///
/// # Errors
///
/// `NoMemory`: `outgoing` may hold anything.
pub fn spell(outgoing: &mut Vec<(u32, Item)>, to: u32, letter: &[u8]) -> Result<(), NoMemory>
    ensures { OnOk result (outgoing.new.items ≡ outgoing.old.items ++ map (λ x. (to, x)) (spelling letter.now)) }
{
    outgoing.push((to, first_item(letter)))?;
    let mut rest = behind(letter, FIRST);
    while !rest.is_empty() {
        outgoing.push((to, next_item(rest)))?;
        rest = behind(rest, NEXT);
    }
    Ok(())
}

/// The item that begins a letter: its length and its first bytes.
fn first_item(letter: &[u8]) -> Item
    ensures { result ≡ letter_head letter.now }
{
    Item {
        a: letter.len() as u64,
        b: word_of(letter),
        c: word_of(behind(letter, 8)),
    }
}

/// An item of the next bytes of a letter.
fn next_item(bytes: &[u8]) -> Item
    ensures { result ≡ next_item bytes.now }
{
    Item {
        a: word_of(bytes),
        b: word_of(behind(bytes, 8)),
        c: word_of(behind(bytes, 16)),
    }
}

/// What follows the first `len` bytes, and nothing if there are no more.
fn behind(bytes: &[u8], len: usize) -> &[u8]
    ensures { result.now ≡ drop len bytes.now }
{
    &bytes[len.min(bytes.len())..]
}

/// The first eight bytes as a word, from the lowest bits up; 0 if there is no byte.
fn word_of(bytes: &[u8]) -> u64
    ensures { result ≡ packed_word bytes.now }
{
    match bytes.first_chunk::<8>() {
        Some(word) => u64::from_le_bytes(*word),
        None => short_word(bytes),
    }
}

/// Fewer than eight bytes as a word, from the lowest bits up. Four are read at once, if there are
/// so many.
fn short_word(bytes: &[u8]) -> u64
    requires { length bytes.now < 8 }
    ensures { result ≡ packed_word bytes.now }
{
    match bytes.first_chunk::<4>() {
        Some(four) => { u32::from_le_bytes(*four) as u64 + ((few_bytes(&bytes[4..]) as u64) << 32) }
        None => few_bytes(bytes) as u64,
    }
}

/// Fewer than four bytes as a number, from the lowest bits up.
#[inline(always)]
fn few_bytes(bytes: &[u8]) -> u32
    requires { length bytes.now < 4 }
    ensures { result ≡ from_le_bytes w32 bytes.now }
{
    match bytes {
        [] => 0,
        [a] => *a as u32,
        [a, b] => *a as u32 + *b as u32 * 256,
        [a, b, c, ..] => *a as u32 + *b as u32 * 256 + *c as u32 * 65_536,
    }
}
