//! Strings kept one behind the other: two allocations for all of them.

ghost use Rattle.bale_items.specs.Changes.{AllOrNothing};
ghost use Rattle.std.specs.Prelude.{◌≡◌, ◌<◌, ◌≤◌, ◌+◌, ◌++◌, ◌∷◌, [], nat_lt, Some, OnOk, OnErr, length, slice_get};
ghost use Rattle.std.specs.List.{All};
ghost use Rattle.elastic.specs.Spelling.{IsLetter};
ghost use Rattle.app_tally.specs.Stores.{bytes_at, strings_at, IsStore};

use bale_items::NoMemory;
use std::alloc::Global;
use std::marker::Model;

/// Bytes that come before a string at most.
const MOST_BEFORE: usize = 4_294_967_295;

/// Where a string lies.
#[derive(Clone, Copy)]
pub(crate) struct Span {
    pub(crate) start: u32,
    pub(crate) len: u16,
}

/// A list of strings of at most 65,535 bytes each.
#[derive(Drop)]
pub struct Strings {
    /// the bytes of all strings, and maybe others between them
    bytes: Vec<u8>,
    /// where each string lies
    spans: Vec<Span>,
}

impl Model for Strings {
    ghost use Rattle.std.specs.Prelude.{ℕ, List};
    ghost use Rattle.app_tally.specs.Stores.{bytes_at, strings_at, IsStore};

    ghost Value = { List (List ℕ) };

    ghost view = { λ s. strings_at s.bytes.items s.spans.items };

    ghost invariant = { λ s. IsStore s.bytes.items s.spans.items };
}

impl Strings {
    /// No strings, whose later growth takes memory from `alloc`.
    pub(crate) fn new(alloc: Global) -> Strings
        ensures { result ≡ [] }
    {
        Strings {
            bytes: Vec::new(alloc),
            spans: Vec::new(alloc),
        }
    }

    /// The strings that lie in these bytes.
    pub(crate) fn of_spans(bytes: Vec<u8>, spans: Vec<Span>) -> Strings
        requires { IsStore bytes.items spans.items }
        ensures { result ≡ strings_at bytes.items spans.items }
    {
        Strings { bytes, spans }
    }

    /// Puts a string at the end. After `NoMemory`, which is also the answer once the strings have 4
    /// GiB, they are as before.
    pub(crate) fn push(&mut self, string: &[u8]) -> Result<(), NoMemory>
        requires { length string.now ≤ 65_535 }
        ensures { AllOrNothing (self.old ++ string.now ∷ []) self.old self.new result }
    {
        append(&mut self.bytes, &mut self.spans, string)
    }

    /// The number of strings.
    pub fn len(&self) -> usize
        ensures value { result ≡ length self.now }
        ensures letters { All IsLetter self.now }
    {
        self.spans.len()
    }

    /// String number `i`, which is below the number of strings.
    pub fn at(&self, i: usize) -> &[u8]
        requires { i < length self.now }
        ensures { slice_get self.now i ≡ Some result.now }
    {
        let span = self.spans[i];
        part(&self.bytes, span)
    }
}

/// The bytes of a span.
#[inline(always)]
fn part(bytes: &[u8], span: Span) -> &[u8]
    requires { span.start + span.len ≤ length bytes.now }
    ensures { result.now ≡ bytes_at bytes.now span }
{
    &bytes[span.start as usize..span.start as usize + span.len as usize]
}

/// Puts a string at the end of bytes and spans.
fn append(bytes: &mut Vec<u8>, spans: &mut Vec<Span>, string: &[u8]) -> Result<(), NoMemory>
    requires short { length string.now ≤ 65_535 }
    requires store { IsStore bytes.old.items spans.old.items }
    ensures store { IsStore bytes.new.items spans.new.items }
    ensures pushed { OnOk result (strings_at bytes.new.items spans.new.items
        ≡ strings_at bytes.old.items spans.old.items ++ string.now ∷ []) }
    ensures refused { OnErr result (strings_at bytes.new.items spans.new.items
        ≡ strings_at bytes.old.items spans.old.items) }
{
    let start = bytes.len();
    if is_full(start) {
        return Err(NoMemory);
    }
    is_letter(string);
    bytes.extend_from_slice(string)?;
    let span = Span {
        start: start as u32,
        len: string.len() as u16,
    };
    spans.push(span)?;
    Ok(())
}

/// Whether no string has its place behind so many bytes.
fn is_full(start: usize) -> bool
    ensures { result ≡ nat_lt 4_294_967_295 start }
{
    start > MOST_BEFORE
}

/// A short string is a letter: its bytes are below 256, as their type says.
fn is_letter(string: &[u8])
    requires { length string.now ≤ 65_535 }
    ensures { IsLetter string.now }
{}
