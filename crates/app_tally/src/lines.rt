//! The lines of a text.

ghost use Rattle.std.specs.Prelude.{◌≡◌, ◌≢◌, ◌<◌, ◌≤◌, ◌+◌, ℕ, Some, Err, length, drop, slice_get, slice_index, IfOk};
ghost use Rattle.std.specs.Arc.{arc_value};
ghost use Rattle.std.specs.List.{All};
ghost use Rattle.mtx_text.specs.Grammar.{line_after};
ghost use Rattle.app_tally.specs.declared.lines.LinesFault.TheVariants as LinesFault;
ghost use Rattle.app_tally.specs.Stores.{IsStore, strings_at};
ghost use Rattle.app_tally.specs.Texts.{lines_of_text, LinesGive};
ghost use Rattle.app_tally.specs.Cuts.{IsCut};
ghost use Rattle.app_tally.specs.Lines.{IsLines};

use crate::strings::{Span, Strings};
use bale_items::NoMemory;
use std::alloc::Global;
use std::marker::Model;
use std::sync::Arc;

/// Bytes of a text at most.
pub(crate) const MOST_BYTES: usize = 16_777_216;

/// Bytes of a line at most.
const MOST_IN_LINE: usize = 65_535;

/// Why a text gave no lines.
#[derive(Clone, Copy, PartialEq, Eq, Debug)]
pub enum LinesFault {
    /// A read failed; the source counted it.
    Source,
    /// The text has more than 16,777,216 bytes; the line of the first byte too many, from 1.
    TooLong { line: u64 },
    /// The first line of more than 65,535 bytes, from 1.
    LineTooLong { line: u64 },
    /// An allocation was refused.
    NoMemory,
}

/// The lines of a text: at most 16,777,216, of at most 65,535 bytes each. Ranks share them.
#[derive(Drop)]
pub struct Lines {
    strings: Arc<Strings, Global>,
}

impl Model for Lines {
    ghost use Rattle.std.specs.Prelude.{ℕ, List};
    ghost use Rattle.std.specs.Arc.{arc_value};
    ghost use Rattle.app_tally.specs.Lines.{IsLines};

    ghost Value = { List (List ℕ) };

    ghost view = { λ s. arc_value s.strings };

    ghost invariant = { λ s. IsLines (arc_value s.strings) };
}

impl Lines {
    /// The lines that lie in a text.
    fn of_spans(alloc: Global, text: Vec<u8>, spans: Vec<Span>) -> Result<Lines, NoMemory>
        requires store { IsStore text.items spans.items }
        requires few { length spans.items ≤ 16_777_216 }
        ensures { IfOk result (λ l. l ≡ strings_at text.items spans.items) }
    {
        let Ok(strings) = Arc::new(alloc, Strings::of_spans(text, spans)) else {
            return Err(NoMemory);
        };
        Ok(Lines { strings })
    }

    /// Does nothing, and states what all lines keep.
    #[inline]
    pub fn known(&self)
        ensures { IsLines self.now }
    {
        let _strings = &self.strings;
    }

    /// The number of lines.
    pub fn len(&self) -> usize
        ensures value { result ≡ length self.now }
        ensures lines { IsLines self.now }
    {
        self.strings.len()
    }

    /// Line number `i`, from 0, which is below the number of lines.
    pub fn at(&self, i: usize) -> &[u8]
        requires { i < length self.now }
        ensures { slice_get self.now i ≡ Some result.now }
    {
        self.strings.at(i)
    }

    /// The lines, for one rank more.
    ///
    /// # Errors
    ///
    /// `NoMemory` if they are shared too often.
    pub(crate) fn share(&self) -> Result<Arc<Strings, Global>, NoMemory>
        ensures { IfOk result (λ a. arc_value a ≡ self.now) }
    {
        match Arc::try_clone(&self.strings) {
            Ok(strings) => Ok(strings),
            Err(_) => Err(NoMemory),
        }
    }
}

/// What a text was cut into: its lines, or the number of the first one that is too long.
pub(crate) enum Cut {
    Lines(Vec<Span>),
    Long(u64),
}

/// The lines of a text in memory.
pub(crate) fn lines_of(alloc: Global, text: Vec<u8>) -> Result<Lines, LinesFault>
    ensures gives { LinesGive result (lines_of_text text.items) }
    ensures read { result ≢ Err LinesFault.Source }
{
    if text.len() > MOST_BYTES {
        let line = line_after(MOST_BYTES, &text);
        return Err(LinesFault::TooLong { line });
    }
    match cut_lines(alloc, &text) {
        Ok(Cut::Lines(spans)) => match Lines::of_spans(alloc, text, spans) {
            Ok(lines) => Ok(lines),
            Err(_) => Err(LinesFault::NoMemory),
        },
        Ok(Cut::Long(line)) => Err(LinesFault::LineTooLong { line }),
        Err(_) => Err(LinesFault::NoMemory),
    }
}

/// The line of byte number `n + 1`.
fn line_after(n: usize, text: &[u8]) -> u64
    requires { n < length text.now }
    ensures { result ≡ line_after n text.now }
{
    let front = &text[..n];
    let mut line: u64 = 1;
    for b in front {
        if *b == b'\n' {
            line += 1;
        }
    }
    line
}

/// Cuts a text at LF.
fn cut_lines(alloc: Global, text: &[u8]) -> Result<Cut, NoMemory>
    requires { length text.now ≤ 16_777_216 }
    ensures { IfOk result (IsCut text.now) }
{
    are_bytes(text);
    let mut spans = Vec::new(alloc);
    let mut start = 0;
    while start < text.len() {
        let len = piece_len(behind(text, start));
        if len > MOST_IN_LINE {
            return Ok(Cut::Long(spans.len() as u64 + 1));
        }
        spans.push(Span {
            start: start as u32,
            len: len as u16,
        })?;
        start = text.len().min(start + len + 1);
    }
    Ok(Cut::Lines(spans))
}

/// What follows the first `at` bytes.
fn behind(text: &[u8], at: usize) -> &[u8]
    requires { at ≤ length text.now }
    ensures { result.now ≡ drop at text.now }
{
    &text[at..]
}

/// The bytes of a text are below 256, as their type says.
fn are_bytes(text: &[u8])
    ensures { All (λ b. b < 256) text.now }
{}

/// How many bytes come before the first LF.
fn piece_len(text: &[u8]) -> usize
    ensures within { result ≤ length text.now }
    ensures before { (k : ℕ) → k < result → slice_index text.now k ≢ 10 }
    ensures found { result < length text.now → slice_index text.now result ≡ 10 }
{
    for (i, b) in text.iter().enumerate() {
        if *b == b'\n' {
            return i;
        }
    }
    text.len()
}
