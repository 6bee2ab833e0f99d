//! A sink that counts what comes and keeps none of it.

ghost use Rattle.std.specs.Prelude.{◌≡◌, ◌≤◌, ◌<◌, ◌*◌, ◌^◌, ◌++◌, [], ◌∷◌, Some, length};
ghost use Rattle.std.specs.List.{sum_by};
ghost use Rattle.bale_answers.specs.Logs.{bytes_of};
ghost use Rattle.list_laws.specs.Counts.{saturated_count};
ghost use Rattle.bale_answers.specs.Summary.{ends_line};

use bale_types::{Failed, Sink};
use std::marker::Model;
use std::snapshot::Snapshot;

/// The bytes that came, of which none is kept: what clauses read of them has no bytes of its own.
#[derive(Drop)]
pub(crate) enum Log {
    Nothing,
    More(Snapshot<Log>, u8),
}

/// The numbers of LF bytes and of bytes, and the sum of the bytes. Each saturates at 2^64 - 1, and
/// is exact while fewer than 2^56 bytes came: a byte adds at most 255 to it.
#[derive(Drop)]
pub(crate) struct Counter {
    pub(crate) lines: u64,
    pub(crate) bytes: u64,
    pub(crate) sum: u64,
    log: Log,
    ghost lines_are: { lines ≡ saturated_count (sum_by ends_line (bytes_of log)) },
    ghost bytes_are: { bytes ≡ saturated_count (length (bytes_of log)) },
    ghost sum_is: { sum ≡ saturated_count (sum_by (λ b. b) (bytes_of log)) },
    ghost low: { sum_by (λ b. b) (bytes_of log) ≤ 255 * length (bytes_of log) },
}

impl Counter {
    /// Nothing has come.
    pub(crate) fn new() -> Counter
        ensures { bytes_of result.log ≡ [] }
    {
        Counter {
            lines: 0,
            bytes: 0,
            sum: 0,
            log: Log::Nothing,
        }
    }

    /// Does nothing. Its clauses say that the three numbers are exact, since fewer than 2^56 bytes
    /// came.
    #[inline]
    pub(crate) fn known(&self)
        requires short { length (bytes_of self.now.log) < 2 ^ 56 }
        ensures lines { self.now.lines ≡ sum_by ends_line (bytes_of self.now.log) }
        ensures bytes { self.now.bytes ≡ length (bytes_of self.now.log) }
        ensures sum { self.now.sum ≡ sum_by (λ b. b) (bytes_of self.now.log) }
    {
        let _lines = self.lines;
    }

    /// One more byte.
    fn add(&mut self, b: u8)
        ensures { bytes_of self.new.log ≡ bytes_of self.old.log ++ b ∷ [] }
    {
        let before = Snapshot::of(&self.log);
        let line = if b == b'\n' { 1 } else { 0 };
        let next = Counter {
            lines: self.lines.saturating_add(line),
            bytes: self.bytes.saturating_add(1),
            sum: self.sum.saturating_add(b as u64),
            log: Log::More(before, b),
        };
        *self = next;
    }

    /// Some more, in their order.
    fn add_all(&mut self, piece: &[u8])
        ensures { bytes_of self.new.log ≡ bytes_of self.old.log ++ piece.now }
    {
        for b in piece {
            self.add(*b);
        }
    }
}

impl Sink for Counter {
    ghost use Rattle.std.specs.Prelude.{Some};
    ghost use Rattle.bale_answers.specs.Logs.{bytes_of};

    ghost taken = { λ c. Some (bytes_of c.log) };

    ghost faults = { λ _. 0 };

    fn write(&mut self, piece: &[u8]) -> Result<usize, Failed> {
        self.add_all(piece);
        Ok(piece.len())
    }
}
