//! Where bytes come from and where they go: the one interface to files, terminals and memory.
//!
//! A source has two meanings: `left`, the bytes still to come, which an implementation may leave
//! untold, and `faults`, a count that never falls. A sink has `taken`, the bytes accepted so far,
//! and `faults`. A caller that reads or writes through these traits knows that a call which failed
//! moved nothing, and that the object counted its failure, and none at a call that didn't fail.
ghost use Rattle.std.specs.Prelude.{◌≡◌, ◌<◌, ◌≤◌, ℕ, List, Option, Some, [], length, IfOk};
ghost use Rattle.bale_types.specs.Stream.{taken_with, before, moved_bytes, CountsFaults, MovesSome};

use super::fault::Failed;

/// Gives bytes, from the first to the last.
pub trait Source {
    /// The bytes still to come, or None if they aren't told.
    ghost left: { Self → Option (List ℕ) };

    /// How many calls failed so far; the count saturates at 2^64 - 1.
    ghost faults: { Self → ℕ };

    /// Puts the next bytes at the front of `buf` and returns how many, at least one unless nothing
    /// is left.
    ///
    /// # Errors
    ///
    /// `Failed` if the read failed: nothing was taken.
    fn read(&mut self, buf: &mut [u8]) -> Result<usize, Failed>
        requires { 0 < length buf.old }
        ensures bound { IfOk result (λ count. count ≤ length buf.new) }
        ensures bytes { left self.old ≡ before (moved_bytes result buf.new) (left self.new) }
        ensures only_at_end { (text : List ℕ) → result ≡ Ok 0 → left self.old ≡ Some text → text ≡ [] }
        ensures at_end { left self.old ≡ Some [] → IfOk result (λ count. count ≡ 0) }
        ensures counts { CountsFaults (faults self.old) (faults self.new) result };
}

/// Takes bytes, and keeps their order.
pub trait Sink {
    /// The bytes taken so far, or None if they aren't told.
    ghost taken: { Self → Option (List ℕ) };

    /// How many calls failed so far; the count saturates at 2^64 - 1.
    ghost faults: { Self → ℕ };

    /// Takes bytes from the front of `piece` and returns how many, at least one.
    ///
    /// # Errors
    ///
    /// `Failed` if the write failed: nothing was taken.
    fn write(&mut self, piece: &[u8]) -> Result<usize, Failed>
        requires { 0 < length piece.now }
        ensures some { MovesSome (length piece.now) result }
        ensures bytes { taken self.new ≡ taken_with (taken self.old) (moved_bytes result piece.now) }
        ensures counts { CountsFaults (faults self.old) (faults self.new) result };
}
