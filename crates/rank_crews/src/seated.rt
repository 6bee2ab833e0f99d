//! A rank at its ports: what goes to a worker's thread, and comes back.
ghost use Rattle.std.specs.Prelude.{◌≡◌, ℕ, ◌+◌, Bool, true, false};
ghost use Rattle.rank_crews.specs.Runs.{RanLaws};

use bale_items::Steps;
use std::marker::Brand;
use std::sync::Wait;
use std::sync::ledger::Ledger;

/// The turns that the gate of a run was notified of. Each run has its own.
pub trait GateLog {
    ghost notified: { ℕ → ℕ → Bool };
}

impl GateLog for Brand {
    ghost notified = { λ r n. false };
}

/// A rank that sits at its ports and is polled until its run is over. Whoever polls it knows
/// nothing of the other ranks.
///
/// `ran notified x y` says that turns took a rank from x to y, and that `notified` holds of the
/// rank and the number of each of them; `turns` counts all turns up to some moment.
///
/// | Call | Needs | Answer |
/// |---|---|---|
/// | `rank`, `turn_count` | | its number, and how many turns it has made |
/// | `is_over` | | whether its run is over |
/// | `turn` | its run isn't over, and the gate was notified of this turn | one turn; whether the rank made progress: if not, no parcel moved |
pub trait Seated: Drop {
    ghost ran: { (ℕ → ℕ → Bool) → Self → Self → Type 0 };

    ghost number: { Self → ℕ };

    ghost turns: { Self → ℕ };

    ghost over: { Self → Bool };

    ghost still: { Self → Self → Type 0 };

    /// Its number.
    fn rank(&self) -> u32
        ensures { result ≡ number self.now };

    /// How many turns it has made.
    fn turn_count(&self) -> u64
        ensures { result ≡ turns self.now };

    /// Whether its run is over: it isn't polled again.
    fn is_over(&self) -> bool
        ensures { result ≡ over self.now };

    /// Makes one turn. Answers whether it made progress: false if and only if the rank is `still`.
    /// A node makes progress if it pushes an item, if a parcel is posted or collected, and if an
    /// epoch ends. If it made none, other ranks may have to be polled first.
    fn turn<R: Wait, J: GateLog, L: Ledger>(&mut self, rt: &R, steps: &mut Steps<L>) -> bool
        requires going { over self.old ≡ false }
        // The gate was notified of this turn before it is made.
        requires notified { J.notified (number self.old) (turns self.old) ≡ true }
        ensures ran { ran J.notified self.old self.new }
        ensures one { turns self.new ≡ turns self.old + 1 }
        ensures counted { steps.new ≡ steps.old + 1 }
        ensures still { result ≡ false → still self.old self.new }
        ensures progress { result ≡ true → still self.old self.new → ⊥ };

    ghost laws: { (notified : ℕ → ℕ → Bool) → RanLaws (ran notified) };

    ghost still_laws: { RanLaws still };
}
