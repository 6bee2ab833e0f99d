//! What is called before each turn of a rank on a thread.
ghost use Rattle.std.specs.Prelude.{◌≡◌, ℕ, Bool, true};

/// A gate before the turns: a test can hold a rank there. It has no condition, and returns.
///
/// `notified` is the set of turns that a gate was notified of. A drive works with every gate, so it
/// knows nothing of this set except what `turn` ensures: the only way to show that a turn is in it
/// is to notify the gate. An impl need not define it.
pub trait Gate {
    ghost notified: { Self → ℕ → ℕ → Bool } = { λ g r n. true };

    /// Is called before turn `n` of a rank, counted from 0 over the whole run.
    fn turn(&self, rank: u32, n: u64)
        ensures notified { notified self.now rank n ≡ true };
}

/// A gate that holds no rank.
#[derive(Clone, Copy, PartialEq, Eq, Debug)]
pub struct OpenGate;

impl Gate for OpenGate {
    fn turn(&self, _rank: u32, _n: u64) {}
}
