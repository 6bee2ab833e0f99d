//! Why words give no command.

ghost use Rattle.std.specs.Prelude.{◌≡◌};
ghost use Rattle.bale_words.specs.declared.fault.WordsFault.TheVariants.{NoMemory};

use std::alloc::{AllocError, AllocFailed};

/// Why words give no command.
#[derive(Clone, Copy, PartialEq, Eq, Debug)]
pub enum WordsFault {
    /// They are no command.
    Usage,
    /// There was no memory to read them.
    NoMemory,
}

impl From<AllocError> for WordsFault {
    ghost from_gives = { λ _ fault. fault ≡ NoMemory };

    fn from(_refused: AllocError) -> WordsFault {
        WordsFault::NoMemory
    }
}

impl<T: Drop> From<AllocFailed<T>> for WordsFault {
    ghost from_gives = { λ _ fault. fault ≡ NoMemory };

    fn from(_refused: AllocFailed<T>) -> WordsFault {
        WordsFault::NoMemory
    }
}
