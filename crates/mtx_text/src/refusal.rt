//! Why a text has no matrix.
ghost use Rattle.std.specs.Prelude.{◌≡◌, Some};
ghost use Rattle.mtx_text.specs.Reasons.{reason_text};
ghost use Rattle.mtx_text.specs.declared.refusal.ParseFault.TheVariants.{NoMemory};

use std::alloc::{AllocError, AllocFailed};
use std::fmt;

/// The reasons, numbered from 1 in this order.
#[derive(Clone, Copy, PartialEq, Eq, Debug)]
pub enum Reason {
    /// Line 1 is no banner.
    Banner,
    /// The banner's qualifiers aren't accepted together.
    Unsupported,
    /// There is no size line, or it hasn't three integers that aren't negative.
    SizeLine,
    /// Rows, columns or entries over the limits.
    TooLarge,
    /// The number of words is wrong, or an index is no integer.
    EntryLine,
    /// An index is below 1 or above its size.
    OutOfRange,
    /// The value is no integer, or beyond the limits.
    Value,
    /// An earlier entry line, or its mirror, has the same indices.
    Duplicate,
    /// The text ends before all entries came.
    TooFew,
    /// An entry line after all entries came.
    TooMany,
    /// The text has more than 16,777,216 bytes.
    TooLong,
    /// A symmetry asks for as many rows as columns.
    NotSquare,
    /// A skew-symmetric matrix has no entries on its diagonal.
    Diagonal,
}

impl Reason {
    /// The reason in words, as it is printed.
    #[tactic(auto, unfolding(crate::specs::Reasons::reason_text))]
    pub fn text(self) -> &'static str
        ensures { result.now ≡ reason_text self }
    {
        match self {
            Reason::Banner => "bad banner",
            Reason::Unsupported => "unsupported",
            Reason::SizeLine => "bad size line",
            Reason::TooLarge => "too large",
            Reason::EntryLine => "bad entry line",
            Reason::OutOfRange => "index out of range",
            Reason::Value => "bad value",
            Reason::Duplicate => "duplicate entry",
            Reason::TooFew => "too few entries",
            Reason::TooMany => "too many entries",
            Reason::TooLong => "too long",
            Reason::NotSquare => "not square",
            Reason::Diagonal => "diagonal entry",
        }
    }
}

impl fmt::Display for Reason {
    ghost output = { λ r. Some (reason_text r) };

    fn fmt<W: fmt::Write>(&self, f: &mut fmt::Formatter<W>) -> fmt::Result {
        f.write_str(self.text())
    }
}

/// The first bad line of a text, counted from 1, and what is wrong with it.
#[derive(Clone, Copy, PartialEq, Eq, Debug)]
pub struct BadLine {
    pub line: u64,
    pub reason: Reason,
}

/// Why a text in memory gave no matrix.
#[derive(Clone, Copy, PartialEq, Eq, Debug)]
pub enum ParseFault {
    /// The text has no matrix.
    Bad(BadLine),
    /// An allocation was refused.
    NoMemory,
}

impl From<BadLine> for ParseFault {
    ghost use Rattle.mtx_text.specs.declared.refusal.ParseFault.TheVariants.{Bad};

    ghost from_gives = { λ b e. e ≡ Bad b };

    fn from(b: BadLine) -> ParseFault {
        ParseFault::Bad(b)
    }
}

impl From<AllocError> for ParseFault {
    ghost from_gives = { λ _ e. e ≡ NoMemory };

    fn from(_e: AllocError) -> ParseFault {
        ParseFault::NoMemory
    }
}

impl<T: Drop> From<AllocFailed<T>> for ParseFault {
    ghost from_gives = { λ _ e. e ≡ NoMemory };

    fn from(_e: AllocFailed<T>) -> ParseFault {
        ParseFault::NoMemory
    }
}

/// Why a source gave no matrix.
#[derive(Clone, Copy, PartialEq, Eq, Debug)]
pub enum ReadFault {
    /// A read failed; the source counted it.
    Source,
    /// The text that the source gave has no matrix.
    Bad(BadLine),
    /// An allocation was refused.
    NoMemory,
}
