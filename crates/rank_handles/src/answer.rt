//! What a call answers.
ghost use Rattle.std.specs.Prelude.{◌≡◌};
ghost use Rattle.rank_handles.specs.Codes.{code_of};

/// What a call answers. `bale.h` has a named constant for each.
#[derive(Clone, Copy, PartialEq, Eq, Debug)]
pub enum Answer {
    /// It is done.
    Good,
    /// The open parcel toward that rank is full: advance, and push again.
    Full,
    /// There is nothing to be pulled, or to be put back.
    Nothing,
    /// Items may still be pushed, or parcels are still to be sent.
    More,
    /// All parcels are sent; items are still to come or to be pulled.
    Near,
    /// The epoch is over for this rank.
    Complete,
    /// No memory.
    NoMemory,
    /// Misuse: the epoch has not begun.
    NotBegun,
    /// Misuse: the epoch has begun already.
    BegunAlready,
    /// Misuse: the rank said before that it is done.
    DoneAlready,
    /// Misuse: no rank has this number.
    NoSuchRank,
    /// Misuse: the epoch isn't over for this rank.
    NotComplete,
    /// Misuse: the handle has nothing, or no longer.
    Gone,
    /// Misuse: these numbers are no grid, no capacity or no number of slots.
    BadNumbers,
    /// Misuse: this handle has something already.
    InUse,
    /// Misuse: this rank was made before.
    RankTaken,
    /// Misuse: no number is left for another epoch.
    NoMoreEpochs,
    /// Misuse: a view lends fewer items than are to be pulled.
    NotLent,
    /// Misuse: a string has more than 65,535 bytes.
    TooLong,
}

impl Answer {
    /// The number by which C knows it.
    pub fn code(self) -> i32
        ensures { result ≡ code_of self }
    {
        match self {
            Answer::Good => 0,
            Answer::Full => 1,
            Answer::Nothing => 2,
            Answer::More => 3,
            Answer::Near => 4,
            Answer::Complete => 5,
            Answer::NoMemory => -1,
            Answer::NotBegun => -2,
            Answer::BegunAlready => -3,
            Answer::DoneAlready => -4,
            Answer::NoSuchRank => -5,
            Answer::NotComplete => -6,
            Answer::Gone => -7,
            Answer::BadNumbers => -8,
            Answer::InUse => -9,
            Answer::RankTaken => -10,
            Answer::NoMoreEpochs => -11,
            Answer::NotLent => -12,
            Answer::TooLong => -13,
        }
    }
}
