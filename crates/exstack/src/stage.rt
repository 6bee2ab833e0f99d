//! How far an exstack is, and what its polls answer.

/// How far a rank is in its epoch.
#[derive(Clone, Copy, PartialEq, Eq, Debug)]
pub enum Stage {
    /// Nothing was done in the epoch yet.
    Start,
    /// A proceed round has begun, and isn't over.
    Proceeding,
    /// A proceed round is over and the exchange goes on: items may be pushed.
    Filling,
    /// An exchange round has begun, and isn't over.
    Exchanging,
    /// An exchange round is over: the inboxes were filled.
    Full,
    /// A proceed round is over, and every rank has said that it is done.
    AllDone,
}

/// What an exchange poll answers.
#[derive(Clone, Copy, PartialEq, Eq, Debug)]
pub enum Poll {
    /// The round is over: this rank posted and collected all parcels of the round.
    Ready,
    /// The round waits for this link.
    NotYet(u32),
}

/// What a proceed poll answers.
#[derive(Clone, Copy, PartialEq, Eq, Debug)]
pub enum Proceed {
    /// The round is over, and the exchange goes on.
    GoOn,
    /// The round is over, and every link in has ended: all ranks have said that they are done.
    AllDone,
    /// The round waits for this link.
    NotYet(u32),
}
