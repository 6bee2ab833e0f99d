//! How far an exchange has come.

/// What an advance answers: how far the rank's epoch is.
#[derive(Clone, Copy, PartialEq, Eq, Debug)]
pub enum Progress {
    /// Items may still be pushed, or parcels are still to be sent.
    More,
    /// All parcels are sent; items are still to come or to be pulled.
    Near,
    /// Every link has ended and every item was pulled.
    Complete,
}
