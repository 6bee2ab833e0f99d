//! The fault of a read or a write.

/// A read or a write failed; the object's count of faults tells of it.
#[derive(Clone, Copy, PartialEq, Eq, Debug)]
pub struct Failed;
