//! How the items of a run travel.

use crate::command::{Driving, Generated, Transport};

/// How the items of a run travel, and what is in the place of a text.
#[derive(Clone, Copy, PartialEq, Eq, Debug)]
pub struct Travel {
    pub transport: Transport,
    /// how many parcels of a link may be in transit: 1, 2, 4 or 8
    pub slots: u32,
    /// whether a rank sends what it has whenever it advances
    pub steady: bool,
    /// how many entries a parcel holds: a power of two from 1 to 1,024
    pub buffer: u32,
    pub driving: Driving,
    pub generated: Option<Generated>,
}
