//! What a rank knows of one of its doorbells.

/// The doorbell of one hop, as its rank last heard it.
#[derive(Clone, Copy)]
pub(crate) struct Ear {
    /// The bits of the links that are marked: rung for, and not looked in since.
    pub(crate) marks: u64,
    /// How often the doorbell was heard; it saturates.
    pub(crate) hears: u64,
}
