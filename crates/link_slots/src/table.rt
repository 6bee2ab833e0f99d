//! The table that the threads share: its rule, what it is given once, what a seat at it knows,
//! and each step that a seat makes.

pub(crate) mod plan;
pub(crate) mod plays;
pub(crate) mod rule;
pub(crate) mod slot;
pub(crate) mod steps;
pub(crate) mod view;
pub(crate) mod wire;
