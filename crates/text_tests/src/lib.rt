//! Texts and what they are made of: sources and sinks, and Matrix Market texts with their matrices
//! or bad lines, written, made of cells and of seeds.
//! It has tests alone: they are above the crates that they run, so that proving one does not
//! prove the others again.
#![tactic(auto)]

#[cfg(test)]
mod cell_tests;
#[cfg(test)]
mod reading_tests;
#[cfg(test)]
mod stream_tests;
#[cfg(test)]
mod thread_tests;
