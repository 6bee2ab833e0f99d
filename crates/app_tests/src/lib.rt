//! Small programs in the canonical run by hand, and what the applications are made of. Worked
//! examples of the applications are runs of the program (checks/worked_runs).
//! It has tests alone: they are above the crates that they run, so that proving one does not
//! prove the other again.
#![tactic(auto)]

#[cfg(test)]
mod cell_tests;
#[cfg(test)]
mod permute_tests;
#[cfg(test)]
mod program_tests;
#[cfg(test)]
mod rig;
#[cfg(test)]
mod tally_tests;
