//! Runs through the top calls of the program that need more than its streams: faults of sources and
//! sinks at each call, a gate that holds a rank, and the rounds that a run tells. Its worked runs
//! are made by the program itself (checks/worked_runs), since each text here is one more to be
//! compared with all types of the program.
//! It has tests alone: they are above the crates that they run, so that proving one does not
//! prove the other again.
#![tactic(auto)]

#[cfg(test)]
mod fault_tests;
#[cfg(test)]
mod gate_tests;
#[cfg(test)]
mod rig;
#[cfg(test)]
mod round_tests;
