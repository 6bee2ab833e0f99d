//! The drives on small programs: ranks in turn and on threads, by both transports, what their gates
//! hold, and refused absorbs.
//! It has tests alone: they are above the crates that they run, so that proving one does not
//! prove the other again.
#![tactic(auto)]

#[cfg(test)]
mod adder;
#[cfg(test)]
mod asking_tests;
#[cfg(test)]
mod asking_thread_tests;
#[cfg(test)]
mod fallback_tests;
#[cfg(test)]
mod gate_tests;
#[cfg(test)]
mod gates;
#[cfg(test)]
mod order_tests;
#[cfg(test)]
mod refused_tests;
#[cfg(test)]
mod serial_tests;
#[cfg(test)]
mod side_by_side_tests;
#[cfg(test)]
mod thread_tests;
#[cfg(test)]
mod watched;
