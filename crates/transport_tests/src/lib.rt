//! Parcels, routes and links by hand, and conveyors and exstacks by worked calls: links and
//! conveyors over the plain bank and over slots.
//! It has tests alone: they are above the crates that they run, so that proving one does not
//! prove the other again.
#![tactic(auto)]

#[cfg(test)]
mod conveyor_side;
#[cfg(test)]
mod conveyor_slots;
#[cfg(test)]
mod conveyor_tests;
#[cfg(test)]
mod conveyors;
#[cfg(test)]
mod doorbell_tests;
#[cfg(test)]
mod exchange_tests;
#[cfg(test)]
mod exstack_side;
#[cfg(test)]
mod exstack_tests;
#[cfg(test)]
mod exstacks;
#[cfg(test)]
mod hand;
#[cfg(test)]
mod hop_tests;
#[cfg(test)]
mod link_tests;
#[cfg(test)]
mod parcel_tests;
#[cfg(test)]
mod route_tests;
