//! The simulation of a network: the record lines say a scenario, the network runs by it to its end, and what its
//! nodes put out is written, with lines that sum it up. Lines are this project's profile.
#![tactic(auto)]

mod laws;
mod simulating;
mod simulation;
mod totals;

pub use laws::events_are_numbered;
pub use simulating::simulate;
