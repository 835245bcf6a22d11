//! A world of three nodes under test: its network, the delay laws of its links, which events can come to it, and what
//! follows from them. Whoever makes the events drives it.
#![tactic(auto)]

mod fitting;
mod network;
mod trial;

pub use network::{KAPPA, THREE_NODES};
pub use trial::{Lack, Told, Trial, takes, trial_of};
