//! How far each node of a network may be from its parent and from the grandmaster, in TRACK and in
//! HOLDOVER, and the nine inequalities that the network must pass for it. All rules are this
//! project's profile.
#![tactic(auto)]

mod bounds;
mod inequalities;
mod inequality;
mod laws;
mod motion;
mod network;
mod numbers;
mod times;

pub use bounds::{holdover, hop, path};
pub use inequalities::check;
pub use inequality::Clash;
pub use laws::{grandmaster_is_exact, path_of_child, rounds_up};
pub use network::{held_motion, numbers_over, placed_above};
pub use numbers::HopNumbers;
