//! A simulator: the events of a whole network, with faults, losses and drifting clocks, from a scenario and
//! one number (this project's profile).
#![tactic(auto)]

mod draws;
mod laws;
mod sim;
mod ticks;

pub use draws::known_numbers_are_drawn;
pub use laws::simulator_keeps_the_bounds;
pub use sim::Sim;
pub use wrp_scene::{Fault, FaultKind, Scene, SceneKind};
