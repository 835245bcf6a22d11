//! A network of nodes over true time: the world. It takes events if they keep the premises of its course; its
//! laws say what is then true of it (this project's profile).
#![tactic(auto)]

mod outcome;
mod run_laws;
mod steer;
mod world;

pub use outcome::Refused;
pub use run_laws::{events_hold, worlds_are_in_runs};
pub use steer::Steer;
pub use world::World;
pub use wrp_course::{Event, NodeOut, Swap};
pub use wrp_plant::{longest_tick, shortest_tick, start_of};
