//! A world without its nodes, as the code keeps it: true time, clocks, fibres, ends of links and frames in
//! flight, with the questions that the code asks about them (this project's profile).
#![tactic(auto)]

mod ends;
mod fibres;
mod plant;
mod swaps;
mod times;

pub use ends::{Delays, EndState, PutOut, Span, with_ports};
pub use fibres::{down_at, is_still, move_by, moved, up_at};
pub use plant::Plant;
pub use plant::new::start_of;
pub use swaps::swap_for;
pub use times::{frame_life, longest_tick, reach, shortest_tick};
