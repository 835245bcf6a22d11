//! A White Rabbit network as a value: its numbers, nodes and links with the calibration database of its
//! modules and fibres, and what an accepted network keeps. The crate `wrp_network_text` reads it from a
//! network file (this project's profile).
#![tactic(auto)]

mod copies;
mod laws;
mod network;

pub use laws::{child_is_deeper, modules_are_listed, one_grandmaster, port_is_of_one_link};
pub use network::{Network, is_lower_end, is_upper_end, pair_at};
