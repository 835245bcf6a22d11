//! The world of a network as commands have it: its setting with the delay laws of the links, the bounds of its nodes in TRACK, and
//! the counters that are written at the end.
#![tactic(auto)]

mod bounds;
mod counts;
mod nodes;

pub use bounds::bounds_of;
pub use counts::append_all_counts;
pub use nodes::{count_of, name_of};
