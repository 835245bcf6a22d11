//! Names of nodes and links in the fields of lines: the node or the link of a network that is named by
//! octets of a line. The lines of traces and scenarios are this project's profile.
#![tactic(auto)]

mod fields;
mod names;

pub use fields::{link_at, node_at};
pub use names::{link_named, node_named};
