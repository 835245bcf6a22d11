//! Judging a handshake from the histories of a link's two ports: whether a port in WR_LINK_ON and its
//! peer went through the same handshake. The names of messages and states are the names of the White
//! Rabbit Specification 2.0; what makes a handshake the same one is this project's profile.
#![tactic(auto)]

mod judging;
mod laws;
mod movers;
mod required;
mod stretch;
mod verdict;

pub use judging::judge;
pub use laws::stretches_are_parts;
pub use verdict::Verdict;
