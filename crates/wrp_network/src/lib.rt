//! A network as its file describes it: its numbers, its nodes and its links, and the ranges and the tree that they keep (this
//! project's profile).
#![tactic(auto)]

mod configuration;
mod network;

pub use configuration::{NetCfg, link_above};
pub use network::{LinkCfg, Name, NodeCfg};
