//! A step of a node in an event.
use wrp_node::{Input, Outputs};

/// A step of a node: what it was given, and what it put out.
#[derive(Debug, Drop)]
pub struct NodeOut {
    /// The node.
    pub node: u8,
    /// What it was given.
    pub input: Input,
    /// What it put out, in order; at most 96.
    pub outs: Outputs,
}
