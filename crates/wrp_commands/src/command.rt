//! All commands, each with the value of its option.
use crate::alone::Alone;

/// What is asked of a network whose text comes before the records.
#[derive(Clone, Copy, Debug, PartialEq, Eq)]
pub enum Asked<'a> {
    /// The audit of all nodes.
    Audit,
    /// The inputs of the node of this name in an audit.
    Emit(&'a str),
    /// The replay of the node of this name.
    Replay(&'a str),
    /// A simulation from this seed.
    Simulate(u64),
}

/// A command.
#[derive(Clone, Copy, Debug, PartialEq, Eq)]
pub enum Command<'a> {
    /// One on a network.
    OnNetwork(Asked<'a>),
    /// One that stands alone.
    Alone(Alone),
    /// A run over a link from this seed.
    Loop(u64),
}
