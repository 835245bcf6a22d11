//! The line of words that are no command, or name a node that the network lacks.

/// The only line of Usage.
pub const USAGE_LINE: &str =
    "usage: wrnet audit [--emit NODE] | replay --node NODE | simulate --seed N | loop --seed N | migrate | inspect | l1sync | calibrate | plain\n";
