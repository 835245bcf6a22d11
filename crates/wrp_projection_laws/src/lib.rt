//! The law of projection: the replay of a node on the inputs that an audit gave it prints that node's
//! lines of the audit again, without the true offsets. Words, inputs and lines are this project's profile.
#![tactic(auto)]

mod laws;

pub use laws::{front_with_records, replay_of_emitted_inputs};
