//! The audit of a network: its record lines are events, and each is tried against the premises of the world. What
//! the steps of its nodes put out is written with their true offsets, or the inputs that a node was given are
//! written. Lines are this project's profile.
#![tactic(auto)]

mod audit;
mod audit_lines;
mod auditing;
mod broken;
mod laws;

pub use auditing::audit_by;
pub use laws::one_audit;
