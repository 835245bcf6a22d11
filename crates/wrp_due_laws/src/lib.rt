//! That something is expected, whatever comes: octets say a message or have a fault, a law has an answer, what a
//! node put out is spelled by its octets, one frame is due first, and record lines that are decided one by one have
//! an answer. The laws of whole commands rest on these. (Frames are those of IEEE 1588-2019; runs and lines are
//! this project's profile.)
#![tactic(auto)]

mod laws;

pub use laws::{
    each_input_is_answered, each_is_inspected, each_says, frames_are_heard, one_is_due_first,
};
