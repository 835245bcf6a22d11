//! What a world gives its nodes, as record lines: the line of each input reads back as that input. The
//! form of lines is this project's profile.
#![tactic(auto)]

mod laws;

pub use laws::inputs_are_recorded;
