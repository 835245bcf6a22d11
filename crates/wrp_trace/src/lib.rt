//! The lines that a trace is made of: what a node is given, as a line of text, read and printed. A
//! printed line reads back as the same input. The form of lines is this project's profile.
#![tactic(auto)]

mod digits;
mod events;
mod fields;
mod inputs;
mod kinds;
mod laws;
mod line_setting;
mod printing;
mod times;

pub use events::{EventKind, EventPlace, event_line, read_event, read_event_into};
pub use inputs::{read_input, read_input_fields};
pub use kinds::InputKind;
pub use laws::events_can_come;
pub use printing::{append_input_line, input_line};
pub use wrp_base::TraceFault;
