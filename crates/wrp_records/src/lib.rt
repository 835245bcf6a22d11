//! What every command is built on: the records of an input, taken from a source in pieces and handled as
//! they come; their output, which goes to a sink before more is asked for; and the refusals that end the
//! input. A command is a machine for its lines. This crate knows no network (this project's profile).
#![tactic(auto)]

mod answering;
mod engine;
mod feed;
mod line;
mod machine;
mod reader;
mod refusals;
mod running;
mod status;
mod words;
mod writing;

pub use answering::{answer, refuse_network};
pub use engine::{append_large, handle_records};
pub use line::content;
pub use machine::{Closing, Machine, Refusal, Taken};
pub use reader::{Next, Reader};
pub use refusals::{TOO_LARGE_LINE, append_broken_words, bad_network, refuse};
pub use running::{run_all_lines, run_lines};
pub use status::Status;
pub use words::append_words;
pub use writing::write_all;
