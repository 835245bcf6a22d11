//! The words of `wrnet`: which command a command line asks for, by one table of commands with a row for each: its name, its option and
//! what it asks for. `read_words` reads a command line with the kit's crate `clap`. Another word for a command changes this crate, and
//! nothing that is expected of a run. Words are this project's profile.
#![tactic(auto)]

mod alone;
mod command_line;
mod fields;
mod parse;
mod refusals;
mod rows;

pub use parse::read_words;
pub use refusals::USAGE_LINE;
pub use rows::lines_are_of_rows;
