//! The fields of lines, as the kit's crate `csv` reads them: the parts between the commas of one line, or
//! of each line of a block, and numbers. The law about `csv` is stated for plain lines. This crate knows
//! nothing of networks and can be used to read any lines. Plain lines and the numbers in them are this
//! project's profile.
#![tactic(auto)]

mod block;
mod fields;
mod numbers;
mod plain;

pub use block::Block;
pub use fields::{field, name_fault, number_at, number_fault};
pub use numbers::{natural, number, unsigned};
pub use plain::{is_plain, split};
