//! The network file: a White Rabbit network as its users write it down in TOML, read into the network of
//! `wrp_config`, and every mistake in it with its code and its place (this project's profile).
#![tactic(auto)]

mod clash;
mod config;
mod ends;
mod greatest;
mod judging;
mod keys;
mod laws;
mod link_rows;
mod links;
mod reading;
mod settings;
mod tree;

pub use laws::{each_is_read, one_reading, reading_is_accepted};
pub use reading::ReadNetwork;
pub use wrp_base::ConfFault;
