//! The top call of `wrnet`: words and octets in, lines and a status out. `Answer`, in the folder `specs` of
//! `wrp_asked`, says which status and which octets are expected for words and an input, and `run` meets it in
//! both directions. Words, inputs, lines and statuses are this project's profile.
#![tactic(auto)]

mod alone;
mod command;
mod front;
mod looped;
mod network;

pub use command::run;
pub use wrp_records::Status;
