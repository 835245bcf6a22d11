//! The White Rabbit link state machine of one port, in either role: what a message, an Announce, a
//! tick or a change of carrier does to the state of link setup, and which messages it sends. The
//! names of messages and states are the names of the White Rabbit Specification 2.0; the table of
//! their order, the timers, the quiet time and the holdoff are this project's profile.
#![tactic(auto)]

mod interface;
mod laws;
mod machine;

pub use interface::{LinkIn, LinkOut, LinkSet};
pub use laws::{
    each_state_in_its_turn, idle_keeps_no_deltas, one_message_turns_on, quiet_time_lasts,
    unheard_fails,
};
pub use machine::Link;
