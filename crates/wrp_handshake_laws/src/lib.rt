//! Why no port of a link is in WR_LINK_ON unless its peer went through the same handshake: laws over one
//! link, its two ports and the messages between them, whatever is lost, late, repeated or of an earlier
//! carrier. The functions do nothing; their contracts are the laws. The names of messages and states are
//! the names of the White Rabbit Specification 2.0; the handshake table, the life of a frame and the
//! quiet time are this project's profile.
#![tactic(auto)]

mod laws;

pub use laws::{
    carrier_with_its_module, marks_are_a_history, master_stays_from_lock, on_in_the_same_handshake,
    on_with_the_deltas, quiet_time_outlives_frames, slave_on_with_its_master,
    slave_stays_from_locked, worked_handshake,
};
