//! Two ends of a link that agree on coherence by periodic messages, after Annex L of IEEE 1588-2019:
//! the message and its TLV, the machine of one end, a pair of ends that hand each other's messages
//! over late, again or never, and the command `l1sync`, which reads what happens to a pair from lines
//! and writes what its ends do. The choices that the standard leaves open are this project's profile.
#![tactic(auto)]

mod event;
mod interface;
mod kept;
mod laws;
mod lines;
mod message;
mod one_end;
mod pair;
mod port;

pub use event::{L1Event, L1Refused};
pub use interface::{L1In, L1Out, L1State};
pub use laws::{
    answers_show_the_pair, events_are_taken_exactly, text_shows_the_pair, up_ends_agree,
    what_stands_shows_the_pair,
};
pub use lines::{L1Lines, l1sync};
pub use message::{L1Msg, l1_of, put_l1};
pub use pair::L1Pair;
pub use port::L1Port;
