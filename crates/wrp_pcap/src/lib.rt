//! Captures of a link as the classic libpcap file format writes them, and the handshakes in them: the
//! header, the packets that follow one another, what a packet carries, and for each WR_MODE_ON whether
//! the messages of one handshake precede it. Only captures of Ethernet are read, and no packet of more
//! than 262,144 octets; that, and what counts as one handshake, is this project's profile.
#![tactic(auto)]

mod capture;
mod capture_laws;
mod chain;
mod content;
mod counts;
mod ethernet;
mod histories;
mod inspect_laws;
mod inspecting;
mod inspection;
mod laws;
mod packet_lines;
mod pairs;
mod pieces;
mod taking;
mod verdict;
mod words;

pub use capture::{CaptureFault, Front, Order, Refusal, captured_len, header, in_front};
pub use capture_laws::{
    captures_are_their_packets, files_have_one_reading, packets_stay, readings_go_on,
    worked_captures,
};
pub use content::{Content, content_of};
pub use ethernet::{frame_of, message_in};
pub use histories::marks;
pub use inspect_laws::{
    complete_is_judged, complete_names_handshake, cuts_are_first, handshakes_are_judged,
    one_is_due, packets_are_limited, refusals_stay, verdicts_are_due, worked_inspection,
};
pub use inspecting::inspect;
pub use inspection::Inspection;
pub use laws::{certificate_is_due, complete_rises, marks_of_eight, worked_certificates};
pub use pairs::Pairs;
pub use verdict::Verdict8;
pub use words::{frame_fault_word, kind_word, message_word};
