//! The frames of a White Rabbit node: octets read as the PTP messages of six kinds, with the White
//! Rabbit message or suffix among their TLVs, and each such message written as octets (IEEE
//! 1588-2019, White Rabbit Specification 2.0). Which fields are kept, which are free and which
//! faults refuse a frame is this project's profile.
#![tactic(auto)]

mod body;
mod fault;
mod fields;
mod found;
mod header;
mod message_type;
mod places;
mod reading;
mod writing;

pub use fault::FrameFault;
pub use reading::{decode, one_message};
pub use writing::encode;
