//! TLVs, and the White Rabbit messages and suffixes that they carry: the TLV at a place of the
//! octets, what its value says, and the TLV of a message appended to a frame (IEEE 1588-2019, White
//! Rabbit Specification 2.0).
#![tactic(auto)]

pub mod appending;
pub mod numbers;
mod tlv;
mod white_rabbit;
mod writing;

pub use tlv::{ORGANIZATION_EXTENSION, Tlv, TlvFault, tlv_at};
pub use white_rabbit::{WrRead, one_value, wr_of};
pub use writing::{SUFFIX_TLV_LENGTH, put_suffix, put_wr, wr_length};
