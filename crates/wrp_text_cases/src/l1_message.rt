//! Cases on the L1_SYNC message: the input is the value of a TLV, whose octets may be any. A line `says REQ IS`
//! (`l1_of`) and a line `tlv HEX` with the octets of its TLV (`put_l1`) are expected; or `none` if it says nothing.
use std::alloc::{AllocError, Global};
use wrp_base::Frame;
use wrp_l1sync::{L1Msg, l1_of, put_l1};
use wrp_suite::{Answer, Case, Fault};

// What is printed of a message: what it says, and its TLV.
fn told_of(alloc: Global, message: &L1Msg) -> Result<String, AllocError> {
    let mut out = Frame::new();
    put_l1(message, &mut out);
    let L1Msg { req, is } = *message;
    let octets = hex::encode(alloc, out.as_slice())?;
    format!(in alloc; "says {req} {is}\ntlv {octets}\n")
}

/// What a value says, and the TLV of that.
pub fn answer(alloc: Global, case: &Case) -> Result<Answer, Fault> {
    let told = match l1_of(&case.input) {
        Some(message) => told_of(alloc, &message),
        None => "none\n".to_string(alloc),
    };
    Ok(Answer::of(0, told?))
}
