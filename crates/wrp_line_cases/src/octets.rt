//! Octets as text and back: two hex digits for each, and `none` for no octets.
use std::alloc::{AllocError, Global};
use wrp_base::Frame;
use wrp_suite::Fault;

/// The digits of octets.
pub fn digits_of(alloc: Global, octets: &[u8]) -> Result<String, AllocError> {
    if octets.is_empty() {
        return "none".to_string(alloc);
    }
    hex::encode(alloc, octets)
}

/// The frame of digits.
pub fn frame_of(alloc: Global, digits: &str) -> Result<Frame, Fault> {
    let mut frame = Frame::new();
    if digits == "none" {
        return Ok(frame);
    }
    match hex::decode(alloc, digits) {
        Ok(octets) if frame.try_extend_from_slice(&octets).is_ok() => Ok(frame),
        Err(hex::FromHexError::OutOfMemory) => Err(Fault::Memory),
        _ => Err(Fault::Input),
    }
}
