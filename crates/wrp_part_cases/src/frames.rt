//! `frame`: the input is the octets of a frame. The number of their fault is expected, or the message that they spell
//! and the octets that it is sent as.
ghost use Rattle.wrp_base.specs.Message.{IsSound};

use crate::printing::{push_body, push_head, push_octets};
use std::alloc::{AllocError, Global};
use wrp_base::PtpMsg;
use wrp_frame::{decode, encode};
use wrp_suite::{Answer, Case, Fault};

// Appends a message, and the octets that it is sent as.
fn tell(alloc: Global, text: &mut String, message: &PtpMsg) -> Result<(), AllocError>
    requires { IsSound message.now }
{
    push_head(text, message)?;
    push_body(text, &message.body)?;
    push_octets(alloc, text, encode(message).as_slice())
}

/// What `decode` answers, and `encode` of it.
pub fn answer(alloc: Global, case: &Case) -> Result<Answer, Fault> {
    let mut text = String::new(alloc);
    match decode(&case.input) {
        Ok(message) => {
            tell(alloc, &mut text, &message)?;
            Ok(Answer::of(0, text))
        }
        Err(fault) => Ok(Answer::of(fault.number(), text)),
    }
}
