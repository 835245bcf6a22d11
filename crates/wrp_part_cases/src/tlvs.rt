//! `tlv`: the input is octets, and the word is a place in them. The number of the fault of the TLV there is expected;
//! or its type, the places where its value begins and ends, and of an ORGANIZATION_EXTENSION what its value says; of a
//! White Rabbit message or suffix the TLV that it is sent as.
use crate::printing::{push_octets, push_suffix, push_wr};
use crate::words::{number_of, only_word};
use std::alloc::{AllocError, Global};
use wrp_base::{Frame, WrMsg};
use wrp_suite::{Answer, Case, Fault};
use wrp_tlv::{ORGANIZATION_EXTENSION, Tlv, TlvFault, WrRead, put_suffix, put_wr, tlv_at, wr_of};

// Appends a message, and its TLV.
fn tell_message(alloc: Global, text: &mut String, message: &WrMsg) -> Result<(), AllocError> {
    let mut sent = Frame::new();
    put_wr(message, &mut sent);
    push_wr(text, Some(message))?;
    push_octets(alloc, text, sent.as_slice())
}

// Appends a suffix, and its TLV.
fn tell_suffix(alloc: Global, text: &mut String, flags: u16) -> Result<(), AllocError> {
    let mut sent = Frame::new();
    put_suffix(flags, &mut sent);
    push_suffix(text, Some(flags))?;
    push_octets(alloc, text, sent.as_slice())
}

// Appends what a value says.
fn tell_value(alloc: Global, text: &mut String, value: &[u8]) -> Result<(), AllocError> {
    match wr_of(value) {
        WrRead::Wr(message) => tell_message(alloc, text, &message),
        WrRead::Suffix(flags) => tell_suffix(alloc, text, flags),
        WrRead::Other => text.push_str("other\n"),
        WrRead::BadWr => text.push_str("bad\n"),
    }
}

// Appends what a TLV is.
fn tell(alloc: Global, text: &mut String, octets: &[u8], tlv: Tlv) -> Result<(), Fault> {
    let Tlv { kind, from, to } = tlv;
    write!(text, "type {kind:04x}, value {from} to {to}\n")?;
    if kind != ORGANIZATION_EXTENSION {
        return Ok(());
    }
    match octets.get(from..to) {
        Some(value) => tell_value(alloc, text, value).map_err(Fault::from),
        None => Err(Fault::Condition),
    }
}

// Appends what the TLV at a place is. Returns the number of its fault, and 0 if it has none.
fn tell_at(alloc: Global, text: &mut String, octets: &[u8], place: usize) -> Result<u8, Fault> {
    if octets.len() <= place {
        return Err(Fault::Condition);
    }
    match tlv_at(octets, place) {
        Ok(tlv) => tell(alloc, text, octets, tlv).map(|()| 0),
        Err(TlvFault::TlvShort) => Ok(1),
        Err(TlvFault::TlvOverrun) => Ok(2),
    }
}

/// What `tlv_at` answers, and `wr_of` of the value.
pub fn answer(alloc: Global, case: &Case) -> Result<Answer, Fault> {
    let place = number_of::<usize>(only_word(case)?)?;
    let mut text = String::new(alloc);
    let status = tell_at(alloc, &mut text, &case.input, place)?;
    Ok(Answer::of(status, text))
}
