//! Cases on a link in memory. Its calls are `start ENDS`, `send END OCTETS` and `receive END`, and their answers
//! `started`, `sent`, `gave OCTETS`, `gave nothing` and `failed`. At the end the calls that it reports are
//! expected, a call a line.
use crate::parts::push_line;
use std::alloc::{AllocError, Global};
use wrp_base::Frame;
use wrp_io::{Link, LinkCall, MemLink};
use wrp_suite::Fault;

// Appends how a call ended that gives nothing.
fn push_made(out: &mut Vec<u8>, is_good: bool, word: &str) -> Result<(), AllocError> {
    push_line(out, if is_good { word } else { "failed" })
}

// Receives at an end, and appends what came.
fn push_received(
    alloc: Global,
    out: &mut Vec<u8>,
    link: &mut MemLink,
    end: u32,
) -> Result<(), AllocError> {
    let mut frame = Frame::new();
    match link.recv(end, &mut frame) {
        Err(_) => push_line(out, "failed"),
        Ok(false) => push_line(out, "gave nothing"),
        Ok(true) => {
            let text = str::from_utf8(frame.as_slice()).unwrap_or("?");
            push_line(out, format!(in alloc; "gave {text}")?.as_str())
        }
    }
}

// Sends octets from an end.
fn push_sent(out: &mut Vec<u8>, link: &mut MemLink, end: u32, octets: &[u8]) -> Result<(), Fault> {
    if octets.len() > 256 {
        return Err(Fault::Condition);
    }
    Ok(push_made(out, link.send(end, octets).is_ok(), "sent")?)
}

/// The number of a text, as of an end.
pub fn number(text: &str) -> Result<u32, Fault> {
    text.parse::<u32>().ok().ok_or(Fault::Input)
}

// Makes a call, and appends its answer.
fn push_call(
    alloc: Global,
    out: &mut Vec<u8>,
    link: &mut MemLink,
    call: &str,
) -> Result<(), Fault> {
    let (word, rest) = call.split_once(' ').ok_or(Fault::Input)?;
    match word {
        "start" => {
            let is_good = link.start(number(rest)?).is_ok();
            Ok(push_made(out, is_good, "started")?)
        }
        "send" => {
            let (end, octets) = rest.split_once(' ').ok_or(Fault::Input)?;
            push_sent(out, link, number(end)?, octets.as_bytes())
        }
        "receive" => Ok(push_received(alloc, out, link, number(rest)?)?),
        _ => Err(Fault::Input),
    }
}

// The octets of a frame that came.
fn text_of(frame: &Option<Frame>) -> &str {
    match frame {
        Some(frame) => str::from_utf8(frame.as_slice()).unwrap_or("?"),
        None => "nothing",
    }
}

// Appends a call that the link reports.
fn push_told(alloc: Global, out: &mut Vec<u8>, call: &LinkCall) -> Result<(), AllocError> {
    let told = match call {
        LinkCall::Start(ends) => format!(in alloc; "told start {ends}")?,
        LinkCall::Send(end, frame) => {
            let text = str::from_utf8(frame.as_slice()).unwrap_or("?");
            format!(in alloc; "told send {end} {text}")?
        }
        LinkCall::Receive(end, frame) => {
            let text = text_of(frame);
            format!(in alloc; "told receive {end} {text}")?
        }
    };
    push_line(out, told.as_str())
}

/// What a link that takes so many calls, of which one fails, answers.
pub fn told_of_link(alloc: Global, takes: u32, bad: u32, calls: &str) -> Result<Vec<u8>, Fault> {
    let mut out = Vec::new(alloc);
    let mut link = MemLink::new(alloc, takes, vec![in alloc; bad]?)?;
    for call in calls.split_terminator('\n') {
        push_call(alloc, &mut out, &mut link, call)?;
    }
    for call in link.told() {
        push_told(alloc, &mut out, call)?;
    }
    Ok(out)
}
