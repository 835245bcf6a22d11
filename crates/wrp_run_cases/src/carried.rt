//! Cases on a loop over a link that carries what a script says: the words are the steps of the script, and
//! `loop --seed 1` runs over the input. What the run writes is expected; then the calls of the link, in a line
//! `start ENDS`, and a line for each datagram, with what was received after it, as numbers of octets:
//!
//!     send END OCTETS, receive END OCTETS, receive END nothing
//!
//! and, if the status is 0, a line `audit again`: the lines of the events, given to `audit`, print the other lines,
//! except for the line of forged datagrams. If they do not, what `audit` prints comes in its place.
use crate::running::{AT_ONCE, Ended, ran, ran_over};
use crate::scripted::Scripted;
use crate::texts::{push_line, text_of, with_records};
use std::alloc::{AllocError, Global};
use wrp_base::Frame;
use wrp_io::LinkCall;
use wrp_run::Status;
use wrp_suite::{Answer, Case, Fault};

// Appends a datagram that was received, or that none was.
fn tell_received(
    alloc: Global,
    told: &mut String,
    end: u32,
    frame: &Option<Frame>,
) -> Result<(), AllocError> {
    match frame {
        Some(frame) => {
            let octets = frame.len();
            told.push_str(format!(in alloc; ", receive {end} {octets}")?.as_str())
        }
        None => told.push_str(format!(in alloc; ", receive {end} nothing")?.as_str()),
    }
}

// Appends a call. A reception is on the line of the datagram that was sent before it.
fn tell_call(alloc: Global, told: &mut String, call: &LinkCall) -> Result<(), AllocError> {
    match call {
        LinkCall::Start(ends) => told.push_str(format!(in alloc; "start {ends}")?.as_str()),
        LinkCall::Send(end, frame) => {
            let octets = frame.len();
            told.push_str(format!(in alloc; "\nsend {end} {octets}")?.as_str())
        }
        LinkCall::Receive(end, frame) => tell_received(alloc, told, *end, frame),
    }
}

// The lines of the events of a loop, and its other lines.
fn parted(alloc: Global, text: &str) -> Result<(String, String), AllocError> {
    let mut events = String::new(alloc);
    let mut others = String::new(alloc);
    for line in text.lines() {
        match line.strip_prefix("= ") {
            Some(event) => push_line(&mut events, event)?,
            None => push_line(&mut others, line)?,
        }
    }
    Ok((events, others))
}

// Whether a text is the line of forged datagrams: one line of two words.
fn is_forged(text: &str) -> bool {
    text.starts_with("forged ") && text.lines().count() == 1 && text.split(' ').count() == 2
}

// Whether the lines of an audit are the other lines of a loop, except for the line of forged datagrams, the last one.
fn are_again(others: &str, audit: &str) -> bool {
    match others.strip_prefix(audit) {
        Some(rest) => rest.is_empty() || is_forged(rest),
        None => false,
    }
}

// Appends whether an audit of a loop's events prints its other lines.
fn tell_audit(alloc: Global, told: &mut String, input: &[u8], text: &str) -> Result<(), Fault> {
    let (events, others) = parted(alloc, text)?;
    let records = with_records(alloc, input, events.as_str())?;
    let audit = ran(alloc, &["audit"], records.as_bytes(), AT_ONCE)?;
    let again = text_of(&audit)?;
    if audit.status == Status::Done && are_again(others.as_str(), again) {
        told.push_str("audit again\n")?;
    } else {
        told.push_str(again)?;
    }
    Ok(())
}

// The text of a run, and of the calls of its link.
fn tell_run(alloc: Global, ended: &Ended, link: &Scripted<'_>) -> Result<String, Fault> {
    let mut told = String::new(alloc);
    told.push_str(text_of(ended)?)?;
    for call in link.told() {
        tell_call(alloc, &mut told, call)?;
    }
    told.push('\n')?;
    Ok(told)
}

/// What a loop writes over a link that carries what the words say.
pub fn answer(alloc: Global, case: &Case) -> Result<Answer, Fault> {
    let mut link = Scripted::new(alloc, &case.words);
    let ended = ran_over(
        alloc,
        &["loop", "--seed", "1"],
        &case.input,
        AT_ONCE,
        &mut link,
    )?;
    let mut told = tell_run(alloc, &ended, &link)?;
    if ended.status == Status::Done {
        tell_audit(alloc, &mut told, &case.input, text_of(&ended)?)?;
    }
    Ok(Answer::of(ended.status.number(), told))
}
