//! `verdict`: the word is the role of a port, and the input is its history, a line `---`, and the history of its peer.
//! Each line of a history is `AT FROM TO`, the time of a change and the states before and after it; after them may
//! come the sending time and the words of the message that moved the port. The verdict on the port is expected.
use crate::messages::message_of;
use crate::states::{state_of, state_text};
use crate::words::{Words, halves_of, only_word, role_of};
use std::alloc::{AllocError, Global};
use wrp_base::{LinkState, Mark, Tau, WrMsg};
use wrp_check::{Verdict, judge};
use wrp_suite::{Answer, Case, Fault};

// The message that moved a port with its sending time, if one did.
fn mover_of(words: &mut Words<'_>) -> Result<Option<(WrMsg, Tau)>, Fault> {
    if words.is_empty() {
        return Ok(None);
    }
    let sent = words.number::<i128>()?;
    let name = words.word()?;
    Ok(Some((message_of(name, words)?, sent)))
}

// The state of the next word.
fn next_state(words: &mut Words<'_>) -> Result<LinkState, Fault> {
    state_of(words.word()?)
}

// The change that a line gives.
fn mark_of(line: &str) -> Result<Mark, Fault> {
    let mut words = Words::of(line);
    let at = words.number::<i128>()?;
    let from = next_state(&mut words)?;
    let to = next_state(&mut words)?;
    let by = mover_of(&mut words)?;
    words.end()?;
    Ok(Mark { at, from, to, by })
}

// The history that lines give.
fn history_of(alloc: Global, lines: &str) -> Result<Vec<Mark>, Fault> {
    let mut marks = Vec::new(alloc);
    for line in lines.split_terminator('\n') {
        marks.push(mark_of(line)?)?;
    }
    Ok(marks)
}

// A verdict in words.
fn told(alloc: Global, verdict: Result<(), Verdict>) -> Result<String, AllocError> {
    match verdict {
        Ok(()) => "same handshake\n".to_string(alloc),
        Err(Verdict::NotOn) => "not on\n".to_string(alloc),
        Err(Verdict::NoStretch) => "no stretch\n".to_string(alloc),
        Err(Verdict::Missing { state }) => {
            let state = state_text(state);
            format!(in alloc; "missing {state}\n")
        }
    }
}

/// What `judge` answers.
pub fn answer(alloc: Global, case: &Case) -> Result<Answer, Fault> {
    let role = role_of(only_word(case)?)?;
    let (own, peer) = halves_of(case)?;
    let own = history_of(alloc, own)?;
    let peer = history_of(alloc, peer)?;
    Ok(Answer::of(0, told(alloc, judge(&own, &peer, role))?))
}
