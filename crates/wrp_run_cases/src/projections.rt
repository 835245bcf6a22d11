//! Cases on an audit and the replays of what it gives its nodes: the words are nodes, and for each of them a line
//! `NODE again` is expected if the replay prints the node's lines of the audit without their true offsets; else what
//! the replay prints comes in its place. The status is the audit's, which has to print something.
use crate::running::{AT_ONCE, Ended, ran};
use crate::texts::{push_line, text_of, with_records};
use std::alloc::{AllocError, Global};
use wrp_run::Status;
use wrp_suite::{Answer, Case, Fault};

// The lines of a node in the text of an audit, without the true offsets.
fn lines_of(alloc: Global, text: &str, node: &str) -> Result<String, AllocError> {
    let mut lines = String::new(alloc);
    for line in text.lines() {
        if line.split(' ').next() == Some(node) {
            push_line(&mut lines, line.split(" true ").next().unwrap_or(line))?;
        }
    }
    Ok(lines)
}

// The replay of what an audit gives a node.
fn replayed(alloc: Global, input: &[u8], node: &str) -> Result<Ended, Fault> {
    let emitted = ran(alloc, &["audit", "--emit", node], input, AT_ONCE)?;
    let records = with_records(alloc, input, text_of(&emitted)?)?;
    Ok(ran(
        alloc,
        &["replay", "--node", node],
        records.as_bytes(),
        AT_ONCE,
    )?)
}

// Appends whether the replay of a node gives its lines of an audit.
fn tell_node(
    alloc: Global,
    told: &mut String,
    case: &Case,
    audit: &str,
    node: &str,
) -> Result<(), Fault> {
    let replay = replayed(alloc, &case.input, node)?;
    let text = text_of(&replay)?;
    let lines = lines_of(alloc, audit, node)?;
    if replay.status == Status::Done && text == lines.as_str() {
        told.push_str(node)?;
        told.push_str(" again\n")?;
    } else {
        told.push_str(text)?;
    }
    Ok(())
}

/// What the replays of its nodes are, beside an audit.
pub fn answer(alloc: Global, case: &Case) -> Result<Answer, Fault> {
    let audit = ran(alloc, &["audit"], &case.input, AT_ONCE)?;
    let text = text_of(&audit)?;
    if text.is_empty() {
        return Err(Fault::Condition);
    }
    let mut told = String::new(alloc);
    for node in case.words.iter() {
        tell_node(alloc, &mut told, case, text, node.as_str())?;
    }
    Ok(Answer::of(audit.status.number(), told))
}
