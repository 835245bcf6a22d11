//! Cases on the `track` lines of a run: words and input are as in a case `run`, and for each node and each bound that
//! its lines print a line `NODE BOUND` is expected, in the order in which they come first. A line whose true offset is
//! beyond its bound is printed whole.
use crate::running::{AT_ONCE, borrowed, ran};
use std::alloc::{AllocError, Global};
use wrp_suite::{Answer, Case};

// The node and the bound of a `track` line, and its true offset; none of any other line.
fn track_of(line: &str) -> Option<(&str, &str, &str)> {
    let mut words = line.split(' ');
    let node = words.next()?;
    if words.nth(1)? != "track" {
        return None;
    }
    let bound = words.nth(1)?;
    let off = words.nth(1)?;
    Some((node, bound, off))
}

// Whether an offset is within a bound.
fn is_within(off: &str, bound: &str) -> bool {
    match (off.parse::<i64>(), bound.parse::<u64>()) {
        (Ok(off), Ok(bound)) => off.unsigned_abs() <= bound,
        _ => false,
    }
}

// Appends a line that is not there yet.
fn push_once(told: &mut String, line: &str) -> Result<(), AllocError> {
    if !told.lines().any(|other| other == line) {
        told.push_str(line)?;
        told.push('\n')?;
    }
    Ok(())
}

// Appends the bound of a `track` line, or the whole line.
fn tell_line(alloc: Global, told: &mut String, line: &str) -> Result<(), AllocError> {
    match track_of(line) {
        Some((node, bound, off)) if is_within(off, bound) => {
            push_once(told, format!(in alloc; "{node} {bound}")?.as_str())
        }
        Some(_) => push_once(told, line),
        None => Ok(()),
    }
}

/// What the `track` lines of a run give.
pub fn answer(alloc: Global, case: &Case) -> Result<Answer, AllocError> {
    let words = borrowed(alloc, &case.words)?;
    let ended = ran(alloc, &words, &case.input, AT_ONCE)?;
    let mut told = String::new(alloc);
    for line in str::from_utf8(&ended.octets).unwrap_or("").lines() {
        tell_line(alloc, &mut told, line)?;
    }
    Ok(Answer::of(ended.status.number(), told))
}
