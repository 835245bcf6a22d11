//! Cases on `run`: the status, and the octets that the sink takes. A case may set for how many octets the sink has
//! `room`; which call of the `source` and of the `sink` fails, counted from 1, and which of the link, as `link_call`;
//! how many octets the source `gives` and the sink `takes` at most at a call; how many `calls` the link takes, 0 if it
//! is left out; and how many octets at least are `left` in the source after the run.
use crate::running::{AT_ONCE, Ended, Way, borrowed, ran};
use std::alloc::{AllocError, Global};
use wrp_run::Status;
use wrp_suite::{Answer, Case};

// The room beyond what is expected, so that a run which writes too much shows what it writes.
const BEYOND: usize = 4_096;

// A number that a case sets, or its default.
fn number_or(case: &Case, name: &str, other: usize) -> usize {
    match case.setting(name) {
        Some(number) => number as usize,
        None => other,
    }
}

/// How the octets of a case come and go.
pub fn way_of(case: &Case) -> Way {
    Way {
        gives: number_or(case, "gives", AT_ONCE.gives),
        source: case.setting("source").unwrap_or(AT_ONCE.source),
        breaks: AT_ONCE.breaks,
        takes: number_or(case, "takes", AT_ONCE.takes),
        sink: case.setting("sink").unwrap_or(AT_ONCE.sink),
        room: number_or(case, "room", case.due.len().saturating_add(BEYOND)),
        calls: case.setting("calls").unwrap_or(AT_ONCE.calls),
        link: case.setting("link_call").unwrap_or(AT_ONCE.link),
    }
}

// Whether a text is one line, which goes on with further commands after what is expected: the usage line grows with
// the program.
fn goes_on(text: &[u8], due: &[u8]) -> bool {
    let Some(line) = due.strip_suffix(b"\n") else {
        return false;
    };
    let Some(more) = text.strip_prefix(line) else {
        return false;
    };
    let ends = text.iter().filter(|octet| **octet == b'\n').count();
    ends == 1 && more.ends_with(b"\n") && more.starts_with(b" | ")
}

// Appends what is left in the source, if that is less than what is expected.
fn tell_left(
    alloc: Global,
    octets: &mut Vec<u8>,
    case: &Case,
    left: usize,
) -> Result<(), AllocError> {
    if left < number_or(case, "left", 0) {
        let told = format!(in alloc; "left {left}\n")?;
        octets.extend_from_slice(told.as_bytes())?;
    }
    Ok(())
}

/// What `run` answers. Of the usage line only the front is expected.
pub fn answer(alloc: Global, case: &Case) -> Result<Answer, AllocError> {
    let words = borrowed(alloc, &case.words)?;
    let Ended {
        status,
        mut octets,
        left,
        reads: _reads,
        before: _before,
    } = ran(alloc, &words, &case.input, way_of(case))?;
    if status == Status::Usage && goes_on(&octets, &case.due) {
        octets = case.due.as_slice().to_vec(alloc)?;
    }
    tell_left(alloc, &mut octets, case, left)?;
    Ok(Answer {
        status: status.number(),
        octets,
    })
}
