//! Cases in which each call of an object fails in its turn: of the source (`reads`), or of the sink (`writes`). Words,
//! input and numbers are as in a case `run`. What is expected is the number and the octets of the run in which no call
//! fails, and after them a line `calls N`: that run makes so many calls of the object, and each of them was tried. For
//! each failing call after which the run ends otherwise than it has to, a line `call K: status S, N octets` comes
//! before it.
//!
//! If a call of the source fails, the status is 5, and whole lines are written: the first ones of the run in which none
//! fails, and no fewer than if an earlier call fails. If a call of the sink fails, the status is 6, and the sink holds
//! what its calls before it took in the run in which none fails.
use crate::running::{Ended, borrowed, ran};
use crate::runs::way_of;
use std::alloc::{AllocError, Global};
use wrp_run::Status;
use wrp_suite::{Answer, Case};

// What is printed of the runs in which a call failed, and how many calls were tried.
#[derive(Drop)]
struct Tried {
    told: String,
    calls: u32,
}

impl Tried {
    // No call yet.
    fn new(alloc: Global) -> Tried {
        Tried {
            told: String::new(alloc),
            calls: 0,
        }
    }

    // The next call to fail.
    fn next(&mut self) -> u32 {
        self.calls = self.calls.saturating_add(1);
        self.calls
    }

    // Appends a run that ended otherwise than it has to.
    fn tell(&mut self, alloc: Global, ended: &Ended) -> Result<(), AllocError> {
        let (call, status) = (self.calls, ended.status.number());
        let count = ended.octets.len();
        let line = format!(in alloc; "call {call}: status {status}, {count} octets\n")?;
        self.told.push_str(line.as_str())
    }
}

// What came of a run in which no call failed, and of the runs in which one did.
fn answer_of(alloc: Global, whole: Ended, tried: Tried) -> Result<Answer, AllocError> {
    let Ended {
        status,
        mut octets,
        left: _left,
        reads: _reads,
        before: _before,
    } = whole;
    let Tried { told, calls } = tried;
    octets.extend_from_slice(told.as_bytes())?;
    octets.extend_from_slice(format!(in alloc; "calls {calls}\n")?.as_bytes())?;
    Ok(Answer {
        status: status.number(),
        octets,
    })
}

/// Whether octets are whole lines.
pub fn are_lines(octets: &[u8]) -> bool {
    octets.is_empty() || octets.ends_with(b"\n")
}

// Whether a run whose source failed ended as it has to, if so many octets were written when an earlier call failed.
fn is_cut_short(ended: &Ended, whole: &Ended, stood: usize) -> bool {
    ended.status == Status::ReadFault
        && are_lines(&ended.octets)
        && whole.octets.starts_with(&ended.octets)
        && stood <= ended.octets.len()
}

/// What becomes of a run when each call of its source fails in its turn.
pub fn reads(alloc: Global, case: &Case) -> Result<Answer, AllocError> {
    let words = borrowed(alloc, &case.words)?;
    let mut way = way_of(case);
    let whole = ran(alloc, &words, &case.input, way)?;
    let mut tried = Tried::new(alloc);
    let mut stood = 0;
    for _call in 0..whole.reads {
        way.source = tried.next();
        let ended = ran(alloc, &words, &case.input, way)?;
        if !is_cut_short(&ended, &whole, stood) {
            tried.tell(alloc, &ended)?;
        }
        stood = ended.octets.len();
    }
    answer_of(alloc, whole, tried)
}

/// What becomes of a run when each call of its sink fails in its turn.
pub fn writes(alloc: Global, case: &Case) -> Result<Answer, AllocError> {
    let words = borrowed(alloc, &case.words)?;
    let mut way = way_of(case);
    let whole = ran(alloc, &words, &case.input, way)?;
    let mut tried = Tried::new(alloc);
    for held in whole.before.iter() {
        way.sink = tried.next();
        let ended = ran(alloc, &words, &case.input, way)?;
        let stands = whole.octets.starts_with(&ended.octets) && ended.octets.len() == *held;
        if ended.status != Status::WriteFault || !stands {
            tried.tell(alloc, &ended)?;
        }
    }
    answer_of(alloc, whole, tried)
}
