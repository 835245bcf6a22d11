//! The stretches of a history: its parts outside IDLE. Slices have the oldest mark first.
ghost use Rattle.std.specs.Prelude.{◌≡◌, ◌↔◌, ◌<◌, ◌∷◌, ◌++◌, IsTrue, MatchOption, length, reverse};
ghost use Rattle.wrp_check.specs.Handshake.{IsNewestWith};
ghost use Rattle.wrp_check.specs.Stretches.{stretches_of, BeganBy, LastsTo, LiesIn, LiesInNone};

use wrp_base::{LinkState, Mark, Tau};

// The marks before the newest stretch of a history, and that stretch.
pub(crate) fn split_newest(marks: &[Mark]) -> (&[Mark], &[Mark])
    requires { 0 < length marks.now }
    ensures parts { marks.now ≡ result.0.now ++ result.1.now }
    ensures some { 0 < length result.1.now }
    ensures stretches { stretches_of (reverse marks.now) ≡ reverse result.1.now ∷ stretches_of (reverse result.0.now) }
{
    let mut start = 0;
    for (i, mark) in marks.iter().enumerate() {
        if mark.from == LinkState::Idle {
            start = i;
        }
    }
    marks.split_at(start)
}

// Whether the first mark of a stretch is not after a time.
fn began_by(time: Tau, stretch: &[Mark]) -> bool
    ensures { IsTrue result ↔ BeganBy time (reverse stretch.now) }
{
    match stretch.first() {
        Some(first) => first.at <= time,
        None => false,
    }
}

// Whether a time is not after the mark to IDLE of a stretch, if it has one.
fn lasts_to(time: Tau, stretch: &[Mark]) -> bool
    ensures { IsTrue result ↔ LastsTo time (reverse stretch.now) }
{
    match stretch.last() {
        Some(last) => last.to != LinkState::Idle || time <= last.at,
        None => false,
    }
}

// Whether a time lies in a stretch.
pub(crate) fn lies_in(time: Tau, stretch: &[Mark]) -> bool
    ensures { IsTrue result ↔ LiesIn time (reverse stretch.now) }
{
    began_by(time, stretch) && lasts_to(time, stretch)
}

// The newest stretch of a history in which a time lies.
pub(crate) fn stretch_with(time: Tau, marks: &[Mark]) -> Option<&[Mark]>
    ensures { MatchOption result (LiesInNone time (stretches_of (reverse marks.now)))
        (λ found. IsNewestWith time (stretches_of (reverse marks.now)) (reverse found.now)) }
{
    let mut older = marks;
    while !older.is_empty() {
        let (before, newest) = split_newest(older);
        if lies_in(time, newest) {
            return Some(newest);
        }
        older = before;
    }
    None
}
