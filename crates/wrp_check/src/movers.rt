//! The messages that moved a port in a stretch, except SLAVE_PRESENT. Slices have the oldest mark first.
ghost use Rattle.std.specs.Prelude.{◌≡◌, ◌↔◌, ◌≤ℤ◌, IsTrue, MatchOption, reverse, slice_get};
ghost use Rattle.wrp_check.specs.Handshake.{AllBacked, AllSentIn};
ghost use Rattle.wrp_check.specs.Judged.{Lacks, LacksFirst};
ghost use Rattle.wrp_check.specs.Stretches.{Entered, HasMover, HasNoMover, movers_of};

use crate::required::required;
use crate::stretch::lies_in;
use wrp_base::{LinkState, Mark, Role, Tau, WrMsg};

// The message of a mark with its sending time, if it is one other than SLAVE_PRESENT.
fn mover(mark: &Mark) -> Option<(WrMsg, Tau)>
    ensures { MatchOption result (HasNoMover mark.now) (λ found. HasMover mark.now found) }
{
    match mark.by {
        Some((WrMsg::Present, _)) => None,
        by => by,
    }
}

// The last message of a stretch.
pub(crate) fn last_mover(own: &[Mark]) -> Option<(WrMsg, Tau)>
    ensures { result ≡ slice_get (movers_of (reverse own.now)) 0 }
{
    let mut last = None;
    for mark in own {
        if let Some(found) = mover(mark) {
            last = Some(found);
        }
    }
    last
}

// Whether all messages of a stretch were sent in a stretch of the peer.
pub(crate) fn all_sent_in(own: &[Mark], stretch: &[Mark]) -> bool
    ensures { IsTrue result ↔ AllSentIn (reverse stretch.now) (movers_of (reverse own.now)) }
{
    for mark in own {
        if let Some((_, at)) = mover(mark) {
            if !lies_in(at, stretch) {
                return false;
            }
        }
    }
    true
}

// Whether a mark enters a state, at or before a time.
fn enters(mark: &Mark, state: LinkState, time: Tau) -> bool
    ensures { IsTrue result ↔ ((mark.now.to ≡ state) × (mark.now.at ≤ℤ time)) }
{
    mark.to == state && mark.at <= time
}

// The first of these states that was not entered in the stretch after the states before it, at or before
// a time.
fn missing(states: &[LinkState], time: Tau, stretch: &[Mark]) -> Option<LinkState>
    ensures { MatchOption result (Entered time (reverse states.now) (reverse stretch.now))
        (λ state. Lacks states.now time (reverse stretch.now) state) }
{
    let mut entered = 0;
    for mark in stretch {
        if entered < states.len() && enters(mark, states[entered], time) {
            entered += 1;
        }
    }
    states.get(entered).copied()
}

// The first state that is missing for the first message whose required states are not all there.
pub(crate) fn first_missing(role: Role, own: &[Mark], stretch: &[Mark]) -> Option<LinkState>
    ensures { MatchOption result (AllBacked role (reverse stretch.now) (movers_of (reverse own.now)))
        (λ state. LacksFirst role (reverse stretch.now) (movers_of (reverse own.now)) state) }
{
    for mark in own {
        if let Some((message, at)) = mover(mark) {
            if let Some(state) = missing(required(role, message), at, stretch) {
                return Some(state);
            }
        }
    }
    None
}
