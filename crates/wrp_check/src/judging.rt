//! The judgement over the two histories.
ghost use Rattle.std.specs.Prelude.{◌≡◌, ◌↔◌, IsTrue, Result, reverse};
ghost use Rattle.wrp_check.specs.declared.verdict.Verdict.{Verdict as VerdictOf};
ghost use Rattle.wrp_check.specs.Judged.{Judges, LeadsOn};

use crate::Verdict;
use crate::movers::{all_sent_in, first_missing, last_mover};
use crate::stretch::{split_newest, stretch_with};
use wrp_base::{LinkState, Mark, Role};

// Whether the last mark of a history leads to WR_LINK_ON.
fn leads_on(marks: &[Mark]) -> bool
    ensures { IsTrue result ↔ LeadsOn (reverse marks.now) }
{
    match marks.last() {
        Some(mark) => mark.to == LinkState::LinkOn,
        None => false,
    }
}

// The verdict on a port of this role.
fn judgement(own: &[Mark], peer: &[Mark], role: Role) -> Result<(), Verdict>
    ensures { Judges role (reverse own.now) (reverse peer.now) result }
{
    if !leads_on(own) {
        return Err(Verdict::NotOn);
    }
    let (_, newest) = split_newest(own);
    let Some((_, at)) = last_mover(newest) else {
        return Err(Verdict::NoStretch);
    };
    let Some(stretch) = stretch_with(at, peer) else {
        return Err(Verdict::NoStretch);
    };
    if !all_sent_in(newest, stretch) {
        return Err(Verdict::NoStretch);
    }
    match first_missing(role, newest, stretch) {
        Some(state) => Err(Verdict::Missing { state }),
        None => Ok(()),
    }
}

/// Whether a port of this role, with the history `own`, came to WR_LINK_ON in the same handshake as its
/// peer. Both histories have the oldest mark first (this project's profile).
///
/// A stretch is a part of a history from a mark that leaves IDLE to the mark that leads back to it, or
/// to the end. The messages other than SLAVE_PRESENT that moved the port in its last stretch must all
/// have been sent in one stretch of the peer, the newest in which the last of them was sent; and before
/// each of them the peer must have entered there the states that it requires, in their order. Otherwise
/// the [`Verdict`] says why not.
pub fn judge(own: &[Mark], peer: &[Mark], role: Role) -> Result<(), Verdict>
    // Each verdict comes if and only if it is the one expected for the two histories, read from the
    // newest mark.
    ensures { (verdict : Result Unit VerdictOf) →
        (result ≡ verdict) ↔ Judges role (reverse own.now) (reverse peer.now) verdict }
{
    judgement(own, peer, role)
}
