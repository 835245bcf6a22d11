//! What a port makes of a message that comes.
ghost use Rattle.std.specs.Prelude.{◌≡◌, ◌≤◌, IfSome};
ghost use Rattle.wrp_data.specs.Reason.{number_of};
ghost use Rattle.wrp_port.specs.Hearing.{is_open, is_addressed, early_reason, is_certain};

use crate::setting::Setting;
use wrp_base::{Body, EVERY_PORT, Head, LinkWord, PtpMsg};
use wrp_data::{PortDs, Reason};
use wrp_link::Link;

/// synchronizationUncertain.
const UNCERTAIN: u16 = 0x0040;

/// Whether a port with this link takes messages and keeps its schedule.
pub fn is_open(link: &Link) -> bool
    ensures { result ≡ is_open link.now }
{
    match link.word() {
        LinkWord::Down | LinkWord::Quiet => false,
        LinkWord::Ptp | LinkWord::In(_) => true,
    }
}

// Whether a body is for the port.
fn is_addressed(ds: &PortDs, body: &Body) -> bool
    ensures { result ≡ is_addressed ds.now body.now }
{
    match *body {
        Body::Signal { target, .. } => target == ds.own || target == EVERY_PORT,
        Body::DelayResp { requesting, .. } => requesting == ds.own,
        _ => true,
    }
}

/// The reason for which a message is dropped whatever its kind, the first that applies: Domain, of
/// another domain; Stranger, not from the peer; NotForUs, a Signaling or Delay_Resp for another port;
/// Quiet, at a port that is not open. None if there is no such reason. Nothing changes.
pub fn early_reason(set: &Setting, link: &Link, message: &PtpMsg) -> Option<Reason>
    ensures value { result ≡ early_reason set.now link.now message.now }
    ensures range { IfSome result (λ reason. (9 ≤ number_of reason) × (number_of reason ≤ 12)) }
{
    if message.head.domain != set.own.domain {
        return Some(Reason::Domain);
    }
    if message.head.source != set.ds.peer {
        return Some(Reason::Stranger);
    }
    if !is_addressed(&set.ds, &message.body) {
        return Some(Reason::NotForUs);
    }
    if is_open(link) {
        None
    } else {
        Some(Reason::Quiet)
    }
}

/// Whether an Announce with this header is of a parent whose time is certain.
pub fn is_certain(head: &Head) -> bool
    ensures { result ≡ is_certain head.now }
{
    head.flags & UNCERTAIN == 0
}
