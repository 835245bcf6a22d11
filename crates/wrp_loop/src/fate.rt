//! What becomes of a datagram that a link gave.
ghost use Rattle.std.specs.Prelude.{◌≡◌, ◌↔◌, true};
ghost use Rattle.wrp_loop.specs.Datagrams.{IsBy, IsFate, Way};
ghost use Rattle.wrp_loop.specs.LoopRun.{LoopAt, Plan, events_at};
ghost use Rattle.wrp_loop.specs.LoopStands.{Carries};

use crate::network::{LoopCourse, LoopedNetwork};
use crate::routes::Route;
use wrp_base::PortIdentity;
use wrp_frame::decode;

/// What becomes of a datagram.
#[derive(Clone, Copy, Debug, PartialEq, Eq)]
pub enum Fate {
    /// It is this frame, which is handed over.
    Handed(u32),
    /// It says a message of the peer, and is not a frame of the peer.
    Forged,
    /// It is neither.
    Noisy,
}

// Whether octets say a message of a port.
fn is_by(port: PortIdentity, octets: &[u8]) -> bool
    ensures { (result ≡ true) ↔ IsBy port octets.now }
{
    match decode(octets) {
        Ok(message) => message.head.source == port,
        Err(_) => false,
    }
}

/// What becomes of a datagram with these octets that came by this route. It may be a frame of that way with
/// these octets that has arrived and is young: the least numbered one that was not handed over yet, or, if
/// there is none, the greatest. Otherwise it is forged if it says a message of the peer, and noise if it
/// does not.
pub fn fate_of<F: Fn(i64) -> i64>(
    network: &LoopedNetwork<F>,
    course: &LoopCourse,
    route: Route,
    octets: &[u8],
) -> Fate
    ensures { (x : Plan) (l : LoopAt) (way : Way)
        → Carries F.post x network.now course.now l way route
        → IsFate x.setting (events_at l) way octets.now result }
{
    match course.index.find(&network.world, route.from, octets) {
        Some(number) => Fate::Handed(number),
        None => {
            if is_by(route.peer, octets) {
                Fate::Forged
            } else {
                Fate::Noisy
            }
        }
    }
}
