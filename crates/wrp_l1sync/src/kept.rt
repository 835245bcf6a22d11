//! A message of the peer, and how long it counts.
ghost use Rattle.std.specs.Prelude.{◌≡◌};
ghost use Rattle.wrp_l1sync.specs.PortAt.{aged};

use crate::L1Msg;
use wrp_timer::Timer;

/// The last message of the peer.
#[derive(Debug, Drop)]
pub struct Kept {
    /// The message.
    pub msg: L1Msg,
    /// The ticks for which it is still kept.
    pub left: Timer,
}

/// A kept message one tick later: with the last of its ticks it is forgotten. None if none was kept, or
/// if its last tick has passed.
pub fn age(kept: Option<Kept>) -> Option<Kept>
    ensures { result ≡ aged kept }
{
    match kept {
        Some(Kept { msg, mut left }) => {
            if left.tick() {
                None
            } else {
                Some(Kept { msg, left })
            }
        }
        None => None,
    }
}
