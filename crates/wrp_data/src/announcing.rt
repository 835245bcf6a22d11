//! What a master port sends in its Announce: the body, and the wrFlags of the suffix.
ghost use Rattle.std.specs.Prelude.{◌≡◌};
ghost use Rattle.wrp_data.specs.Announce.{announce_body, suffix_flags};

use crate::{DefaultDs, WrPortDs};
use wrp_base::{Body, Ts};

/// grandmasterPriority1 and grandmasterPriority2: the middle of their range.
const PRIORITY: u8 = 128;

/// grandmasterClockQuality: clockClass 248 (default), clockAccuracy 0xFE (unknown),
/// offsetScaledLogVariance 0xFFFF (the greatest).
const QUALITY: u32 = 0xF8FE_FFFF;

/// timeSource INTERNAL_OSCILLATOR.
const INTERNAL_OSCILLATOR: u8 = 0xA0;

/// wrConfig, bits 0 and 1 of wrFlags, of a port that can be a White Rabbit master only.
const MASTER_ONLY: u16 = 1;

/// calibrated, bit 2 of wrFlags.
const CALIBRATED: u16 = 1 << 2;

/// wrModeOn, bit 3 of wrFlags.
const MODE_ON: u16 = 1 << 3;

/// The body of a node's Announce, with these wrFlags as its suffix, if it sends one. It has the
/// dataset's grandmaster and stepsRemoved, no time, and the values of this project's profile.
pub fn announce_of(node: &DefaultDs, suffix: Option<u16>) -> Body
    ensures { result ≡ announce_body node.now suffix }
{
    Body::Announce {
        origin: Ts::default(),
        utc: 0,
        p1: PRIORITY,
        quality: QUALITY,
        p2: PRIORITY,
        gm: node.gm,
        steps: node.steps,
        source: INTERNAL_OSCILLATOR,
        suffix,
    }
}

/// The wrFlags of a master port's suffix: wrConfig 1 (master only), calibrated if the module is
/// known, wrModeOn if the link is on.
pub fn suffix_of(port: &WrPortDs) -> u16
    ensures { result ≡ suffix_flags port.now }
{
    let calibrated = if port.known { CALIBRATED } else { 0 };
    let mode_on = if port.on { MODE_ON } else { 0 };
    MASTER_ONLY + calibrated + mode_on
}
