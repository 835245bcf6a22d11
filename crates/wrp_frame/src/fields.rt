//! Reads the Timestamp and the PortIdentity at a place of the octets.
ghost use Rattle.std.specs.Prelude.{◌≡◌, ◌+◌, ◌≤◌, length};
ghost use Rattle.wrp_frame.specs.Fields.{timestamp_at, identity_at};

use crate::places::{NANOS_WITHIN, PORT_WITHIN};
use wrp_base::{PortIdentity, Ts};
use wrp_tlv::numbers::{u16_at, u32_at, u48_at, u64_at};

/// The Timestamp in the 10 octets from `at` on.
pub fn read_timestamp(octets: &[u8], at: usize) -> Ts
    requires { at + 10 ≤ length octets.now }
    ensures { result ≡ timestamp_at at octets.now }
{
    Ts {
        seconds: u48_at(octets, at),
        nanos: u32_at(octets, at + NANOS_WITHIN),
    }
}

/// The PortIdentity in the 10 octets from `at` on.
pub fn read_identity(octets: &[u8], at: usize) -> PortIdentity
    requires { at + 10 ≤ length octets.now }
    ensures { result ≡ identity_at at octets.now }
{
    PortIdentity {
        clock: u64_at(octets, at),
        port: u16_at(octets, at + PORT_WITHIN),
    }
}
