//! Reads the numbers at a place of the octets, big-endian.
ghost use Rattle.std.specs.Prelude.{◌≡◌, ◌+◌, ◌≤◌, length};
ghost use Rattle.wrp_tlv.specs.Octets.{number_at, signed_16_at, signed_64_at};

use byteorder::{BigEndian, ByteOrder};

/// The number in the 2 octets from `at` on.
pub fn u16_at(octets: &[u8], at: usize) -> u16
    requires { at + 2 ≤ length octets.now }
    ensures { result ≡ number_at at 2 octets.now }
{
    BigEndian::read_u16(&octets[at..])
}

/// The number in the 4 octets from `at` on.
pub fn u32_at(octets: &[u8], at: usize) -> u32
    requires { at + 4 ≤ length octets.now }
    ensures { result ≡ number_at at 4 octets.now }
{
    BigEndian::read_u32(&octets[at..])
}

/// The number in the 6 octets from `at` on.
pub fn u48_at(octets: &[u8], at: usize) -> u64
    requires { at + 6 ≤ length octets.now }
    ensures { result ≡ number_at at 6 octets.now }
{
    BigEndian::read_u48(&octets[at..])
}

/// The number in the 8 octets from `at` on.
pub fn u64_at(octets: &[u8], at: usize) -> u64
    requires { at + 8 ≤ length octets.now }
    ensures { result ≡ number_at at 8 octets.now }
{
    BigEndian::read_u64(&octets[at..])
}

/// The signed number in the 2 octets from `at` on.
pub fn i16_at(octets: &[u8], at: usize) -> i16
    requires { at + 2 ≤ length octets.now }
    ensures { result ≡ signed_16_at at octets.now }
{
    u16_at(octets, at).cast_signed()
}

/// The signed number in the 8 octets from `at` on.
pub fn i64_at(octets: &[u8], at: usize) -> i64
    requires { at + 8 ≤ length octets.now }
    ensures { result ≡ signed_64_at at octets.now }
{
    u64_at(octets, at).cast_signed()
}
