//! Appends numbers to a frame, big-endian.
ghost use Rattle.std.specs.Prelude.{◌≡◌, ◌<◌, ◌^◌, length};
ghost use Rattle.std.specs.Int.{w16, w64, cast_signed, cast_unsigned};
ghost use Rattle.byteorder.specs.Endian.{big_bytes};
ghost use Rattle.wrp_tlv.specs.Appending.{Appends, HasRoom};

use byteorder::{BigEndian, ByteOrder};
use wrp_base::Frame;

/// Appends an octet.
pub fn put_u8(number: u8, out: &mut Frame)
    requires { HasRoom 1 out.old }
    ensures items { Appends out.old (big_bytes 1 number) out.new }
    ensures fits { number < 256 ^ 1 }
{
    out.push(number);
}

/// Appends a number in 2 octets.
pub fn put_u16(number: u16, out: &mut Frame)
    requires { HasRoom 2 out.old }
    ensures items { Appends out.old (big_bytes 2 number) out.new }
    ensures fits { number < 256 ^ 2 }
{
    let mut octets = [0u8; 2];
    BigEndian::write_u16(&mut octets, number);
    put_all(&octets, out);
}

/// Appends a number in 4 octets.
pub fn put_u32(number: u32, out: &mut Frame)
    requires { HasRoom 4 out.old }
    ensures items { Appends out.old (big_bytes 4 number) out.new }
    ensures fits { number < 256 ^ 4 }
{
    let mut octets = [0u8; 4];
    BigEndian::write_u32(&mut octets, number);
    put_all(&octets, out);
}

/// Appends a number below `2^48` in 6 octets.
pub fn put_u48(number: u64, out: &mut Frame)
    requires room { HasRoom 6 out.old }
    requires fits { number < 2 ^ 48 }
    ensures items { Appends out.old (big_bytes 6 number) out.new }
{
    let mut octets = [0u8; 6];
    BigEndian::write_u48(&mut octets, number);
    put_all(&octets, out);
}

/// Appends a number in 8 octets.
pub fn put_u64(number: u64, out: &mut Frame)
    requires { HasRoom 8 out.old }
    ensures items { Appends out.old (big_bytes 8 number) out.new }
    ensures fits { number < 256 ^ 8 }
{
    let mut octets = [0u8; 8];
    BigEndian::write_u64(&mut octets, number);
    put_all(&octets, out);
}

/// Appends a signed number in 2 octets.
pub fn put_i16(number: i16, out: &mut Frame)
    requires { HasRoom 2 out.old }
    ensures items { Appends out.old (big_bytes 2 (cast_unsigned w16 number)) out.new }
    ensures fits { cast_unsigned w16 number < 256 ^ 2 }
    ensures read_back { cast_signed w16 (cast_unsigned w16 number) ≡ number }
{
    put_u16(number.cast_unsigned(), out);
}

/// Appends a signed number in 8 octets.
pub fn put_i64(number: i64, out: &mut Frame)
    requires { HasRoom 8 out.old }
    ensures items { Appends out.old (big_bytes 8 (cast_unsigned w64 number)) out.new }
    ensures fits { cast_unsigned w64 number < 256 ^ 8 }
    ensures read_back { cast_signed w64 (cast_unsigned w64 number) ≡ number }
{
    put_u64(number.cast_unsigned(), out);
}

// Appends octets.
fn put_all(octets: &[u8], out: &mut Frame)
    requires { HasRoom (length octets.now) out.old }
    ensures { Appends out.old octets.now out.new }
{
    let _fits = out.try_extend_from_slice(octets);
}
