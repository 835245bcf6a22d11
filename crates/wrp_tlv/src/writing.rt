//! Appends the TLV of a White Rabbit message or suffix to a frame.
ghost use Rattle.std.specs.Prelude.{◌≡◌, ◌<◌, ◌^◌, ◌++◌, length};
ghost use Rattle.byteorder.specs.Endian.{big_bytes};
ghost use Rattle.wrp_tlv.specs.declared.white_rabbit.WrRead.TheVariants.{Wr, Suffix};
ghost use Rattle.wrp_tlv.specs.Appending.{Appends, HasRoom};
ghost use Rattle.wrp_tlv.specs.TlvList.{tlv_octets, extension};
ghost use Rattle.wrp_tlv.specs.WhiteRabbit.{wr_read, wr_value, suffix_value, value_start};
ghost use Rattle.wrp_tlv.specs.WhiteRabbit.{id_of, data_of, FitsOctets};

use crate::appending::{put_u8, put_u16, put_u32, put_u48, put_u64};
use crate::tlv::{ORGANIZATION_EXTENSION, TLV_HEADER};
use crate::white_rabbit::{
    ANN_SUFIX, CALIBRATE, CALIBRATE_LENGTH, CALIBRATED, CALIBRATED_LENGTH, ID_LENGTH, LOCK, LOCKED,
    SLAVE_PRESENT, SUFFIX_LENGTH, WHITE_RABBIT, WR_MODE_ON,
};
use wrp_base::{Frame, WrMsg};

/// The octets of the whole TLV of a White Rabbit suffix.
pub const SUFFIX_TLV_LENGTH: usize = 14;

/// Appends the whole TLV of a White Rabbit message: 12, 18 or 28 octets.
pub fn put_wr(m: &WrMsg, out: &mut Frame)
    requires { HasRoom 28 out.old }
    ensures appended { Appends out.old (tlv_octets (extension (wr_value m.now))) out.new }
    ensures read_back { wr_read (wr_value m.now) ≡ Wr m.now }
{
    let (id, length) = row_of(m);
    put_start(id, length, out);
    put_data(m, out);
}

/// The octets of the whole TLV of a White Rabbit message: 12, 18 or 28.
pub fn wr_length(m: &WrMsg) -> usize
    ensures { result ≡ length (tlv_octets (extension (wr_value m.now))) }
{
    let (_id, length) = row_of(m);
    TLV_HEADER + length
}

/// Appends the whole TLV of a White Rabbit suffix with these wrFlags: 14 octets.
pub fn put_suffix(flags: u16, out: &mut Frame)
    requires { HasRoom 28 out.old }
    ensures appended { Appends out.old (tlv_octets (extension (suffix_value flags))) out.new }
    ensures read_back { wr_read (suffix_value flags) ≡ Suffix flags }
{
    put_start(ANN_SUFIX, SUFFIX_LENGTH, out);
    put_u16(flags, out);
}

// The id of a message and its lengthField.
fn row_of(m: &WrMsg) -> (u16, usize)
    ensures row { result ≡ (id_of m.now, length (wr_value m.now)) }
    ensures long { result.1 < 2 ^ 16 }
{
    match m {
        WrMsg::Present => (SLAVE_PRESENT, ID_LENGTH),
        WrMsg::Lock => (LOCK, ID_LENGTH),
        WrMsg::Locked => (LOCKED, ID_LENGTH),
        WrMsg::Calibrate { .. } => (CALIBRATE, CALIBRATE_LENGTH),
        WrMsg::Calibrated { .. } => (CALIBRATED, CALIBRATED_LENGTH),
        WrMsg::ModeOn => (WR_MODE_ON, ID_LENGTH),
    }
}

// Appends the data after the id.
fn put_data(m: &WrMsg, out: &mut Frame)
    requires { HasRoom 16 out.old }
    ensures appended { Appends out.old (data_of m.now) out.new }
    ensures fits { FitsOctets m.now }
{
    match *m {
        WrMsg::Calibrate {
            pattern,
            retry,
            period,
        } => {
            put_u8(pattern, out);
            put_u8(retry, out);
            put_u32(period, out);
        }
        WrMsg::Calibrated { tx, rx } => {
            put_u64(tx, out);
            put_u64(rx, out);
        }
        WrMsg::Present | WrMsg::Lock | WrMsg::Locked | WrMsg::ModeOn => {}
    }
}

// Appends tlvType, lengthField and the first 8 octets of the value: 12 octets.
fn put_start(id: u16, length: usize, out: &mut Frame)
    requires room { HasRoom 12 out.old }
    requires long { length < 2 ^ 16 }
    ensures { Appends out.old (big_bytes 2 0x0003 ++ big_bytes 2 length ++ value_start id) out.new }
{
    put_u16(ORGANIZATION_EXTENSION, out);
    put_u16(length as u16, out);
    put_u48(WHITE_RABBIT, out);
    put_u16(id, out);
}
