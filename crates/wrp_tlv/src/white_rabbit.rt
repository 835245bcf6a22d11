//! What the value of a White Rabbit TLV says (White Rabbit Specification 2.0).
ghost use Rattle.std.specs.Prelude.{◌≡◌};
ghost use Rattle.wrp_tlv.specs.WhiteRabbit.{wr_read, read_by_id, HaveOneValue};

use crate::numbers::{u16_at, u32_at, u48_at, u64_at};
use wrp_base::WrMsg;

/// organizationId 08 00 30 and organizationSubType DE AD 01: a White Rabbit value begins with them.
pub const WHITE_RABBIT: u64 = 0x0800_30DE_AD01;
/// The octets of organizationId and organizationSubType.
pub const PREFIX_LENGTH: usize = 6;
/// Those octets and the White Rabbit id after them.
pub const ID_LENGTH: usize = 8;

/// White Rabbit id of SLAVE_PRESENT.
pub const SLAVE_PRESENT: u16 = 0x1000;
/// White Rabbit id of LOCK.
pub const LOCK: u16 = 0x1001;
/// White Rabbit id of LOCKED.
pub const LOCKED: u16 = 0x1002;
/// White Rabbit id of CALIBRATE.
pub const CALIBRATE: u16 = 0x1003;
/// White Rabbit id of CALIBRATED.
pub const CALIBRATED: u16 = 0x1004;
/// White Rabbit id of WR_MODE_ON.
pub const WR_MODE_ON: u16 = 0x1005;
/// White Rabbit id of ANN_SUFIX, the suffix of an Announce.
pub const ANN_SUFIX: u16 = 0x2000;

/// The lengthField of CALIBRATE.
pub const CALIBRATE_LENGTH: usize = 14;
/// The lengthField of CALIBRATED.
pub const CALIBRATED_LENGTH: usize = 24;
/// The lengthField of the suffix.
pub const SUFFIX_LENGTH: usize = 10;

/// What the value of an ORGANIZATION_EXTENSION says.
#[derive(Clone, Copy, Debug, PartialEq, Eq)]
pub enum WrRead {
    /// A White Rabbit message.
    Wr(WrMsg),
    /// The wrFlags of a White Rabbit suffix.
    Suffix(u16),
    /// No White Rabbit value, or one of an id that is not listed.
    Other,
    /// A White Rabbit value without an id, or with another length than its id has.
    BadWr,
}

/// What the value of an ORGANIZATION_EXTENSION says. `Other` if it is no value of White Rabbit, or
/// has an id that is not listed; `BadWr` if no id follows, or the id has another length.
#[tactic(auto, unfolding(crate::specs::WhiteRabbit::wr_read))]
pub fn wr_of(value: &[u8]) -> WrRead
    ensures { result ≡ wr_read value.now }
{
    if value.len() < PREFIX_LENGTH || u48_at(value, 0) != WHITE_RABBIT {
        return WrRead::Other;
    }
    if value.len() < ID_LENGTH {
        return WrRead::BadWr;
    }
    by_id(u16_at(value, PREFIX_LENGTH), value)
}

/// Only the value as which a message is sent is read as that message, and the same holds of a
/// suffix.
pub fn one_value()
    ensures { HaveOneValue }
{}

// What a White Rabbit value of this id says.
#[tactic(auto, unfolding(crate::specs::WhiteRabbit::read_by_id))]
fn by_id(id: u16, value: &[u8]) -> WrRead
    ensures { result ≡ read_by_id id value.now }
{
    match (id, value.len()) {
        (SLAVE_PRESENT, ID_LENGTH) => WrRead::Wr(WrMsg::Present),
        (LOCK, ID_LENGTH) => WrRead::Wr(WrMsg::Lock),
        (LOCKED, ID_LENGTH) => WrRead::Wr(WrMsg::Locked),
        (CALIBRATE, CALIBRATE_LENGTH) => WrRead::Wr(WrMsg::Calibrate {
            pattern: value[8],
            retry: value[9],
            period: u32_at(value, 10),
        }),
        (CALIBRATED, CALIBRATED_LENGTH) => WrRead::Wr(WrMsg::Calibrated {
            tx: u64_at(value, 8),
            rx: u64_at(value, 16),
        }),
        (WR_MODE_ON, ID_LENGTH) => WrRead::Wr(WrMsg::ModeOn),
        (ANN_SUFIX, SUFFIX_LENGTH) => WrRead::Suffix(u16_at(value, 8)),
        (SLAVE_PRESENT..=WR_MODE_ON | ANN_SUFIX, _) => WrRead::BadWr,
        _ => WrRead::Other,
    }
}
