//! Times on the wire.
ghost use Rattle.std.specs.Prelude.{◌≡◌, pos, ◌-◌, ◌<◌, ◌≤◌, ◌^◌, unsigned_abs};
ghost use Rattle.wrp_base.specs.Message.{FitsTimestamp};
ghost use Rattle.wrp_port.specs.Wire.{rest_of, timestamp_of, time_of, later_by, earlier_by, corrected_by};

use wrp_base::{Tau, Ts};

/// The tau in one nanosecond.
const NANOSECOND: u128 = 65_536_000;

/// The nanoseconds in one second.
const SECOND: u128 = 1_000_000_000;

// Both divide 128 bits, which is slow, and most inputs need none. They stay calls, so that the
// optimiser does not move the divisions to where every input passes.

/// The Timestamp of a reading, in tau.
#[inline(never)]
pub fn timestamp(reading: Tau) -> Ts
    requires { unsigned_abs reading ≤ 2 ^ 93 }
    ensures value { result ≡ timestamp_of (unsigned_abs reading) }
    ensures fits { FitsTimestamp result }
{
    let nanoseconds = reading.unsigned_abs() / NANOSECOND;
    Ts {
        seconds: (nanoseconds / SECOND) as u64,
        nanos: (nanoseconds % SECOND) as u32,
    }
}

/// The rest of a nanosecond of a reading, in units of the correctionField.
#[inline(never)]
pub fn rest(reading: Tau) -> i64
    ensures value { result ≡ pos (rest_of (unsigned_abs reading)) }
    ensures size { unsigned_abs result < 65_536 }
{
    (reading.unsigned_abs() % NANOSECOND / 1_000) as i64
}

/// The correctionField less the rest of a reading, held at the ends of its 64 bits.
pub fn corrected_field(correction: i64, reading: Tau) -> i64
    ensures { result ≡ corrected_by correction (unsigned_abs reading) }
{
    correction.saturating_sub(rest(reading))
}

// The time of a Timestamp, in tau.
fn time(t: Ts) -> Tau
    requires { FitsTimestamp t }
    ensures value { result ≡ pos (time_of t) }
    ensures size { unsigned_abs result < 2 ^ 104 - 2 ^ 80 }
{
    let nanoseconds = u128::from(t.seconds) * SECOND + u128::from(t.nanos);
    (nanoseconds * NANOSECOND) as i128
}

/// The time of a Timestamp with a correctionField added, in tau.
pub fn later(t: Ts, correction: i64) -> Tau
    requires { FitsTimestamp t }
    ensures value { result ≡ later_by t correction }
    ensures size { unsigned_abs result < 2 ^ 104 }
{
    time(t) + 1_000 * i128::from(correction)
}

/// The time of a Timestamp with a correctionField taken away, in tau.
pub fn earlier(t: Ts, correction: i64) -> Tau
    requires { FitsTimestamp t }
    ensures value { result ≡ earlier_by t correction }
    ensures size { unsigned_abs result < 2 ^ 104 }
{
    time(t) - 1_000 * i128::from(correction)
}
