//! Times of stamps in a line.
ghost use Rattle.std.specs.Prelude.{◌≡◌, IfSome};
ghost use Rattle.wrp_trace.specs.Times.{time_of};
ghost use Rattle.wrp_course.specs.EventAt.{IsTime};

use wrp_base::Tau;
use wrp_fields::number;

// The greatest time of a stamp, in tau: 2^92.
const MOST_TIME: i128 = 1 << 92;

// A stamp is a multiple of this, in tau.
const TIME_UNIT: u128 = 1_000;

/// The time of a stamp, in tau: 0 to 2^92, a multiple of 1,000. None if the text is not such a
/// number.
pub fn time(text: &[u8]) -> Option<Tau>
    ensures value { result ≡ time_of text.now }
    ensures range { IfSome result IsTime }
{
    let time = number(text, 0, MOST_TIME)?;
    if time.unsigned_abs() % TIME_UNIT == 0 {
        Some(time)
    } else {
        None
    }
}
