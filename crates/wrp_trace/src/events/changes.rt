//! The numbers of the further fields of a `pass`.
ghost use Rattle.std.specs.Prelude.{◌≡◌, ◌<◌, ◌+◌, IfSome, option_map, pos};
ghost use Rattle.wrp_fields.specs.Numbers.{unsigned_in};
ghost use Rattle.wrp_trace.specs.Changes.{change_in, move_in};
ghost use Rattle.wrp_course.specs.EventAt.{IsChange, IsMove};

use super::names::parts_at;
use wrp_fields::unsigned;

// The greatest change, in tau: 2^63 - 1.
const MOST_CHANGE: u64 = (1 << 63) - 1;

// How much a change is, in tau: 0 to 2^63 - 1. None if the text is not such a number, without a sign.
fn size_in(digits: &[u8]) -> Option<i64>
    ensures value { result ≡ option_map pos (unsigned_in 0 9_223_372_036_854_775_807 digits.now) }
    ensures range { IfSome result IsChange }
{
    let size = unsigned(digits, 0, MOST_CHANGE)?;
    Some(size as i64)
}

/// A change, in tau: within 2^63 - 1. None if the text is not such a number.
pub fn change_in(text: &[u8]) -> Option<i64>
    ensures value { result ≡ change_in text.now }
    ensures range { IfSome result IsChange }
{
    match text {
        [b'-', digits @ ..] => Some(-size_in(digits)?),
        digits => size_in(digits),
    }
}

/// MS/SM: the changes of both ways, each in tau and within 2^63 - 1. None if one of them is not
/// such a number.
pub fn move_in(text: &[u8]) -> Option<(i64, i64)>
    ensures value { result ≡ move_in text.now }
    ensures range { IfSome result IsMove }
{
    let (down, up) = parts_at(text, b'/');
    let ms = change_in(down)?;
    let sm = change_in(up)?;
    Some((ms, sm))
}

/// The place of a field, which is one more than the number of fields before it.
pub fn place_of(at: usize) -> u32
    requires { at < 1_000 }
    ensures { result ≡ at + 1 }
{
    at as u32 + 1
}
