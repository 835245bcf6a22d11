//! Numbers in a line.
ghost use Rattle.std.specs.Prelude.{◌≡◌, ◌-◌, ◌^◌, ◌<◌, ◌≤◌, ◌≤ℤ◌, length, min, IfSome, SomeIff, option_map, option_and_then, Some, pos, neg_ℤ, unsigned_abs};
ghost use Rattle.std.specs.List.{list_all};
ghost use Rattle.std.specs.Char.{is_ascii_digit};
ghost use Rattle.wrp_fields.specs.Numbers.{value_of, are_digits, digits_of, number_in, natural_in, unsigned_in, kept_in, held_in};

// The most digits that a number may have.
const MOST_DIGITS: usize = 39;

// A number with this many digits fits 64 bits.
const FEW_DIGITS: usize = 19;

// 10^19, by which the digits before the last 19 count.
const FEW_SCALE: u128 = 10_000_000_000_000_000_000;

// The greatest i128.
const MOST_SIZE: u128 = (1 << 127) - 1;

/// The number that a text writes, if it is from `least` to `greatest`: an optional `-`, then 1 to 39 digits.
/// Both limits are below `2^127 - 1` either way. None if the text is not such a number, or the number is out
/// of that range.
pub fn number(text: &[u8], least: i128, greatest: i128) -> Option<i128>
    requires least { unsigned_abs least < 2 ^ 127 - 1 }
    requires greatest { unsigned_abs greatest < 2 ^ 127 - 1 }
    ensures value { result ≡ number_in least greatest text.now }
    ensures range { IfSome result (λ z. (least ≤ℤ z) × (z ≤ℤ greatest)) }
{
    match text {
        [b'-', digits @ ..] => below_zero(digits, least, greatest),
        digits => kept(size(digits)?, least, greatest),
    }
}

// The number that `-` and some digits write, if it is from `least` to `greatest`.
#[tactic(auto, using(crate::proofs::HeldNumbers::opposite_kept))]
fn below_zero(digits: &[u8], least: i128, greatest: i128) -> Option<i128>
    requires least { unsigned_abs least < 2 ^ 127 - 1 }
    ensures value { result ≡ option_and_then (kept_in least greatest)
        (option_map (λ n. neg_ℤ (pos n)) (digits_of digits.now)) }
    ensures range { IfSome result (λ z. (least ≤ℤ z) × (z ≤ℤ greatest)) }
{
    kept(opposite(size(digits)?), least, greatest)
}

// `-number`.
fn opposite(number: i128) -> i128
    requires { unsigned_abs number < 2 ^ 127 }
    ensures { result ≡ neg_ℤ number }
{
    -number
}

/// The number that a text writes, if it is from `least` to `greatest`, which are at least 0: an optional
/// `-`, then 1 to 39 digits. `-0` is 0. None if the text is not such a number, or the number is out of that
/// range.
pub fn natural(text: &[u8], least: u64, greatest: u64) -> Option<u64>
    ensures value { result ≡ natural_in least greatest text.now }
    ensures range { IfSome result (λ n. (least ≤ n) × (n ≤ greatest)) }
{
    match text {
        [b'-', digits @ ..] => within(unsigned(digits, 0, 0)?, least, greatest),
        digits => unsigned(digits, least, greatest),
    }
}

/// The number that 1 to 39 digits without a sign write, if it is from `least` to `greatest`. None if the
/// text is not such a number, or the number is out of that range. It is computed in 64 bits.
pub fn unsigned(text: &[u8], least: u64, greatest: u64) -> Option<u64>
    ensures value { result ≡ unsigned_in least greatest text.now }
    ensures range { IfSome result (λ n. (least ≤ n) × (n ≤ greatest)) }
{
    if text.len() <= FEW_DIGITS {
        within(few_digits(text)?, least, greatest)
    } else if are_digits(text) {
        within(short_value(text)?, least, greatest)
    } else {
        None
    }
}

// The number of at most 19 digits, read in one pass. None if there is no octet, or an octet is not a digit.
fn few_digits(digits: &[u8]) -> Option<u64>
    requires { length digits.now ≤ 19 }
    ensures { result ≡ digits_of digits.now }
{
    if digits.is_empty() {
        return None;
    }
    let mut value = 0u64;
    for digit in digits {
        if !digit.is_ascii_digit() {
            return None;
        }
        value = 10 * value + u64::from(*digit - b'0');
    }
    Some(value)
}

// The number, if it is from `least` to `greatest`.
fn within(number: u64, least: u64, greatest: u64) -> Option<u64>
    ensures value { result ≡ held_in least greatest number }
    ensures range { IfSome result (λ n. (least ≤ n) × (n ≤ greatest)) }
{
    if least <= number && number <= greatest {
        Some(number)
    } else {
        None
    }
}

// The number, if it is from `least` to `greatest`.
fn kept(number: i128, least: i128, greatest: i128) -> Option<i128>
    ensures value { result ≡ kept_in least greatest number }
    ensures range { IfSome result (λ z. (least ≤ℤ z) × (z ≤ℤ greatest)) }
{
    if least <= number && number <= greatest {
        Some(number)
    } else {
        None
    }
}

// The number of 20 to 38 digits. It is read in two parts of 64 bits: the last 19 digits, and those before them.
// None if an octet is no digit.
fn many_digits(digits: &[u8]) -> Option<u128>
    requires least { 19 < length digits.now }
    requires most { length digits.now ≤ 38 }
    ensures { result ≡ digits_of digits.now }
{
    let (high, low) = digits.split_at(digits.len() - FEW_DIGITS);
    let high = few_digits(high)?;
    let low = few_digits(low)?;
    Some(u128::from(high) * FEW_SCALE + u128::from(low))
}

// The number of 1 to 39 digits, limited to the greatest i128.
fn size(digits: &[u8]) -> Option<i128>
    ensures value { result ≡ option_map (λ n. pos (min n (2 ^ 127 - 1))) (digits_of digits.now) }
    ensures range { IfSome result (λ z. unsigned_abs z < 2 ^ 127) }
{
    if digits.len() <= FEW_DIGITS {
        Some(i128::from(few_digits(digits)?))
    } else if digits.len() <= 2 * FEW_DIGITS {
        Some(many_digits(digits)?.min(MOST_SIZE) as i128)
    } else if are_digits(digits) {
        Some(value(digits).min(MOST_SIZE) as i128)
    } else {
        None
    }
}

// Whether octets are 1 to 39 digits.
fn are_digits(octets: &[u8]) -> bool
    ensures { result ≡ are_digits octets.now }
{
    1 <= octets.len() && octets.len() <= MOST_DIGITS && all_digits(octets)
}

// Whether all octets are digits.
fn all_digits(octets: &[u8]) -> bool
    ensures { result ≡ list_all is_ascii_digit octets.now }
{
    octets.iter().all(|octet| octet.is_ascii_digit())
}

// The value of some digits, limited to the greatest u128. Most numbers are small, and 64 bits are faster.
fn value(digits: &[u8]) -> u128
    ensures { result ≡ min (value_of digits.now) (2 ^ 128 - 1) }
{
    match short_value(digits) {
        Some(short) => u128::from(short),
        None => long_value(digits),
    }
}

// The value of some digits, if it fits 64 bits; most do.
fn short_value(digits: &[u8]) -> Option<u64>
    ensures { SomeIff result (value_of digits.now < 2 ^ 64) (value_of digits.now) }
{
    let mut value = 0u64;
    for digit in digits {
        value = value
            .checked_mul(10)?
            .checked_add(u64::from(digit.saturating_sub(b'0')))?;
    }
    Some(value)
}

// The value of some digits, limited to the greatest u128.
fn long_value(digits: &[u8]) -> u128
    ensures { result ≡ min (value_of digits.now) (2 ^ 128 - 1) }
{
    let mut value = 0u128;
    for digit in digits {
        value = value
            .saturating_mul(10)
            .saturating_add(u128::from(digit.saturating_sub(b'0')));
    }
    value
}
