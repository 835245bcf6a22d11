//! The words of a line of a case, and the numbers that they write. A number that a call does not take is a fault of the
//! case: the condition of the call does not hold.
ghost use Rattle.std.specs.Prelude.{◌≤◌, ◌^◌, ◌≤ℤ◌, IfOk, unsigned_abs};

use std::alloc::{AllocError, Global};
use wrp_suite::{Case, Fault};

/// The input of a case as a text.
pub fn text_of(case: &Case) -> Result<&str, Fault> {
    match str::from_utf8(&case.input) {
        Ok(text) => Ok(text),
        Err(_) => Err(Fault::Input),
    }
}

/// The first line of a text, and the lines after it.
pub fn first_line(text: &str) -> (&str, &str) {
    text.split_once('\n').unwrap_or((text, ""))
}

/// The words of a line, which have one blank between them.
pub fn words_of(alloc: Global, line: &str) -> Result<Vec<&str>, AllocError> {
    line.split(' ').collect(alloc)
}

// A number.
fn number_of(word: &str) -> Result<i128, Fault> {
    word.parse::<i128>().ok().ok_or(Fault::Number)
}

/// A number from `least` to `greatest`.
pub fn from_to(word: &str, least: i64, greatest: i64) -> Result<i64, Fault>
    ensures { IfOk result (λ n. (least ≤ℤ n) × (n ≤ℤ greatest)) }
{
    let n = number_of(word)?;
    if i128::from(least) <= n && n <= i128::from(greatest) {
        Ok(n as i64)
    } else {
        Err(Fault::Condition)
    }
}

/// A number from `least` to `greatest`, neither below 0.
pub fn natural(word: &str, least: u64, greatest: u64) -> Result<u64, Fault>
    ensures { IfOk result (λ n. (least ≤ n) × (n ≤ greatest)) }
{
    let n = number_of(word)?;
    if i128::from(least) <= n && n <= i128::from(greatest) {
        Ok(n as u64)
    } else {
        Err(Fault::Condition)
    }
}

/// A number of at most this size, either way.
pub fn wide(word: &str, greatest: u128) -> Result<i128, Fault>
    ensures { IfOk result (λ n. unsigned_abs n ≤ greatest) }
{
    let n = number_of(word)?;
    if n.unsigned_abs() <= greatest {
        Ok(n)
    } else {
        Err(Fault::Condition)
    }
}

/// The same in 64 bits.
pub fn sized(word: &str, greatest: u64) -> Result<i64, Fault>
    requires { greatest ≤ 2 ^ 62 }
    ensures { IfOk result (λ n. unsigned_abs n ≤ greatest) }
{
    Ok(wide(word, u128::from(greatest))? as i64)
}
