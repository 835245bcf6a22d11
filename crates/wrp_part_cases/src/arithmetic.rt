//! The exact arithmetic on tau, by the names of its calls.
use crate::words::Words;
use wrp_base::{Tau, ceil_div, circ, difference, floor_div, hold, narrow, product, sum, trunc_div};
use wrp_suite::Fault;

// A quotient; the divisor has to be above 0.
fn quotient(name: &str, a: i128, b: i128) -> Result<i128, Fault> {
    if b <= 0 {
        return Err(Fault::Condition);
    }
    match name {
        "floor_div" => Ok(floor_div(a, b)),
        "ceil_div" => Ok(ceil_div(a, b)),
        _ => Ok(trunc_div(a, b)),
    }
}

// A sum or a difference of numbers of at most 125 bits.
fn sum_or_difference(name: &str, a: i128, b: i128) -> Result<i128, Fault> {
    if a.unsigned_abs() > 1 << 125 || b.unsigned_abs() > 1 << 125 {
        return Err(Fault::Condition);
    }
    match name {
        "sum" => Ok(sum(a, b)),
        _ => Ok(difference(a, b)),
    }
}

// A product of numbers of at most 64 and 61 bits.
fn multiplied(a: i128, b: i128) -> Result<i128, Fault> {
    if a.unsigned_abs() > 1 << 64 || b.unsigned_abs() > 1 << 61 {
        return Err(Fault::Condition);
    }
    Ok(product(a, b))
}

// A number held within a limit, which is not below 0.
fn held(limit: i128, x: i128) -> Result<i128, Fault> {
    if limit < 0 {
        return Err(Fault::Condition);
    }
    Ok(hold(limit, x))
}

/// The answer of a call that takes two numbers.
pub fn of_two(name: &str, words: &mut Words<'_>) -> Result<i128, Fault> {
    let (a, b) = words.pair::<i128, i128>()?;
    match name {
        "floor_div" | "ceil_div" | "trunc_div" => quotient(name, a, b),
        "sum" | "difference" => sum_or_difference(name, a, b),
        "product" => multiplied(a, b),
        "hold" => held(a, b),
        _ => Err(Fault::Input),
    }
}

/// A number in 64 bits.
pub fn narrowed(words: &mut Words<'_>) -> Result<i64, Fault> {
    let a = words.number::<i128>()?;
    if a < i128::from(i64::MIN) || i128::from(i64::MAX) < a {
        return Err(Fault::Condition);
    }
    Ok(narrow(a))
}

/// The distance of two times round a period.
pub fn apart(words: &mut Words<'_>) -> Result<Tau, Fault> {
    let (a, b) = words.pair::<i128, i128>()?;
    let clock = words.clock()?;
    if a.unsigned_abs() > 1 << 100 || b.unsigned_abs() > 1 << 100 {
        return Err(Fault::Condition);
    }
    Ok(circ(a, b, clock))
}
