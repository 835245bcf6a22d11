//! Exact arithmetic on tau: the only place where anything is rounded, and the few operations whose
//! results are known to fit.
ghost use Rattle.std.specs.Prelude.{◌≡◌, ℕ, ℤ, pos, ◌+◌, ◌^◌, ◌<◌, ◌≤◌, ◌≤ℤ◌, ◌<ℤ◌, ◌+ℤ◌, ◌-ℤ◌, ◌*ℤ◌, neg_ℤ, unsigned_abs, FitsSigned};
ghost use Rattle.std.specs.Int.{int_rem_euclid, w64};
ghost use Rattle.wrp_base.specs.Division.{floor_quotient, ceil_quotient, trunc_quotient};
ghost use Rattle.wrp_base.specs.Circle.{distance_round};
ghost use Rattle.wrp_base.specs.Held.{held_within};

use crate::{Clock, Tau};

/// `a / b` rounded down, towards minus infinity.
pub fn floor_div(a: i128, b: i128) -> i128
    requires { pos 0 <ℤ b }
    ensures value { result ≡ floor_quotient a b }
    ensures at_most { (b *ℤ result) ≤ℤ a }
    ensures next { a <ℤ (b *ℤ result +ℤ b) }
{
    a.div_euclid(b)
}

/// `a / b` rounded up, towards infinity.
pub fn ceil_div(a: i128, b: i128) -> i128
    requires { pos 0 <ℤ b }
    ensures value { result ≡ ceil_quotient a b }
    ensures at_least { a ≤ℤ (b *ℤ result) }
    ensures next { (b *ℤ result) <ℤ (a +ℤ b) }
{
    if 0 < a { (a - 1) / b + 1 } else { a / b }
}

/// `a / b` rounded towards zero.
pub fn trunc_div(a: i128, b: i128) -> i128
    requires { pos 0 <ℤ b }
    ensures value { result ≡ trunc_quotient a b }
    ensures size { unsigned_abs result ≤ unsigned_abs a }
{
    a / b
}

/// The distance of `a` and `b` round the period, in tau: from 0 to half a period.
pub fn circ(a: Tau, b: Tau, clock: Clock) -> Tau
    requires a { unsigned_abs a ≤ 2 ^ 100 }
    requires b { unsigned_abs b ≤ 2 ^ 100 }
    ensures { result ≡ pos (distance_round clock a b) }
{
    let period = clock.period().unsigned_abs();
    let ahead = remainder(difference(a, b), period);
    let distance = ahead.min(period - ahead);
    distance as i128
}

// What is left of `a` when whole periods are taken away or added: from 0 to below the period.
fn remainder(a: Tau, period: u128) -> u128
    requires positive { 0 < period }
    requires small { period < 2 ^ 31 }
    ensures value { result ≡ unsigned_abs (int_rem_euclid a (pos period)) }
    ensures below { result < period }
{
    a.rem_euclid(period as i128).unsigned_abs()
}

/// `a * b`, if it is known to fit.
pub fn product(a: i128, b: i128) -> i128
    requires a { unsigned_abs a ≤ 2 ^ 64 }
    requires b { unsigned_abs b ≤ 2 ^ 61 }
    ensures value { result ≡ a *ℤ b }
    ensures size { unsigned_abs result ≤ 2 ^ 125 }
{
    a * b
}

/// `a + b`, if it is known to fit.
pub fn sum(a: i128, b: i128) -> i128
    requires a { unsigned_abs a ≤ 2 ^ 125 }
    requires b { unsigned_abs b ≤ 2 ^ 125 }
    ensures value { result ≡ a +ℤ b }
    ensures size { unsigned_abs result ≤ 2 ^ 126 }
{
    a + b
}

/// `a - b`, if it is known to fit.
pub fn difference(a: i128, b: i128) -> i128
    requires a { unsigned_abs a ≤ 2 ^ 125 }
    requires b { unsigned_abs b ≤ 2 ^ 125 }
    ensures value { result ≡ a -ℤ b }
    ensures size { unsigned_abs result ≤ 2 ^ 126 }
{
    a - b
}

/// `x` held within `-limit` to `limit`; `limit` is not negative.
pub fn hold(limit: i128, x: i128) -> i128
    requires { pos 0 ≤ℤ limit }
    ensures value { result ≡ held_within limit x }
    ensures size { unsigned_abs result ≤ unsigned_abs limit }
{
    x.min(limit).max(-limit)
}

/// The same number in 64 bits, if it is known to fit.
pub fn narrow(a: i128) -> i64
    requires { FitsSigned w64 a }
    ensures { result ≡ a }
{
    a as i64
}
