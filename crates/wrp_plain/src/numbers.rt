//! The numbers of a plain servo: round trips, offsets, moves and commands.
ghost use Rattle.std.specs.Prelude.{◌≡◌, ℕ, ℤ, pos, neg_ℤ, ◌+◌, ◌*◌, ◌^◌, ◌≤◌, ◌+ℤ◌, ◌-ℤ◌, ◌≤ℤ◌, unsigned_abs};
ghost use Rattle.wrp_base.specs.Division.{ceil_quotient};
ghost use Rattle.wrp_base.specs.Held.{held_within};
ghost use Rattle.wrp_plain.specs.Measurement.{moves_within, round_of, est_of};

use wrp_base::{ceil_div, difference, floor_div, hold, narrow, sum};

/// One second has this many of the units of a rate, and one tau this many of the units in which a
/// rate's move is given.
pub const RATE_UNIT: u128 = 1_000_000_000_000;

/// The command against an offset, held within the greatest step.
pub fn steer_against(step: i64, est: i128) -> i64
    requires positive { pos 1 ≤ℤ step }
    requires greatest { step ≤ℤ pos (2 ^ 60) }
    requires est { unsigned_abs est ≤ 2 ^ 68 }
    ensures value { result ≡ held_within step (neg_ℤ est) }
    ensures small { unsigned_abs result ≤ 2 ^ 60 }
{
    let against = opposite(est);
    narrow(hold(step.into(), against))
}

/// The opposite number.
pub fn opposite(a: i128) -> i128
    requires { unsigned_abs a ≤ 2 ^ 68 }
    ensures { result ≡ neg_ℤ a }
{
    -a
}

/// A number raised by one that is not negative.
pub fn raised(a: i128, by: u128) -> i128
    requires a { unsigned_abs a ≤ 2 ^ 64 }
    requires by { by ≤ 2 ^ 90 }
    ensures value { result ≡ a +ℤ pos by }
    ensures small { unsigned_abs result ≤ unsigned_abs a + by }
{
    sum(a, by as i128)
}

/// The round trip of an exchange.
pub fn round_trip(t1: i64, t2: i64, t3: i64, t4: i64) -> i128
    requires t1 { unsigned_abs t1 ≤ 2 ^ 61 }
    requires t2 { unsigned_abs t2 ≤ 2 ^ 61 }
    requires t3 { unsigned_abs t3 ≤ 2 ^ 61 }
    requires t4 { unsigned_abs t4 ≤ 2 ^ 61 }
    ensures value { result ≡ round_of t1 t2 t3 t4 }
    ensures small { unsigned_abs result ≤ 2 ^ 63 }
{
    sum(apart(t1, t2), apart(t3, t4))
}

/// The offset that an exchange measured: half of what is left when the way up is taken from the way down.
pub fn offset(t1: i64, t2: i64, t3: i64, t4: i64) -> i128
    requires t1 { unsigned_abs t1 ≤ 2 ^ 61 }
    requires t2 { unsigned_abs t2 ≤ 2 ^ 61 }
    requires t3 { unsigned_abs t3 ≤ 2 ^ 61 }
    requires t4 { unsigned_abs t4 ≤ 2 ^ 61 }
    ensures value { result ≡ est_of t1 t2 t3 t4 }
    ensures small { unsigned_abs result ≤ 2 ^ 63 }
{
    floor_div(difference(apart(t1, t2), apart(t3, t4)), 2)
}

/// How much later the second stamp is than the first.
pub fn apart(first: i64, second: i64) -> i128
    requires first { unsigned_abs first ≤ 2 ^ 61 }
    requires second { unsigned_abs second ≤ 2 ^ 61 }
    ensures value { result ≡ second -ℤ first }
    ensures small { unsigned_abs result ≤ 2 ^ 62 }
{
    difference(second.into(), first.into())
}

/// Half a round trip, rounded up.
pub fn half(round: i128) -> i128
    requires { unsigned_abs round ≤ 2 ^ 63 }
    ensures value { result ≡ ceil_quotient round (pos 2) }
    ensures small { unsigned_abs result ≤ 2 ^ 63 }
{
    ceil_div(round, 2)
}

/// How far an offset may move in a time, rounded up.
pub fn moves_within(rate: u64, time: u128) -> u128
    requires rate { rate ≤ 10 ^ 9 }
    requires time { time ≤ 2 ^ 95 }
    ensures value { result ≡ moves_within rate time }
    ensures small { result * 10 ^ 12 ≤ rate * time + 10 ^ 12 }
    ensures fits { result ≤ 2 ^ 90 }
{
    (u128::from(rate) * time + (RATE_UNIT - 1)) / RATE_UNIT
}
