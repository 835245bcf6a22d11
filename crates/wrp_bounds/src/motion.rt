//! Quotients of numbers without sign, rounded up, and how far a rate carries something.
ghost use Rattle.std.specs.Prelude.{◌≡◌, ℕ, ◌+◌, ◌*◌, ◌^◌, ◌<◌, ◌≤◌};
ghost use Rattle.wrp_bounds.specs.Motion as spec;

use wrp_base::ceil_div;

/// The rates' unit: one part in `10^12`.
const UNITS_OF_RATE: u128 = 1_000_000_000_000;

// `n / d` rounded up.
#[tactic(auto, unfolding(crate::specs::Motion::rounded_up))]
pub fn rounded_up(n: u128, d: u128) -> u128
    requires positive { 0 < d }
    requires n { n < 2 ^ 120 }
    requires d { d < 2 ^ 60 }
    ensures value { result ≡ spec.rounded_up n d }
    ensures next { d * result < n + d }
{
    ceil_div(n as i128, d as i128).unsigned_abs()
}

// How far a rate carries something in a time, in tau, rounded up.
pub fn motion(rate: u128, time: u128) -> u128
    requires rate { rate ≤ 2 ^ 32 }
    requires time { time ≤ 2 ^ 78 }
    ensures value { result ≡ spec.motion rate time }
    ensures size { result ≤ 2 ^ 72 }
{
    rounded_up(rate * time, UNITS_OF_RATE)
}
