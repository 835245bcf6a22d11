//! The exact fraction, rounded down.
ghost use Rattle.std.specs.Prelude.{◌≡◌, ◌^◌, ◌<◌, ◌≤◌, unsigned_abs};
ghost use Rattle.wrp_law.specs.Law.{floor_at, IsNear};
ghost use Rattle.wrp_law.specs.declared.delay.LawKind.TheVariants.{Linear};

use wrp_base::{floor_div, narrow, product, sum};

/// `(2^39 + kappa) x / 2^40` rounded down, for `kappa` from `-2^38` to `2^38` and `x` from `-2^53` to
/// `2^53` tau: within 1 of the exact fraction.
pub fn floor_of(kappa: i64, x: i64) -> i64
    requires kappa { unsigned_abs kappa ≤ 2 ^ 38 }
    requires x { unsigned_abs x ≤ 2 ^ 53 }
    ensures value { result ≡ floor_at kappa x }
    ensures near { IsNear (Linear kappa) 1 x result }
{
    narrow(quotient(kappa, x))
}

// The floor, before it is known to fit 64 bits.
fn quotient(kappa: i64, x: i64) -> i128
    requires kappa { unsigned_abs kappa ≤ 2 ^ 38 }
    requires x { unsigned_abs x ≤ 2 ^ 53 }
    ensures value { result ≡ floor_at kappa x }
    ensures near { IsNear (Linear kappa) 1 x result }
    ensures size { unsigned_abs result < 2 ^ 54 }
{
    let part = sum(1 << 39, i128::from(kappa));
    floor_div(product(i128::from(x), part), 1 << 40)
}
