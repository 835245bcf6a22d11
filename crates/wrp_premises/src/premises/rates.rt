//! How fast clocks and fibres may change: premises 3 and 4.
ghost use Rattle.std.specs.Prelude.{◌≡◌, ◌*◌, ◌≤◌, pos, unsigned_abs, not, true, [], ◌∷◌, flat_map, IfSome};
ghost use Rattle.wrp_course.specs.Checks.{told_of, only_where, size_of};
ghost use Rattle.wrp_course.specs.Checks as spec;
ghost use Rattle.wrp_course.specs.Premises as premise;
ghost use Rattle.wrp_plant.specs.Sizes.{IsOff};

use crate::checks::{at_most, size};
use wrp_base::Tau;
use wrp_course::Breach;
use wrp_plant::is_still;

/// Rates are in parts of `10^-12`.
const PARTS: u128 = 1_000_000_000_000;

/// The greatest rate at which a fibre's one-way delay may change.
const FIBRE_RATE: u64 = 2;

// A change as it is compared: times `10^12`.
fn scaled(by: i64) -> Tau
    ensures { result ≡ pos (unsigned_abs by * 1_000_000_000_000) }
{
    (u128::from(by.unsigned_abs()) * PARTS) as i128
}

// The change that a rate allows in a time, as it is compared.
fn led(rate: u64, dt: i64) -> Tau
    requires { rate ≤ 1_000_000_000 }
    ensures { result ≡ pos (rate * unsigned_abs dt) }
{
    (u128::from(rate) * u128::from(dt.unsigned_abs())) as i128
}

// Checks that a change in a time keeps within a rate.
fn moves_at(number: u8, by: i64, dt: i64, rate: u64) -> Option<Breach>
    requires { rate ≤ 1_000_000_000 }
    ensures { result ≡ told_of (premise.moves_at number by dt rate ∷ []) }
{
    at_most(number, scaled(by), led(rate, dt))
}

/// Premise 3: a clock that drifts by `drift` tau in `dt` tau keeps within its rate, which is in
/// `10^-12` and at most `10^9`. `None` if it does, or it has no rate to keep; otherwise both sides,
/// times `10^12`.
pub fn rate_kept(drift: i64, dt: i64, rate: Option<u64>) -> Option<Breach>
    requires { IfSome rate (λ r. r ≤ 1_000_000_000) }
    ensures { result ≡ told_of (premise.rate_checks drift dt rate) }
{
    match rate {
        Some(rate) => moves_at(3, drift, dt, rate),
        None => None,
    }
}

/// Premise 3: the grandmaster comes up with true time. `off` is in tau. `None` if it does, or the
/// node is not the grandmaster; otherwise the size of the offset against 0.
pub fn true_at_top(is_top: bool, off: Tau) -> Option<Breach>
    requires { IsOff off }
    ensures { result ≡ told_of (only_where is_top (spec.at_most 3 (size_of off) (pos 0)) ∷ []) }
{
    if is_top {
        at_most(3, size(off), 0)
    } else {
        None
    }
}

// Checks that the delays of a fibre that changes keep within their rate. The delay down is checked first.
fn moved_rate(dt: i64, by: &(i64, i64)) -> Option<Breach>
    ensures { result ≡ told_of (premise.rate_of_fibre dt by.now) }
{
    match moves_at(4, by.0, dt, FIBRE_RATE) {
        Some(breach) => Some(breach),
        None => moves_at(4, by.1, dt, FIBRE_RATE),
    }
}

// Checks that the delays of a fibre keep within their rate. Delays that do not change keep within every rate.
fn fibre_rate(dt: i64, by: &(i64, i64)) -> Option<Breach>
    ensures { result ≡ told_of (premise.rate_of_fibre dt by.now) }
{
    if is_still(by) {
        None
    } else {
        moved_rate(dt, by)
    }
}

/// Premise 4: the delays of all fibres keep within their rate if they change by `moves` (down and
/// up) in `dt`, all in tau. `None` if they do; otherwise both sides of the first that does not,
/// times `10^12`.
pub fn fibre_rates(dt: i64, moves: &[(i64, i64)]) -> Option<Breach>
    ensures { result ≡ told_of (flat_map (premise.rate_of_fibre dt) moves.now) }
{
    for by in moves {
        if let Some(breach) = fibre_rate(dt, by) {
            return Some(breach);
        }
    }
    None
}
