//! Which delays a joined link may have: premise 5.
ghost use Rattle.std.specs.Prelude.{◌≡◌, pos, ◌*◌, ◌^◌, ◌≤◌, ◌≤ℤ◌, ◌+ℤ◌, ◌*ℤ◌, unsigned_abs, map};
ghost use Rattle.wrp_network.specs.Network.{HasLinkRanges};
ghost use Rattle.wrp_course.specs.Checks.{told_of, only_where};
ghost use Rattle.wrp_course.specs.Premises as premise;
ghost use Rattle.wrp_plant.specs.Sizes.{IsDelay, IsTime};

use crate::checks::{at_least, at_most, size};
use wrp_base::{Tau, difference, product, sum};
use wrp_course::{Breach, FibreState};
use wrp_network::LinkCfg;

// The share of the delay down in both delays, times `2^40`.
fn share(kappa: i64, both: Tau) -> Tau
    requires kappa { unsigned_abs kappa ≤ 2 ^ 38 }
    requires both { unsigned_abs both ≤ 2 ^ 61 }
    ensures value { result ≡ (pos (2 ^ 39) +ℤ kappa) *ℤ both }
    ensures size { unsigned_abs result ≤ 2 ^ 125 }
{
    product(sum(1 << 39, i128::from(kappa)), both)
}

// How far the delay down is from its share, times `2^40`.
fn asymmetry(kappa: i64, ms: Tau, sm: Tau) -> Tau
    requires kappa { unsigned_abs kappa ≤ 2 ^ 38 }
    requires ms { unsigned_abs ms ≤ 2 ^ 60 }
    requires sm { unsigned_abs sm ≤ 2 ^ 60 }
    ensures value { result ≡ premise.asymmetry kappa ms sm }
    ensures size { unsigned_abs result ≤ 2 ^ 126 }
{
    difference(product(1 << 40, ms), share(kappa, sum(ms, sm)))
}

// How far the delay down may be from its share, times `2^40`.
fn slack(link: &LinkCfg) -> Tau
    requires { HasLinkRanges link.now }
    ensures { result ≡ pos (2 ^ 40 * link.now.e_asym) }
{
    ((1 << 40) * u128::from(link.e_asym)) as i128
}

// Checks the delays of a joined link. `down` and `up` are the fibre's delays plus the delays of both
// ports.
fn joined_kept(most: Tau, fibre: &FibreState, down: Tau, up: Tau, link: &LinkCfg) -> Option<Breach>
    requires most { unsigned_abs most ≤ 2 ^ 60 }
    requires ms { IsDelay fibre.now.ms }
    requires sm { IsDelay fibre.now.sm }
    requires sizes { IsTime down × IsTime up }
    requires link { HasLinkRanges link.now }
    requires down { fibre.now.ms ≤ℤ down }
    requires up { fibre.now.sm ≤ℤ up }
    ensures { result ≡ told_of (premise.fibre_by most fibre.now down up link.now) }
{
    if fibre.ms < 0 {
        return at_least(5, fibre.ms, 0);
    }
    if fibre.sm < 0 {
        return at_least(5, fibre.sm, 0);
    }
    if most < down {
        return at_most(5, down, most);
    }
    if most < up {
        return at_most(5, up, most);
    }
    at_most(
        5,
        size(asymmetry(link.kappa, fibre.ms, fibre.sm)),
        slack(link),
    )
}

/// Premise 5: the delays of a link, if it is joined. `down` and `up` are the fibre's delays plus the
/// delays of both ports, and `most` is the greatest value for them; all are in tau. `None` if it holds;
/// otherwise the first comparison that fails: a delay of the fibre is below 0, `down` or `up` is above
/// `most` (in tau), or the asymmetry is too large (in tau times `2^40`).
pub fn fibre_kept(
    most: Tau,
    fibre: &FibreState,
    down: Tau,
    up: Tau,
    link: &LinkCfg,
) -> Option<Breach>
    requires most { unsigned_abs most ≤ 2 ^ 60 }
    requires ms { IsDelay fibre.now.ms }
    requires sm { IsDelay fibre.now.sm }
    requires sizes { IsTime down × IsTime up }
    requires link { HasLinkRanges link.now }
    requires down { fibre.now.ms ≤ℤ down }
    requires up { fibre.now.sm ≤ℤ up }
    ensures { result ≡ told_of
        (map (only_where fibre.now.joined) (premise.fibre_by most fibre.now down up link.now)) }
{
    if fibre.joined {
        joined_kept(most, fibre, down, up, link)
    } else {
        None
    }
}
