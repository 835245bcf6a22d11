//! Which true delays a listed module may have: premise 6.
ghost use Rattle.std.specs.Prelude.{◌≡◌, pos, ◌-ℤ◌, [], ◌∷◌};
ghost use Rattle.wrp_course.specs.Checks.{told_of, at_most, size_of};
ghost use Rattle.wrp_course.specs.Premises as premise;

use crate::checks::{at_most, size};
use wrp_base::{Module, difference};
use wrp_course::{Breach, Swap};

// Checks that a true delay is within the error of its entry.
fn delay_kept(delay: u64, entry: u64, err: u64) -> Option<Breach>
    ensures { result ≡ told_of (at_most 6 (size_of (pos delay -ℤ pos entry)) (pos err) ∷ []) }
{
    at_most(
        6,
        size(difference(i128::from(delay), i128::from(entry))),
        i128::from(err),
    )
}

/// Premise 6: the true delays of a module are within the error of its entry, in tau. The transmission
/// delay is checked first. `None` if it holds, or there is no entry; otherwise the first difference
/// that is too large, against the error.
pub fn module_kept(swap: &Swap, entry: Option<Module>) -> Option<Breach>
    ensures { result ≡ told_of (premise.module_checks swap.now entry) }
{
    match entry {
        Some(entry) => both_kept(swap, &entry),
        None => None,
    }
}

// Checks both true delays of a listed module.
fn both_kept(swap: &Swap, entry: &Module) -> Option<Breach>
    ensures { result ≡ told_of (premise.listed_checks swap.now entry.now) }
{
    match delay_kept(swap.tx, entry.tx, entry.err) {
        Some(breach) => Some(breach),
        None => delay_kept(swap.rx, entry.rx, entry.err),
    }
}
