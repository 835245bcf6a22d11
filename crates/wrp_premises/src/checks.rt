//! What a premise compares, and how a comparison that fails is reported.
ghost use Rattle.std.specs.Prelude.{◌≡◌, ◌^◌, ◌≤◌, unsigned_abs, [], ◌∷◌};
ghost use Rattle.wrp_course.specs.Checks.{told_of};
ghost use Rattle.wrp_course.specs.Checks as spec;

use wrp_base::Tau;
use wrp_course::Breach;

/// Checks that `shown` is at most `bound`. `None` if it is; otherwise the breach of this premise
/// with both sides.
pub fn at_most(premise: u8, shown: Tau, bound: Tau) -> Option<Breach>
    ensures { result ≡ told_of (spec.at_most premise shown bound ∷ []) }
{
    if shown <= bound {
        None
    } else {
        Some(Breach {
            premise,
            shown,
            bound,
        })
    }
}

/// Checks that `shown` is at least `bound`. `None` if it is; otherwise the breach of this premise
/// with both sides.
pub fn at_least(premise: u8, shown: Tau, bound: Tau) -> Option<Breach>
    ensures { result ≡ told_of (spec.at_least premise shown bound ∷ []) }
{
    if bound <= shown {
        None
    } else {
        Some(Breach {
            premise,
            shown,
            bound,
        })
    }
}

/// Checks that what the event needs is there. `None` if it is; otherwise premise 13, as 0 against
/// 1.
pub fn needs(holds: bool) -> Option<Breach>
    ensures { result ≡ told_of (spec.needs holds ∷ []) }
{
    if holds {
        None
    } else {
        Some(Breach {
            premise: 13,
            shown: 0,
            bound: 1,
        })
    }
}

/// Premise 11: there is no frame of this number. `last` is the last number that was given. Never
/// `None`.
pub fn not_sent(number: u32, last: u32) -> Option<Breach>
    ensures { result ≡ told_of (spec.not_sent number last ∷ []) }
{
    Some(Breach {
        premise: 11,
        shown: i128::from(number),
        bound: i128::from(last),
    })
}

/// The size of a number, without its sign.
pub fn size(x: Tau) -> Tau
    requires { unsigned_abs x ≤ 2 ^ 126 }
    ensures { result ≡ spec.size_of x }
{
    x.unsigned_abs() as i128
}
