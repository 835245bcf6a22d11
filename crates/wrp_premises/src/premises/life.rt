//! How old a frame may be: premise 10.
ghost use Rattle.std.specs.Prelude.{◌≡◌, ◌-ℤ◌, [], ◌∷◌};
ghost use Rattle.wrp_course.specs.Checks.{told_of, at_most};
ghost use Rattle.wrp_plant.specs.Sizes.{IsTime};

use crate::checks::at_most;
use wrp_base::{Tau, difference};
use wrp_course::Breach;

/// Premise 10: a frame that was put out at the true time `sent` is not older than `life`. All times
/// are in tau. `None` if it holds; otherwise its age against `life`.
pub fn young_enough(life: Tau, now: Tau, sent: Tau) -> Option<Breach>
    requires now { IsTime now }
    requires sent { IsTime sent }
    ensures { result ≡ told_of (at_most 10 (now -ℤ sent) life ∷ []) }
{
    at_most(10, difference(now, sent), life)
}
