//! Which premise breaks if time passes: the checks that need no node.
ghost use Rattle.std.specs.Prelude.{◌≡◌, ◌≤◌, ◌^◌, ◌+ℤ◌, length, map, flat_map, unsigned_abs};
ghost use Rattle.wrp_course.specs.Checks.{told_of};
ghost use Rattle.wrp_plant.specs.Plant.{FitsPlant, PlantIs};
ghost use Rattle.wrp_course.specs.Premises as premise;
ghost use Rattle.wrp_course.specs.Setting.{Setting, links_of, nodes_of};
ghost use Rattle.wrp_plant.specs.Sizes.{IsTime};
ghost use Rattle.wrp_course.specs.WorldAt.{WorldAt};

use crate::premises::rates::fibre_rates;
use crate::premises::ticks::ticks_late;
use arrayvec::ArrayVec;
use wrp_base::{Tau, sum};
use wrp_course::Breach;
use wrp_plant::{Plant, longest_tick};

// The time this much later.
fn later(time: Tau, dt: i64) -> Tau
    requires { unsigned_abs time ≤ 2 ^ 99 }
    ensures value { result ≡ time +ℤ dt }
    ensures size { IsTime result }
{
    sum(time, i128::from(dt))
}

/// Premise 2: `dt` tau may pass without making a tick late. `None` if it holds; otherwise, for the
/// first node in file order that is up and would tick too late, the time since its last tick
/// against the longest, in tau.
pub fn late_broken(plant: &Plant, dt: i64) -> Option<Breach>
    requires { FitsPlant plant.now }
    ensures { (s : Setting) (w : WorldAt) → PlantIs s w plant.now
        → result ≡ told_of (map (premise.tick_late s w dt) (nodes_of s)) }
{
    let most = longest_tick(plant.cfg());
    let after = later(plant.time, dt);
    ticks_late(most, after, plant.clocks.as_slice())
}

/// Premise 4: the delays of the links keep within their rate if they change by `moves` (down and
/// up) in `dt`, all in tau. `None` if they do; otherwise both sides of the first that does not,
/// times `10^12`.
pub fn rates_of_fibres_broken(
    plant: &Plant,
    dt: i64,
    moves: &ArrayVec<(i64, i64), 63>,
) -> Option<Breach>
    requires fits { FitsPlant plant.now }
    requires links { length moves.now.items ≡ length plant.now.net.cfg.links.items }
    ensures { (s : Setting) (w : WorldAt) → PlantIs s w plant.now
        → result ≡ told_of (flat_map (premise.fibre_rate dt moves.now.items) (links_of s)) }
{
    fibre_rates(dt, moves.as_slice())
}
