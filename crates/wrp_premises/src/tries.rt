//! Which premise an event breaks: the checks that need no node.
pub mod fibres;
pub mod frames;
pub mod modules;
pub mod octets;
pub mod passing;

ghost use Rattle.std.specs.Prelude.{◌≡◌, ◌<◌, ◌≤◌, ◌^◌, length, unsigned_abs, [], ◌∷◌, Some};
ghost use Rattle.wrp_base.specs.Clock.{steps_of_period};
ghost use Rattle.wrp_base.specs.declared.link.Role.TheVariants.{Master};
ghost use Rattle.wrp_course.specs.Checks.{told_of};
ghost use Rattle.wrp_course.specs.Checks as spec;
ghost use Rattle.wrp_plant.specs.Plant.{FitsPlant, PlantIs};
ghost use Rattle.wrp_course.specs.Premises as premise;
ghost use Rattle.wrp_course.specs.Setting.{Setting, above};
ghost use Rattle.wrp_plant.specs.Sizes.{IsTime};
ghost use Rattle.wrp_course.specs.WorldAt.{WorldAt, delay_from, phase_of};

use crate::checks::needs;
use crate::premises::beat::beat_kept;
use crate::premises::ticks::tick_early;
use wrp_base::{Tau, sum};
use wrp_course::Breach;
use wrp_network::LinkCfg;
use wrp_plant::{Plant, shortest_tick};

/// The first premise that a tick breaks, with both sides: it comes too early (1, in tau), or the
/// node is down (13). `None` if none breaks.
pub fn tick_broken(plant: &Plant, n: u8) -> Option<Breach>
    requires fits { FitsPlant plant.now }
    requires node { n < length plant.now.net.cfg.nodes.items }
    ensures { (s : Setting) (w : WorldAt) → PlantIs s w plant.now
        → result ≡ told_of (premise.tick_early s w n ∷ (spec.needs (w.clock n).up ∷ [])) }
{
    let least = shortest_tick(plant.cfg());
    let now = plant.now();
    let clock = plant.clock(n);
    let up = plant.is_up(n);
    tick_early(least, now, clock).or(needs(up))
}

/// Premise 13: a node that goes down is up. `None` if it is; otherwise 0 against 1.
pub fn down_broken(plant: &Plant, n: u8) -> Option<Breach>
    requires fits { FitsPlant plant.now }
    requires node { n < length plant.now.net.cfg.nodes.items }
    ensures { (s : Setting) (w : WorldAt) → PlantIs s w plant.now
        → result ≡ told_of (spec.needs (w.clock n).up ∷ []) }
{
    needs(plant.is_up(n))
}

/// Premise 13: a link that is cut is joined. `None` if it is; otherwise 0 against 1.
pub fn cut_broken(plant: &Plant, k: u8) -> Option<Breach>
    requires fits { FitsPlant plant.now }
    requires link { k < length plant.now.net.cfg.links.items }
    ensures { (s : Setting) (w : WorldAt) → PlantIs s w plant.now
        → result ≡ told_of (spec.needs (w.fibre k).joined ∷ []) }
{
    needs(plant.joined(k))
}

// The true one-way delay down, in tau.
fn delay_down(plant: &Plant, k: u8) -> Tau
    requires fits { FitsPlant plant.now }
    requires link { k < length plant.now.net.cfg.links.items }
    ensures value { (s : Setting) (w : WorldAt) → PlantIs s w plant.now → result ≡ delay_from w k Master }
    ensures size { IsTime result }
{
    let span = plant.span(k);
    span.down()
}

// The true phase of the node below a link against its parent.
fn phase(plant: &Plant, k: u8, link: &LinkCfg) -> Tau
    requires fits { FitsPlant plant.now }
    requires number { k < length plant.now.net.cfg.links.items }
    requires lower { link.now.lower < length plant.now.net.cfg.nodes.items }
    requires upper { link.now.upper < length plant.now.net.cfg.nodes.items }
    ensures value { (s : Setting) (w : WorldAt) → PlantIs s w plant.now → result ≡ phase_of w k link.now }
    ensures size { unsigned_abs result ≤ 2 ^ 126 }
{
    let apart = plant.apart(link.lower, link.upper);
    let down = delay_down(plant, k);
    sum(apart, down)
}

// The first premise that a sample breaks at a node with a link above it.
fn beat_broken(plant: &Plant, n: u8, k: u8, base: u16, bits: u64) -> Option<Breach>
    requires fits { FitsPlant plant.now }
    requires node { n < length plant.now.net.cfg.nodes.items }
    requires link { k < length plant.now.net.cfg.links.items }
    requires base { base < steps_of_period }
    ensures { (s : Setting) (w : WorldAt) → PlantIs s w plant.now
        → result ≡ told_of (premise.sample_checks s w n base bits (Some k)) }
{
    let carrier = plant.has_carrier(k);
    if carrier {
        let node = plant.node_cfg(n);
        let cfg = plant.cfg();
        let link = plant.link_cfg(k);
        let phase = phase(plant, k, link);
        beat_kept(cfg.clock, node.beat, base, bits, phase)
    } else {
        needs(false)
    }
}

/// The first premise that a sample breaks, with both sides: the node has no link above it (13), a
/// beat bit is wrong (9), or the link above has no carrier (13). `base` is below 16,384. `None` if
/// none breaks.
pub fn sample_broken(plant: &Plant, n: u8, base: u16, bits: u64) -> Option<Breach>
    requires fits { FitsPlant plant.now }
    requires node { n < length plant.now.net.cfg.nodes.items }
    requires base { base < steps_of_period }
    ensures { (s : Setting) (w : WorldAt) → PlantIs s w plant.now
        → result ≡ told_of (premise.sample_checks s w n base bits (above s n)) }
{
    match plant.above(n) {
        Some(k) => beat_broken(plant, n, k, base, bits),
        None => needs(false),
    }
}
