//! Frames that depart, and frames that are handed over.
ghost use Rattle.std.specs.Prelude.{◌≡◌, false, fold, nat_lt, ◌<◌, ◌≤◌, ◌≤ℤ◌, ◌^◌, option_map, length, None, pos, unsigned_abs, IfSome};
ghost use Rattle.std.specs.List.{find};
ghost use Rattle.std.specs.Option.{option_map_or};
ghost use Rattle.std.specs.Ordering.{int_eq};
ghost use Rattle.wrp_network.specs.declared.configuration.NetCfg.{NetCfg};
ghost use Rattle.wrp_sim.specs.Draws as draw;
ghost use Rattle.wrp_sim.specs.Numbers as number;
ghost use Rattle.wrp_sim.specs.Rules as rule;
ghost use Rattle.wrp_sim.specs.Sim.{FitsSim, Follows, Gave, SimIs, StaysFit, as_is, put};
ghost use Rattle.wrp_sim.specs.Departures as departure;
ghost use Rattle.wrp_sim.specs.Departures.{IsDeparture, departing_over, departs_by, departure_from};
ghost use Rattle.wrp_course.specs.Views.{oldest_of};
ghost use Rattle.wrp_plant.specs.PutOut.{is_now};
ghost use Rattle.wrp_sim.specs.SimAt.{SimAt};
ghost use Rattle.wrp_course.specs.Setting.{Setting, end_of, links_of};
ghost use Rattle.wrp_world.specs.StandsFor.{IsValid, StandsFor, Tells};
ghost use Rattle.wrp_course.specs.WorldAt.{WorldAt};

use super::numbers::{is_at, is_within, stamp_at, thousands};
use super::state::State;
use crate::draws::Draws;
use wrp_base::{Role, Tau};
use wrp_course::Place;
use wrp_network::LinkCfg;
use wrp_world::{Event, World};

/// A port whose oldest waiting frame departs.
#[derive(Clone, Copy)]
pub struct Departure {
    /// The node.
    pub node: u8,
    /// The port.
    pub port: u16,
    /// What the node's clock reads.
    pub at: Tau,
}

// Whether there is a moment, and it is now.
fn is_one_at(at: Option<Tau>, now: Tau) -> bool
    ensures { result ≡ option_map_or (λ t. int_eq t now) at false }
{
    match at {
        Some(at) => is_at(at, now),
        None => false,
    }
}

// The node and the port at an end of a link.
fn port_at(link: &LinkCfg, role: Role) -> (u8, u16)
    ensures { result ≡ ((end_of role link.now).node, (end_of role link.now).port) }
{
    match role {
        Role::Master => (link.upper, link.upper_port),
        Role::Slave => (link.lower, link.lower_port),
    }
}

// Whether the oldest frame that waits at an end of a link was put out now.
fn is_put_out_now<F: Fn(i64) -> i64>(world: &World<F>, place: Place) -> bool
    requires valid { IsValid F.pre F.post world.now }
    requires link { place.link < length world.now.plant.net.cfg.links.items }
    ensures { Tells F.post (λ s w. is_now w (oldest_of (w.end_at place.link place.role).waiting)) world.now result }
{
    let at = world.oldest_at(place);
    let now = world.time();
    is_one_at(at, now)
}

// The port at an end of a link, if a stamp can show its node's clock.
fn told_at<F: Fn(i64) -> i64>(world: &World<F>, place: Place) -> Option<Departure>
    requires valid { IsValid F.pre F.post world.now }
    requires link { place.link < length world.now.plant.net.cfg.links.items }
    ensures value { Tells F.post (λ s w. departure.told_at s w place.link place.role) world.now result }
    ensures range { IfSome result IsDeparture }
    ensures node { IfSome result (λ d. d.node < length world.now.nodes) }
{
    let (node, port) = port_at(world.link_cfg(place.link), place.role);
    let at = world.reading(node);
    if is_within(world.net().cfg.clock, at) {
        Some(Departure { node, port, at })
    } else {
        None
    }
}

// The same, if also its oldest waiting frame was put out now.
fn departing_at<F: Fn(i64) -> i64>(world: &World<F>, place: Place) -> Option<Departure>
    requires valid { IsValid F.pre F.post world.now }
    requires link { place.link < length world.now.plant.net.cfg.links.items }
    ensures value { Tells F.post (λ s w. departure.departing_at s w place.link place.role) world.now result }
    ensures range { IfSome result IsDeparture }
    ensures node { IfSome result (λ d. d.node < length world.now.nodes) }
{
    if is_put_out_now(world, place) {
        told_at(world, place)
    } else {
        None
    }
}

// The place of a port in the order.
fn standing(from: Departure) -> u32
    ensures { result ≡ departure.standing from }
{
    u32::from(from.node) * 32 + u32::from(from.port)
}

// Whether a port comes before another one: by their nodes in file order, then by their numbers,
// ascending.
fn is_before(one: Departure, other: Departure) -> bool
    ensures { result ≡ nat_lt (departure.standing one) (departure.standing other) }
{
    standing(one) < standing(other)
}

// The one of two ports that comes first.
fn first_of_two(one: Option<Departure>, other: Option<Departure>) -> Option<Departure>
    ensures { result ≡ departure.first_of_two one other }
{
    match (one, other) {
        (Some(first), Some(later)) => { if is_before(later, first) { other } else { one } }
        (Some(_), None) => one,
        (None, _) => other,
    }
}

// The port that comes first among this one and those at the ends of a link: both ends are asked.
fn first_of_ends<F: Fn(i64) -> i64>(
    world: &World<F>,
    first: Option<Departure>,
    link: u8,
) -> Option<Departure>
    requires valid { IsValid F.pre F.post world.now }
    requires link { link < length world.now.plant.net.cfg.links.items }
    requires range { IfSome first IsDeparture }
    requires node { IfSome first (λ d. d.node < length world.now.nodes) }
    ensures value { Tells F.post (λ s w. departing_over s w first link) world.now result }
    ensures range { IfSome result IsDeparture }
    ensures node { IfSome result (λ d. d.node < length world.now.nodes) }
{
    let upper = Place {
        link,
        role: Role::Master,
    };
    let lower = Place {
        link,
        role: Role::Slave,
    };
    let first = first_of_two(first, departing_at(world, upper));
    first_of_two(first, departing_at(world, lower))
}

// The same; if no frame at an end of the link was put out now, the port remains the first.
fn first_of_link<F: Fn(i64) -> i64>(
    world: &World<F>,
    first: Option<Departure>,
    link: u8,
) -> Option<Departure>
    requires valid { IsValid F.pre F.post world.now }
    requires link { link < length world.now.plant.net.cfg.links.items }
    requires range { IfSome first IsDeparture }
    requires node { IfSome first (λ d. d.node < length world.now.nodes) }
    ensures value { Tells F.post (λ s w. departing_over s w first link) world.now result }
    ensures range { IfSome result IsDeparture }
    ensures node { IfSome result (λ d. d.node < length world.now.nodes) }
{
    if world.puts_out_over(link) {
        first_of_ends(world, first, link)
    } else {
        first
    }
}

// The first such port of all ends of links.
fn first_at_ends<F: Fn(i64) -> i64>(world: &World<F>) -> Option<Departure>
    requires { IsValid F.pre F.post world.now }
    ensures value { Tells F.post (λ s w. fold (departing_over s w) None (links_of s)) world.now result }
    ensures range { IfSome result IsDeparture }
    ensures node { IfSome result (λ d. d.node < length world.now.nodes) }
{
    let mut first = None;
    let count = world.net().cfg.links.len() as u8;
    for link in 0..count {
        first = first_of_link(world, first, link);
    }
    first
}

// The first port of all nodes whose oldest waiting frame was put out now, and whose node's clock a
// stamp can show. If nothing was put out now, no end of a link is asked for its port.
fn first_departure<F: Fn(i64) -> i64>(world: &World<F>) -> Option<Departure>
    requires { IsValid F.pre F.post world.now }
    ensures value { Tells F.post (λ s w. option_map (departure_from w) (find (rule.departs_now s w) (rule.ports_of s))) world.now result }
    ensures range { IfSome result IsDeparture }
    ensures node { IfSome result (λ d. d.node < length world.now.nodes) }
{
    if world.puts_out_now() {
        first_at_ends(world)
    } else {
        None
    }
}

// Draws the stamp of a sending at this reading.
fn draw_stamp(draws: &mut Draws, at: Tau, e_tx: u64) -> Tau
    requires least { pos 0 ≤ℤ at }
    requires most { unsigned_abs at ≤ 2 ^ 92 }
    requires e_tx { 1_000 ≤ e_tx }
    requires room { e_tx ≤ 1_000_000_000 }
    ensures value { result ≡ number.drawn_stamp (number.thousands e_tx) at draws.old }
    ensures state { draws.new ≡ draw.next_state draws.old }
{
    let k = i128::from(thousands(e_tx));
    let more = draws.draw_from(-k, k);
    stamp_at(at, more)
}

impl State {
    // The oldest frame that waits at a port departs.
    fn depart_from<F: Fn(i64) -> i64>(
        &mut self,
        world: &World<F>,
        from: Departure,
        event: &mut Event,
    )
        requires valid { IsValid F.pre F.post world.now }
        requires fits { FitsSim world.now.plant.net.cfg self.old }
        requires node { from.node < length world.now.nodes }
        requires range { IsDeparture from }
        ensures follows { (s : Setting) (w : WorldAt) (at : SimAt) → StandsFor F.post s w world.now → SimIs at self.old
            → departs_by s at from (Some event.new) self.new }
        ensures stays { StaysFit world.now.plant.net.cfg self.old self.new }
    {
        let e_tx = world.node_cfg(from.node).e_tx;
        let stamp = draw_stamp(&mut self.draws, from.at, e_tx);
        *event = Event::Depart {
            node: from.node,
            port: from.port,
            stamp,
        };
        self.comes();
    }

    /// The first port whose oldest waiting frame was put out now, and whose node's clock a stamp can
    /// show: that frame departs.
    pub(super) fn depart<F: Fn(i64) -> i64>(&mut self, world: &World<F>, event: &mut Event) -> bool
        requires valid { IsValid F.pre F.post world.now }
        requires fits { FitsSim world.now.plant.net.cfg self.old }
        ensures follows { Follows F.post (λ scene s w at. rule.departs s w at) as_is world.now self.old self.new (put result event.new) }
        ensures stays { StaysFit world.now.plant.net.cfg self.old self.new }
    {
        match first_departure(world) {
            Some(from) => {
                self.depart_from(world, from, event);
                true
            }
            None => false,
        }
    }

    /// The frame that arrived last is handed over, as often as was drawn at its arrival.
    pub(super) fn deliver(&mut self, event: &mut Event) -> bool
        ensures follows { (at : SimAt) → SimIs at self.old → Gave at (rule.delivers at) (put result event.new) self.new }
        ensures stays { (cfg : NetCfg) → FitsSim cfg self.old → StaysFit cfg self.old self.new }
    {
        if 0 < self.arrived.times {
            self.arrived.times -= 1;
            *event = Event::Deliver {
                frame: self.arrived.frame,
            };
            self.comes();
            true
        } else {
            false
        }
    }
}
