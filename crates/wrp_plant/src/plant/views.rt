//! Questions about a plant.
ghost use Rattle.std.specs.Prelude.{◌≡◌, ◌<◌, length, option_map, slice_get, IfSome};
ghost use Rattle.wrp_base.specs.Clock.{steps_of_period};
ghost use Rattle.wrp_base.specs.Link.{other_of};
ghost use Rattle.wrp_plant.specs.Plant.{DepartedIs, FitsPlant, MaybeIs, PlantIs, end_to};
ghost use Rattle.wrp_plant.specs.Sizes.{IsTime};
ghost use Rattle.wrp_course.specs.Setting.{Setting, end_at, end_of, entry_at, place_of};
ghost use Rattle.wrp_course.specs.Views.{oldest_of};
ghost use Rattle.wrp_course.specs.Views as view;
ghost use Rattle.wrp_course.specs.WorldAt.{WorldAt, first_name, named_at};

use super::Plant;
use crate::ends::PutOut;
use crate::times::{longest_tick, shortest_tick};
use wrp_base::{Mark, Module, Role, Tau, sum};
use wrp_course::{Place, place_of};
use wrp_flights::Departed;
use wrp_network::LinkCfg;

impl Plant {
    /// Whether a link is joined.
    pub fn joined(&self, link: u8) -> bool
        requires fits { FitsPlant self.now }
        requires link { link < length self.now.net.cfg.links.items }
        ensures { (s : Setting) (w : WorldAt) → PlantIs s w self.now → result ≡ (w.fibre link).joined }
    {
        self.span(link).fibre.joined
    }

    /// When a node may tick next: the first and the last true time, in tau. They are the shortest and the
    /// longest tick after its last tick, or after it came up. `None` if the node is down.
    pub fn tick_due(&self, n: u8) -> Option<(Tau, Tau)>
        requires fits { FitsPlant self.now }
        requires node { n < length self.now.net.cfg.nodes.items }
        ensures { (s : Setting) (w : WorldAt) → PlantIs s w self.now → result ≡ view.tick_due s w n }
    {
        let cfg = self.cfg();
        let least = shortest_tick(cfg);
        let most = longest_tick(cfg);
        let clock = self.clock(n);
        if clock.up {
            let first = sum(clock.ticked, least);
            let last = sum(clock.ticked, most);
            Some((first, last))
        } else {
            None
        }
    }

    /// The history of a port's link, oldest mark first. Empty if the port is not an end of a link.
    pub fn history(&self, n: u8, port: u16) -> &[Mark]
        requires { FitsPlant self.now }
        ensures { (s : Setting) (w : WorldAt) → PlantIs s w self.now
            → result.now ≡ view.history_of w (place_of s n port) }
    {
        match place_of(&self.net.cfg, n, port) {
            Some(place) => self.end(place).marks.as_slice(),
            None => &[],
        }
    }

    /// The true time at which the oldest frame that waits at a port was put out, in tau. `None` if no frame
    /// waits, or the port is not an end of a link.
    pub fn waiting(&self, n: u8, port: u16) -> Option<Tau>
        requires { FitsPlant self.now }
        ensures { (s : Setting) (w : WorldAt) → PlantIs s w self.now → result ≡ view.waiting_of s w n port }
    {
        match place_of(&self.net.cfg, n, port) {
            Some(place) => self.end(place).oldest(),
            None => None,
        }
    }

    /// The true time at which the oldest frame that waits at an end was put out, in tau. `None` if no frame
    /// waits there.
    pub fn oldest_at(&self, place: Place) -> Option<Tau>
        requires fits { FitsPlant self.now }
        requires link { place.link < length self.now.net.cfg.links.items }
        ensures value { (s : Setting) (w : WorldAt) → PlantIs s w self.now
            → result ≡ oldest_of (w.end_at place.link place.role).waiting }
        ensures size { IfSome result IsTime }
    {
        let span = self.span(place.link);
        first_put_out(span.end(place.role).waiting.as_slice())
    }

    /// The frame on a fibre that is due first, as its number and the true time at which it is due, in tau.
    /// The lowest number wins if two are due at once. `None` if no frame is on a fibre.
    pub fn next_arrival(&self) -> Option<(u32, Tau)>
        requires { FitsPlant self.now }
        ensures { (s : Setting) (w : WorldAt) → PlantIs s w self.now → view.IsNextArrival w result }
    {
        self.frames.next_due()
    }

    // The frame of this number, if it is kept.
    fn kept_frame(&self, number: u32) -> Option<&Departed>
        ensures { (s : Setting) (w : WorldAt) → PlantIs s w self.now
            → MaybeIs DepartedIs (view.kept_frame s w number) (option_map (λ f. f.now) result) }
    {
        self.frames.find(number)
    }

    /// How many frames are kept.
    pub fn kept(&self) -> usize
        ensures { (s : Setting) (w : WorldAt) → PlantIs s w self.now → result ≡ view.kept_count s w }
    {
        self.frames.kept()
    }

    /// The octets of a frame. `None` if no frame of this number is kept.
    pub fn octets(&self, number: u32) -> Option<&[u8]>
        ensures { (s : Setting) (w : WorldAt) → PlantIs s w self.now
            → option_map (λ octets. octets.now) result ≡ view.octets_at s w number }
    {
        match self.kept_frame(number) {
            Some(frame) => Some(frame.octets.as_slice()),
            None => None,
        }
    }

    /// The node and the number of the port that sent a frame. `None` if no frame of this number is kept.
    pub fn sender(&self, number: u32) -> Option<(u8, u16)>
        ensures { (s : Setting) (w : WorldAt) → PlantIs s w self.now
            → result ≡ option_map (λ end. (end.node, end.port)) (view.sender_of s w number) }
    {
        match self.kept_frame(number) {
            Some(frame) => self.port_at(frame.link, frame.by),
            None => None,
        }
    }

    /// The end at which a frame arrives. `None` if no frame of this number is kept.
    pub fn comes_to(&self, number: u32) -> Option<Place>
        requires { FitsPlant self.now }
        ensures value { (s : Setting) (w : WorldAt) → PlantIs s w self.now
            → result ≡ option_map end_to (view.kept_frame s w number) }
        ensures within { IfSome result (λ place. place.link < length self.now.net.cfg.links.items) }
    {
        match self.frame(number) {
            Some(frame) => Some(way_of(frame)),
            None => None,
        }
    }

    /// The numbers of the module that the network names at an end of a link; the delays are in tau. `None`
    /// if the database has no entry for it there.
    pub fn first_entry(&self, place: Place) -> Option<Module>
        requires fits { FitsPlant self.now }
        requires link { place.link < length self.now.net.cfg.links.items }
        ensures value { (s : Setting) (w : WorldAt) → PlantIs s w self.now
            → result ≡ entry_at s place.link place.role (first_name s place.link place.role) }
        ensures transition { IfSome result (λ entry. entry.transition < steps_of_period) }
    {
        let link = self.link_cfg(place.link);
        self.listed_at(place, named_at(link, place.role))
    }

    // The node and the port at an end of a link.
    fn port_at(&self, link: u8, role: Role) -> Option<(u8, u16)>
        ensures { (s : Setting) (w : WorldAt) → PlantIs s w self.now
            → result ≡ option_map (λ end. (end.node, end.port)) (end_at s link role) }
    {
        match self.net.cfg.links.get(usize::from(link)) {
            Some(link) => Some(port_of(link, role)),
            None => None,
        }
    }
}

// The true time at which the first of these was put out.
fn first_put_out(waiting: &[PutOut]) -> Option<Tau>
    ensures { result ≡ option_map (λ out. out.at) (slice_get waiting.now 0) }
{
    match waiting.first() {
        Some(out) => Some(out.at),
        None => None,
    }
}

// The end at which a frame arrives.
fn way_of(frame: &Departed) -> Place
    ensures { result ≡ record { link = frame.now.link; role = other_of frame.now.by } }
{
    let from = Place {
        link: frame.link,
        role: frame.by,
    };
    from.across()
}

// The name of the module that the network names at this end of a link.
fn named_at(link: &LinkCfg, role: Role) -> &str
    ensures { result.now ≡ named_at role link.now }
{
    match role {
        Role::Master => link.upper_module.as_str(),
        Role::Slave => link.lower_module.as_str(),
    }
}

/// The node and the port at this end of a link.
pub fn port_of(link: &LinkCfg, role: Role) -> (u8, u16)
    ensures { result ≡ ((end_of role link.now).node, (end_of role link.now).port) }
{
    match role {
        Role::Master => (link.upper, link.upper_port),
        Role::Slave => (link.lower, link.lower_port),
    }
}
