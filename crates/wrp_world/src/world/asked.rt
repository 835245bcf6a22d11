//! Questions about a world, for a caller who makes its events.
ghost use Rattle.std.specs.Prelude.{◌≡◌, ◌<◌, ◌≤◌, ◌^◌, ◌-ℤ◌, ◌||◌, length, false, option_map, slice_get, unsigned_abs, IfSome, Some};
ghost use Rattle.wrp_base.specs.Clock.{steps_of_period};
ghost use Rattle.wrp_base.specs.declared.link.Role.TheVariants.{Master, Slave};
ghost use Rattle.wrp_network.specs.Network.{HasLinkRanges, HasNodeRanges};
ghost use Rattle.wrp_node.specs.NodeAt.{dac_of};
ghost use Rattle.wrp_plant.specs.Plant.{end_to};
ghost use Rattle.wrp_plant.specs.PutOut.{NoneIsPutOut, first_put_out, puts_out, puts_out_at};
ghost use Rattle.wrp_course.specs.Setting.{Setting, above, end_at, entry_at, node_setting_of, place_of as place_in};
ghost use Rattle.wrp_course.specs.Views as view;
ghost use Rattle.wrp_course.specs.WorldAt.{WorldAt, first_name, has_carrier, reading};
ghost use Rattle.wrp_world.specs.StandsFor.{IsValid, StandsFor, Tells, time_of};

use super::World;
use wrp_base::{Module, Tau};
use wrp_course::{Place, place_of};
use wrp_network::{LinkCfg, NodeCfg};

impl<F: Fn(i64) -> i64> World<F> {
    /// True time, in tau: within `2^100`.
    pub fn time(&self) -> Tau
        requires { IsValid F.pre F.post self.now }
        ensures value { Tells F.post time_of self.now result }
        ensures size { unsigned_abs result ≤ 2 ^ 100 }
    {
        self.plant.now()
    }

    /// How many nodes there are: at most 64.
    pub fn node_count(&self) -> u8
        requires { IsValid F.pre F.post self.now }
        ensures value { result ≡ length self.now.nodes }
        ensures few { result ≤ 64 }
    {
        self.plant.net.cfg.nodes.len() as u8
    }

    /// The network's entry for a node.
    pub fn node_cfg(&self, n: u8) -> &NodeCfg
        requires valid { IsValid F.pre F.post self.now }
        requires node { n < length self.now.nodes }
        ensures value { slice_get self.now.plant.net.cfg.nodes.items n ≡ Some result.now }
        ensures ranges { HasNodeRanges self.now.plant.net.cfg.clock result.now }
    {
        self.plant.node_cfg(n)
    }

    /// The network's entry for a link.
    pub fn link_cfg(&self, link: u8) -> &LinkCfg
        requires valid { IsValid F.pre F.post self.now }
        requires link { link < length self.now.plant.net.cfg.links.items }
        ensures value { slice_get self.now.plant.net.cfg.links.items link ≡ Some result.now }
        ensures ranges { HasLinkRanges result.now }
        ensures upper { result.now.upper < length self.now.nodes }
        ensures lower { result.now.lower < length self.now.nodes }
    {
        self.plant.link_cfg(link)
    }

    /// The number of the link above a node. `None` only for the grandmaster.
    pub fn above(&self, n: u8) -> Option<u8>
        requires { IsValid F.pre F.post self.now }
        ensures value { Tells F.post (λ s w. above s n) self.now result }
        ensures within { IfSome result (λ k. k < length self.now.plant.net.cfg.links.items) }
    {
        self.plant.above(n)
    }

    /// The end of a link that is this port of a node. `None` if no link has that port.
    pub fn place(&self, n: u8, port: u16) -> Option<Place>
        requires { IsValid F.pre F.post self.now }
        ensures value { Tells F.post (λ s w. place_in s n port) self.now result }
        ensures within { IfSome result (λ place. place.link < length self.now.plant.net.cfg.links.items) }
    {
        place_of(&self.plant.net.cfg, n, port)
    }

    /// The node at an end of a link.
    pub fn node_at(&self, place: Place) -> u8
        requires valid { IsValid F.pre F.post self.now }
        requires link { place.link < length self.now.plant.net.cfg.links.items }
        ensures value { (s : Setting) (w : WorldAt) → StandsFor F.post s w self.now
            → option_map (λ end. end.node) (end_at s place.link place.role) ≡ Some result }
        ensures within { result < length self.now.nodes }
    {
        self.plant.node_at(place)
    }

    /// The numbers of the module that the network names at an end of a link; the delays are in tau. `None` if
    /// the database has no entry for it there.
    pub fn first_entry(&self, place: Place) -> Option<Module>
        requires valid { IsValid F.pre F.post self.now }
        requires link { place.link < length self.now.plant.net.cfg.links.items }
        ensures value { Tells F.post (λ s w. entry_at s place.link place.role (first_name s place.link place.role)) self.now result }
        ensures transition { IfSome result (λ entry. entry.transition < steps_of_period) }
    {
        self.plant.first_entry(place)
    }

    /// What a node's clock reads, in tau: within `2^125`.
    pub fn reading(&self, n: u8) -> Tau
        requires valid { IsValid F.pre F.post self.now }
        requires node { n < length self.now.nodes }
        ensures value { Tells F.post (λ s w. reading w n) self.now result }
        ensures size { unsigned_abs result ≤ 2 ^ 125 }
    {
        self.plant.reading(n)
    }

    /// How far the lower node's clock is ahead of the upper node's, in tau: within `2^125`.
    pub fn apart(&self, lower: u8, upper: u8) -> Tau
        requires valid { IsValid F.pre F.post self.now }
        requires lower { lower < length self.now.nodes }
        requires upper { upper < length self.now.nodes }
        ensures value { Tells F.post (λ s w. (w.clock lower).off -ℤ (w.clock upper).off) self.now result }
        ensures size { unsigned_abs result ≤ 2 ^ 125 }
    {
        self.plant.apart(lower, upper)
    }

    /// Whether a link has its carrier: it is joined, and both its nodes are up.
    pub fn has_carrier(&self, link: u8) -> bool
        requires valid { IsValid F.pre F.post self.now }
        requires link { link < length self.now.plant.net.cfg.links.items }
        ensures { Tells F.post (λ s w. has_carrier s w link) self.now result }
    {
        self.plant.has_carrier(link)
    }

    /// The DAC value of a node.
    pub fn dac(&self, n: u8) -> u16
        requires valid { IsValid F.pre F.post self.now }
        requires node { n < length self.now.nodes }
        ensures { Tells F.post (λ s w. dac_of (node_setting_of s n) (w.node n)) self.now result }
    {
        self.node(n).dac()
    }

    /// The end at which a frame arrives. `None` if the number was never given, or the frame is no longer kept:
    /// it is on no fibre, and was put out more than a frame's life ago.
    pub fn comes_to(&self, k: u32) -> Option<Place>
        requires { IsValid F.pre F.post self.now }
        ensures value { Tells F.post (λ s w. option_map end_to (view.kept_frame s w k)) self.now result }
        ensures within { IfSome result (λ place. place.link < length self.now.plant.net.cfg.links.items) }
    {
        self.plant.comes_to(k)
    }

    /// The true time at which the oldest frame that waits at an end of a link was put out, in tau. `None` if
    /// no frame waits there.
    pub fn oldest_at(&self, place: Place) -> Option<Tau>
        requires valid { IsValid F.pre F.post self.now }
        requires link { place.link < length self.now.plant.net.cfg.links.items }
        ensures { Tells F.post (λ s w. view.oldest_of (w.end_at place.link place.role).waiting) self.now result }
    {
        self.plant.oldest_at(place)
    }

    /// Whether, at an end of any link, the oldest waiting frame was put out now. If not, the oldest waiting
    /// frame was not put out now at any port of any node either.
    pub fn puts_out_now(&self) -> bool
        requires { IsValid F.pre F.post self.now }
        ensures value { Tells F.post puts_out self.now result }
        ensures none { result ≡ false → (s : Setting) (w : WorldAt) → StandsFor F.post s w self.now
            → NoneIsPutOut s w }
    {
        self.plant.puts_out_now()
    }

    /// Whether, at an end of this link, the oldest waiting frame was put out now.
    pub fn puts_out_over(&self, link: u8) -> bool
        requires valid { IsValid F.pre F.post self.now }
        requires link { link < length self.now.plant.net.cfg.links.items }
        ensures { Tells F.post (λ s w. puts_out_at w link Master || puts_out_at w link Slave) self.now result }
    {
        self.plant.puts_out_over(link)
    }

    /// The first port, as its node and its port number, at which the oldest waiting frame was put out now.
    /// Ports are ordered by node in file order, then by number. `None` if there is no such port.
    pub fn first_put_out(&self) -> Option<(u8, u16)>
        requires { IsValid F.pre F.post self.now }
        ensures value { Tells F.post first_put_out self.now result }
        ensures node { IfSome result (λ port. port.0 < length self.now.nodes) }
    {
        self.plant.first_put_out()
    }
}
