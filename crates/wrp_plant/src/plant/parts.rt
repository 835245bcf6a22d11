//! The parts of a plant, and how large their numbers are.
ghost use Rattle.std.specs.Prelude.{◌≡◌, ◌<◌, ◌≤◌, length, slice_get, Some, IfSome, option_map};
ghost use Rattle.wrp_network.specs.Network.{HasRanges, HasNodeRanges, HasLinkRanges, node_count};
ghost use Rattle.wrp_plant.specs.Plant.{EndIs, FitsDeparted, FitsPlant, FitsSpan, PlantIs};
ghost use Rattle.wrp_flights.specs.Frames.{at};
ghost use Rattle.wrp_course.specs.Setting.{Setting, end_at};
ghost use Rattle.wrp_plant.specs.Sizes.{IsTime, IsOff, IsDelay};
ghost use Rattle.wrp_course.specs.WorldAt.{WorldAt};

use super::Plant;
use crate::ends::{EndState, Span};
use wrp_base::{Role, Tau};
use wrp_course::{ClockState, Place};
use wrp_flights::Departed;
use wrp_network::{LinkCfg, NetCfg, NodeCfg};

impl Plant {
    /// The network's configuration.
    pub fn cfg(&self) -> &NetCfg
        requires { FitsPlant self.now }
        ensures value { result.now ≡ self.now.net.cfg }
        ensures ranges { HasRanges result.now }
    {
        &self.net.cfg
    }

    /// True time, in tau.
    pub fn now(&self) -> Tau
        requires { FitsPlant self.now }
        ensures value { result ≡ self.now.time }
        ensures size { IsTime result }
    {
        self.time
    }

    // The clock of a node, the state of a link, and the network's entries for a node and for a link, just
    // as they are kept.
    fn clock_at(&self, n: u8) -> &ClockState
        requires { n < length self.now.clocks.items }
        ensures { slice_get self.now.clocks.items n ≡ Some result.now }
    {
        &self.clocks[usize::from(n)]
    }

    fn span_at(&self, k: u8) -> &Span
        requires { k < length self.now.spans.items }
        ensures { slice_get self.now.spans.items k ≡ Some result.now }
    {
        &self.spans[usize::from(k)]
    }

    fn node_cfg_at(&self, n: u8) -> &NodeCfg
        requires { n < length self.now.net.cfg.nodes.items }
        ensures { slice_get self.now.net.cfg.nodes.items n ≡ Some result.now }
    {
        &self.net.cfg.nodes[usize::from(n)]
    }

    fn link_cfg_at(&self, k: u8) -> &LinkCfg
        requires { k < length self.now.net.cfg.links.items }
        ensures { slice_get self.now.net.cfg.links.items k ≡ Some result.now }
    {
        &self.net.cfg.links[usize::from(k)]
    }

    /// The clock of a node.
    pub fn clock(&self, n: u8) -> &ClockState
        requires fits { FitsPlant self.now }
        requires node { n < length self.now.net.cfg.nodes.items }
        ensures value { (s : Setting) (w : WorldAt) → PlantIs s w self.now → result.now ≡ w.clock n }
        ensures off { IsOff result.now.off }
        ensures ticked { IsTime result.now.ticked }
        ensures samples { result.now.samples ≤ self.now.events }
    {
        self.clock_at(n)
    }

    /// The state of a link.
    pub fn span(&self, k: u8) -> &Span
        requires fits { FitsPlant self.now }
        requires link { k < length self.now.net.cfg.links.items }
        ensures value { slice_get self.now.spans.items k ≡ Some result.now }
        ensures fits { FitsSpan self.now.events result.now }
        ensures ms { IsDelay result.now.fibre.ms }
        ensures sm { IsDelay result.now.fibre.sm }
    {
        self.span_at(k)
    }

    /// The network's entry for a node.
    pub fn node_cfg(&self, n: u8) -> &NodeCfg
        requires fits { FitsPlant self.now }
        requires node { n < length self.now.net.cfg.nodes.items }
        ensures value { slice_get self.now.net.cfg.nodes.items n ≡ Some result.now }
        ensures ranges { HasNodeRanges self.now.net.cfg.clock result.now }
    {
        self.node_cfg_at(n)
    }

    /// The network's entry for a link.
    pub fn link_cfg(&self, k: u8) -> &LinkCfg
        requires fits { FitsPlant self.now }
        requires link { k < length self.now.net.cfg.links.items }
        ensures value { slice_get self.now.net.cfg.links.items k ≡ Some result.now }
        ensures ranges { HasLinkRanges result.now }
        ensures upper { result.now.upper < node_count self.now.net.cfg }
        ensures lower { result.now.lower < node_count self.now.net.cfg }
    {
        self.link_cfg_at(k)
    }

    /// An end of a link.
    pub fn end(&self, place: Place) -> &EndState
        requires fits { FitsPlant self.now }
        requires link { place.link < length self.now.net.cfg.links.items }
        ensures { (s : Setting) (w : WorldAt) → PlantIs s w self.now
            → EndIs (w.end_at place.link place.role) result.now }
    {
        self.span(place.link).end(place.role)
    }

    /// The node at an end of a link.
    pub fn node_at(&self, place: Place) -> u8
        requires fits { FitsPlant self.now }
        requires link { place.link < length self.now.net.cfg.links.items }
        ensures value { (s : Setting) (w : WorldAt) → PlantIs s w self.now
            → option_map (λ end. end.node) (end_at s place.link place.role) ≡ Some result }
        ensures within { result < node_count self.now.net.cfg }
    {
        let link = self.link_cfg(place.link);
        match place.role {
            Role::Master => link.upper,
            Role::Slave => link.lower,
        }
    }

    /// A frame that departed, by its number. `None` if the number was never given, or the frame is no
    /// longer kept.
    pub fn frame(&self, number: u32) -> Option<&Departed>
        requires { FitsPlant self.now }
        ensures value { option_map (λ f. f.now) result ≡ at number self.now.frames.kept }
        ensures fits { IfSome result (λ f. FitsDeparted (length self.now.net.cfg.links.items) self.now.events f.now) }
    {
        self.frames.find(number)
    }
}
