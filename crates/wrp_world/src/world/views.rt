//! Questions about a world.
ghost use Rattle.std.specs.Prelude.{◌≡◌, ◌<◌, length, option_map, slice_get, Some};
ghost use Rattle.wrp_world.specs.StandsFor.{IsValid, StandsFor, Tells, time_of, off_of, up_of, joined_of, history_at};
ghost use Rattle.wrp_course.specs.Setting.{Setting};
ghost use Rattle.wrp_course.specs.Views as view;
ghost use Rattle.wrp_course.specs.WorldAt.{WorldAt};

use super::World;
use wrp_base::{Mark, Tau};
use wrp_config::Network;
use wrp_node::Node;

impl<F: Fn(i64) -> i64> World<F> {
    /// True time, in tau.
    pub fn now(&self) -> Tau
        ensures { Tells F.post time_of self.now result }
    {
        self.plant.time
    }

    /// The offset of a node's clock from true time, in tau.
    pub fn off(&self, n: u8) -> Tau
        requires valid { IsValid F.pre F.post self.now }
        requires node { n < length self.now.nodes }
        ensures { Tells F.post (off_of n) self.now result }
    {
        self.plant.clock(n).off
    }

    /// Whether a node is up.
    pub fn is_up(&self, n: u8) -> bool
        requires valid { IsValid F.pre F.post self.now }
        requires node { n < length self.now.nodes }
        ensures { Tells F.post (up_of n) self.now result }
    {
        self.plant.clock(n).up
    }

    /// Whether a link is joined.
    pub fn joined(&self, link: u8) -> bool
        requires valid { IsValid F.pre F.post self.now }
        requires link { link < length self.now.plant.net.cfg.links.items }
        ensures { Tells F.post (joined_of link) self.now result }
    {
        self.plant.joined(link)
    }

    /// A node.
    pub fn node(&self, n: u8) -> &Node<F>
        requires { n < length self.now.nodes }
        ensures { slice_get self.now.nodes n ≡ Some result.now }
    {
        &self.nodes[usize::from(n)]
    }

    /// The network.
    pub fn net(&self) -> &Network
        ensures { result.now ≡ self.now.plant.net }
    {
        &self.plant.net
    }

    /// The history of a port's link, oldest mark first. Empty if the port is not an end of a link.
    pub fn history(&self, n: u8, port: u16) -> &[Mark]
        requires { IsValid F.pre F.post self.now }
        ensures { Tells F.post (history_at n port) self.now result.now }
    {
        self.plant.history(n, port)
    }

    /// The true time at which the oldest frame that waits at a port was put out, in tau. `None` if no frame
    /// waits, or the port is not an end of a link.
    pub fn waiting(&self, n: u8, port: u16) -> Option<Tau>
        requires { IsValid F.pre F.post self.now }
        ensures { Tells F.post (λ s w. view.waiting_of s w n port) self.now result }
    {
        self.plant.waiting(n, port)
    }

    /// When a node may tick next: the first and the last true time, in tau. They are the shortest and the
    /// longest tick after its last tick, or after it came up if it has not ticked since. `None` if the node
    /// is down.
    pub fn tick_due(&self, n: u8) -> Option<(Tau, Tau)>
        requires valid { IsValid F.pre F.post self.now }
        requires node { n < length self.now.nodes }
        ensures { Tells F.post (λ s w. view.tick_due s w n) self.now result }
    {
        self.plant.tick_due(n)
    }

    /// The frame on a fibre that is due first, as its number and the true time at which it is due, in tau.
    /// The lowest number wins if two are due at once. `None` if no frame is on a fibre.
    pub fn next_arrival(&self) -> Option<(u32, Tau)>
        requires { IsValid F.pre F.post self.now }
        ensures { (s : Setting) (w : WorldAt) → StandsFor F.post s w self.now → view.IsNextArrival w result }
    {
        self.plant.next_arrival()
    }

    /// How many frames are kept: those that are on a fibre, or were put out at most a frame's life ago. The
    /// life is `life_ns` of the network; a ns is 65,536,000 tau.
    pub fn kept(&self) -> usize
        ensures { Tells F.post view.kept_count self.now result }
    {
        self.plant.kept()
    }

    /// The octets of a frame. `None` if the number was never given, or the frame is no longer kept: it is on
    /// no fibre, and was put out more than a frame's life ago.
    pub fn frame(&self, k: u32) -> Option<&[u8]>
        ensures { Tells F.post (λ s w. view.octets_at s w k) self.now (option_map (λ octets. octets.now) result) }
    {
        self.plant.octets(k)
    }

    /// The node and the number of the port that sent a frame. `None` if the number was never given, or the
    /// frame is no longer kept: it is on no fibre, and was put out more than a frame's life ago.
    pub fn sender(&self, k: u32) -> Option<(u8, u16)>
        ensures { Tells F.post (λ s w. option_map (λ end. (end.node, end.port)) (view.sender_of s w k)) self.now result }
    {
        self.plant.sender(k)
    }
}
