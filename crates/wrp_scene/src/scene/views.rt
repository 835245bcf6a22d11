//! What a scenario says.
ghost use Rattle.std.specs.Prelude.{◌≡◌, ◌≤◌, ◌<◌, ◌^◌, length, unsigned_abs};
ghost use Rattle.wrp_network.specs.Network.{HasRanges};
ghost use Rattle.wrp_base.specs.Ranges.{IsFromTo};
ghost use Rattle.wrp_scene.specs.Scenario.{IsSceneOf, IsOffset, IsFree, delta_ms, delta_sm, kappa_of, ms_of, sm_of, sum_of, offset_of, free_of};
ghost use Rattle.wrp_course.specs.EventAt.{link_count};

use super::Scene;
use super::fault::Fault;
use wrp_base::{Tau, difference, floor_div, product, sum};
use wrp_network::NetCfg;

// The way down takes this part of both ways, apart from the asymmetry.
const HALF: i128 = 1 << 39;

// All of both ways.
const WHOLE: i128 = 1 << 40;

// The asymmetry of a link's fibre.
fn kappa_of(cfg: &NetCfg, link: u8) -> i64
    requires ranges { HasRanges cfg.now }
    requires link { link < link_count cfg.now }
    ensures value { result ≡ kappa_of cfg.now link }
    ensures range { unsigned_abs result ≤ 2 ^ 38 }
{
    match cfg.links.get(usize::from(link)) {
        Some(link) => link.kappa,
        None => 0,
    }
}

// The delay down of a fibre, from the delay of both ways.
fn down_of(kappa: i64, both_ways: u64) -> Tau
    requires kappa { unsigned_abs kappa ≤ 2 ^ 38 }
    requires sum { both_ways ≤ 2 ^ 60 }
    ensures value { result ≡ delta_ms kappa both_ways }
    ensures range { IsFromTo 0 both_ways result }
{
    let part = sum(HALF, i128::from(kappa));
    floor_div(product(i128::from(both_ways), part), WHOLE)
}

// The delay up.
fn up_of(kappa: i64, both_ways: u64) -> Tau
    requires kappa { unsigned_abs kappa ≤ 2 ^ 38 }
    requires sum { both_ways ≤ 2 ^ 60 }
    ensures value { result ≡ delta_sm kappa both_ways }
    ensures range { IsFromTo 0 both_ways result }
{
    difference(i128::from(both_ways), down_of(kappa, both_ways))
}

impl Scene {
    /// For how long the network runs, in tau: 0 to `10^7` ms.
    pub fn duration(&self) -> Tau
        ensures { result ≡ self.now.duration }
    {
        self.duration
    }

    /// How many nodes it covers.
    pub fn node_count(&self) -> usize
        ensures { result ≡ length self.now.offsets }
    {
        self.offsets.len()
    }

    /// The delay of both ways of a link's fibre, in tau.
    pub fn sum(&self, link: u8) -> u64
        requires { link < length self.now.sums }
        ensures { result ≡ sum_of self.now link }
    {
        self.sums[usize::from(link)]
    }

    // The same, which is at most 2^60.
    fn small_sum(&self, link: u8, cfg: &NetCfg) -> u64
        requires ranges { HasRanges cfg.now }
        requires scene { IsSceneOf cfg.now self.now }
        requires link { link < link_count cfg.now }
        ensures value { result ≡ sum_of self.now link }
        ensures size { result ≤ 2 ^ 60 }
    {
        let _of = cfg;
        self.sum(link)
    }

    /// The delay of a link's fibre down, in tau.
    pub fn delay_down(&self, link: u8, cfg: &NetCfg) -> Tau
        requires ranges { HasRanges cfg.now }
        requires scene { IsSceneOf cfg.now self.now }
        requires link { link < link_count cfg.now }
        ensures value { result ≡ ms_of cfg.now self.now link }
        ensures range { IsFromTo 0 9_223_372_036_854_775_807 result }
    {
        down_of(kappa_of(cfg, link), self.small_sum(link, cfg))
    }

    /// The delay of a link's fibre up, in tau.
    pub fn delay_up(&self, link: u8, cfg: &NetCfg) -> Tau
        requires ranges { HasRanges cfg.now }
        requires scene { IsSceneOf cfg.now self.now }
        requires link { link < link_count cfg.now }
        ensures value { result ≡ sm_of cfg.now self.now link }
        ensures range { IsFromTo 0 9_223_372_036_854_775_807 result }
    {
        up_of(kappa_of(cfg, link), self.small_sum(link, cfg))
    }

    /// The offset that a node's clock has when the node comes up, in tau: within `10^12` ns, and 0 for
    /// the grandmaster.
    pub fn offset(&self, node: u8) -> Tau
        requires { node < length self.now.offsets }
        ensures { result ≡ offset_of self.now node }
    {
        self.offsets[usize::from(node)]
    }

    /// The rate of a node's clock at rest, in `10^-12`: within 100,000.
    pub fn free(&self, node: u8) -> i64
        requires { node < length self.now.frees }
        ensures { result ≡ free_of self.now node }
    {
        self.frees[usize::from(node)]
    }

    /// How many of 1000 arrivals are lost.
    pub fn loss(&self) -> u16
        ensures { result ≡ self.now.loss }
    {
        self.loss
    }

    /// How many of 1000 arrivals come twice.
    pub fn repeat(&self) -> u16
        ensures { result ≡ self.now.repeat }
    {
        self.repeat
    }

    /// The faults, in the order of their lines.
    pub fn faults(&self) -> &[Fault]
        ensures { result.now ≡ self.now.faults }
    {
        &self.faults
    }
}
