//! Scenarios: for how long a network runs, with which fibres, clocks, losses and faults.
ghost use Rattle.std.specs.Prelude.{◌≡◌, ◌<◌, ◌≤◌, IsErr, length, map, pos, slice_set};
ghost use Rattle.csv.specs.Records.{fields_of};
ghost use Rattle.wrp_network.specs.Network.{HasRanges};
ghost use Rattle.wrp_fields.specs.Reading.{IsReading};
ghost use Rattle.wrp_scene.specs.Scenario.{SceneAt, IsSceneOf, new_scene};
ghost use Rattle.wrp_scene.specs.ScenarioLines.{length_line, fibre_line, offset_line, free_line, loss_line, repeat_line, fault_line, line_of_kind, scene_of, scene_read, outcome};

mod fault;
mod fields;
mod kinds;
mod views;

use arrayvec::ArrayVec;
use csv::ByteRecord;
pub use fault::{Fault, FaultKind};
use fields::{
    fault_at, lower_at, ns_at, off_of_ns, permille_at, rate_at, sum_at, tau_of_ms, time_at,
};
pub use kinds::SceneKind;
use kinds::kind_of;
use std::alloc::Global;
use std::marker::Model;
use wrp_base::{Tau, TraceFault};
use wrp_config::Network;
use wrp_fields::{field, is_plain, split};
use wrp_names::{link_at, node_at};
use wrp_network::{LinkCfg, NetCfg, NodeCfg};

// The place of the first field.
const KIND: u32 = 1;

// For how long a network runs if no line says it, in ms.
const USUAL_LENGTH: u64 = 10_000;

/// The greatest number of an event in a run by a scenario. Events are counted from 1.
pub const LAST_EVENT: u32 = u32::MAX - 1;

// The most faults of a scenario.
const MOST_FAULTS: usize = 64;

/// A scenario of a network: what its lines say, and the usual value for each kind of line that does
/// not come.
#[derive(Debug, Drop)]
pub struct Scene {
    // In tau.
    duration: Tau,
    // One for each link, in tau.
    sums: ArrayVec<u64, 63>,
    // One for each node, in tau.
    offsets: ArrayVec<Tau, 64>,
    // One for each node, in 10^-12.
    frees: ArrayVec<i64, 64>,
    loss: u16,
    repeat: u16,
    faults: ArrayVec<Fault, 64>,
}

impl Model for Scene {
    ghost Value = { SceneAt };

    ghost view = { λ s. record {
      duration = s.duration;
      sums = s.sums.items;
      offsets = s.offsets.items;
      frees = s.frees.items;
      loss = s.loss;
      repeat = s.repeat;
      faults = s.faults.items;
    } };
}

// No delay, for each of these links.
fn no_sums(links: &[LinkCfg]) -> ArrayVec<u64, 63>
    requires { length links.now ≤ 63 }
    ensures { result.items ≡ map (λ link. 0) links.now }
{
    let mut sums = ArrayVec::new();
    for _link in links {
        sums.push(0);
    }
    sums
}

// No offset, for each of these nodes.
fn no_offsets(nodes: &[NodeCfg]) -> ArrayVec<Tau, 64>
    requires { length nodes.now ≤ 64 }
    ensures { result.items ≡ map (λ node. pos 0) nodes.now }
{
    let mut offsets = ArrayVec::new();
    for _node in nodes {
        offsets.push(0);
    }
    offsets
}

// No rate, for each of these nodes.
fn no_frees(nodes: &[NodeCfg]) -> ArrayVec<i64, 64>
    requires { length nodes.now ≤ 64 }
    ensures { result.items ≡ map (λ node. pos 0) nodes.now }
{
    let mut frees = ArrayVec::new();
    for _node in nodes {
        frees.push(0);
    }
    frees
}

impl Scene {
    /// The scenario of a network of which no line says anything: it runs for 10,000 ms, its fibres
    /// have no delay, its clocks have neither offset nor rate of their own, and there are no losses or
    /// faults.
    pub fn new(net: &Network) -> Scene
        ensures value { result ≡ new_scene net.now.cfg }
        ensures scene { IsSceneOf net.now.cfg result }
    {
        Scene::usual(&net.cfg)
    }

    // The same, by the network's numbers.
    fn usual(cfg: &NetCfg) -> Scene
        ensures { result ≡ new_scene cfg.now }
    {
        let duration = tau_of_ms(USUAL_LENGTH);
        let sums = no_sums(&cfg.links);
        let offsets = no_offsets(&cfg.nodes);
        let frees = no_frees(&cfg.nodes);
        Scene {
            duration,
            sums,
            offsets,
            frees,
            loss: 0,
            repeat: 0,
            faults: ArrayVec::new(),
        }
    }

    /// Takes what a line says, in place of what an earlier line of its kind says of the same thing; but
    /// each fault line adds a fault. The lines are `length,MS`, `fibre,LINK,SUM` with SUM in tau,
    /// `offset,NODE,NS`, `free,NODE,RATE` with RATE in `10^-12`, `loss,PERMILLE`, `repeat,PERMILLE` and
    /// `fault,MS,KIND,NAME`, where KIND is `down`, `up`, `cut` or `join`. `net` is the network of this
    /// scenario.
    ///
    /// These are refused, and the first that applies is the one reported: a line that is not plain
    /// (`Fields`), another first field (`Kind`), another number of fields or a 65th fault (`Fields`),
    /// and then, from left to right, a field that is not a number of its range (`Number`) or not such a
    /// name (`Name`). A line that is refused changes nothing, nor does a line for which memory runs out.
    pub fn read(&mut self, alloc: Global, line: &[u8], net: &Network) -> Result<(), TraceFault>
        requires ranges { HasRanges net.now.cfg }
        requires scene { IsSceneOf net.now.cfg self.old }
        ensures value { IsReading (scene_read net.now.cfg self.old line.now) (outcome result self.new) }
        ensures unchanged { IsErr result → self.new ≡ self.old }
        ensures scene { IsSceneOf net.now.cfg self.new }
    {
        if !is_plain(line) {
            return Err(TraceFault::Fields);
        }
        let mut row = ByteRecord::new(alloc);
        match split(alloc, line, &mut row) {
            Ok(()) => self.read_fields(&row, net),
            Err(e) => Err(TraceFault::Memory(e)),
        }
    }

    /// The same for the fields of a line. A line that is refused changes nothing.
    pub fn read_fields(&mut self, row: &ByteRecord, net: &Network) -> Result<(), TraceFault>
        requires ranges { HasRanges net.now.cfg }
        requires scene { IsSceneOf net.now.cfg self.old }
        ensures value { outcome result self.new ≡ scene_of net.now.cfg self.old (fields_of row.now) }
        ensures unchanged { IsErr result → self.new ≡ self.old }
        ensures scene { IsSceneOf net.now.cfg self.new }
    {
        match kind_of(field(row, KIND)) {
            Some(kind) if row.len() == kind.field_count() => self.read_kind(kind, row, &net.cfg),
            Some(_) => Err(TraceFault::Fields),
            None => Err(TraceFault::Kind),
        }
    }

    // The same for the fields of a line of a kind.
    fn read_kind(
        &mut self,
        kind: SceneKind,
        row: &ByteRecord,
        cfg: &NetCfg,
    ) -> Result<(), TraceFault>
        requires ranges { HasRanges cfg.now }
        requires scene { IsSceneOf cfg.now self.old }
        ensures value { outcome result self.new ≡ line_of_kind cfg.now self.old kind (fields_of row.now) }
        ensures unchanged { IsErr result → self.new ≡ self.old }
        ensures scene { IsSceneOf cfg.now self.new }
    {
        match kind {
            SceneKind::Length => self.length_line(row, cfg),
            SceneKind::Fibre => self.fibre_line(row, cfg),
            SceneKind::Offset => self.offset_line(row, cfg),
            SceneKind::Free => self.free_line(row, cfg),
            SceneKind::Loss => self.loss_line(row, cfg),
            SceneKind::Repeat => self.repeat_line(row, cfg),
            SceneKind::Fault => self.fault_line(row, cfg),
        }
    }

    // `length,MS`.
    #[tactic(auto, using(crate::proofs::SceneLemmas::with_duration))]
    fn length_line(&mut self, row: &ByteRecord, cfg: &NetCfg) -> Result<(), TraceFault>
        requires { IsSceneOf cfg.now self.old }
        ensures value { outcome result self.new ≡ length_line self.old (fields_of row.now) }
        ensures unchanged { IsErr result → self.new ≡ self.old }
        ensures scene { IsSceneOf cfg.now self.new }
    {
        let _of = cfg;
        let ms = time_at(row, 2)?;
        self.duration = tau_of_ms(ms);
        Ok(())
    }

    // `fibre,LINK,SUM`.
    #[tactic(auto, using(crate::proofs::SceneLemmas::with_sum))]
    fn fibre_line(&mut self, row: &ByteRecord, cfg: &NetCfg) -> Result<(), TraceFault>
        requires ranges { HasRanges cfg.now }
        requires scene { IsSceneOf cfg.now self.old }
        ensures value { outcome result self.new ≡ fibre_line cfg.now self.old (fields_of row.now) }
        ensures unchanged { IsErr result → self.new ≡ self.old }
        ensures scene { IsSceneOf cfg.now self.new }
    {
        let link = link_at(row, 2, cfg)?;
        let sum = sum_at(row, 3, cfg)?;
        self.sums[usize::from(link)] = sum;
        Ok(())
    }

    // A node's clock has this offset when the node comes up.
    fn put_offset(&mut self, node: u8, off: Tau)
        requires { node < length self.old.offsets }
        ensures { self.new ≡ record self.old { offsets = slice_set self.old.offsets node off } }
    {
        self.offsets[usize::from(node)] = off;
    }

    // `offset,NODE,NS`.
    fn offset_line(&mut self, row: &ByteRecord, cfg: &NetCfg) -> Result<(), TraceFault>
        requires { IsSceneOf cfg.now self.old }
        ensures value { outcome result self.new ≡ offset_line cfg.now self.old (fields_of row.now) }
        ensures unchanged { IsErr result → self.new ≡ self.old }
        ensures scene { IsSceneOf cfg.now self.new }
    {
        let node = lower_at(row, 2, cfg)?;
        let ns = ns_at(row, 3)?;
        self.put_offset(node, off_of_ns(ns));
        Ok(())
    }

    // `free,NODE,RATE`.
    #[tactic(auto, using(crate::proofs::SceneLemmas::with_free))]
    fn free_line(&mut self, row: &ByteRecord, cfg: &NetCfg) -> Result<(), TraceFault>
        requires { IsSceneOf cfg.now self.old }
        ensures value { outcome result self.new ≡ free_line cfg.now self.old (fields_of row.now) }
        ensures unchanged { IsErr result → self.new ≡ self.old }
        ensures scene { IsSceneOf cfg.now self.new }
    {
        let node = node_at(row, 2, cfg)?;
        let rate = rate_at(row, 3)?;
        self.frees[usize::from(node)] = rate;
        Ok(())
    }

    // `loss,PERMILLE`.
    #[tactic(auto, using(crate::proofs::SceneLemmas::with_loss))]
    fn loss_line(&mut self, row: &ByteRecord, cfg: &NetCfg) -> Result<(), TraceFault>
        requires { IsSceneOf cfg.now self.old }
        ensures value { outcome result self.new ≡ loss_line self.old (fields_of row.now) }
        ensures unchanged { IsErr result → self.new ≡ self.old }
        ensures scene { IsSceneOf cfg.now self.new }
    {
        let _of = cfg;
        self.loss = permille_at(row, 2)?;
        Ok(())
    }

    // `repeat,PERMILLE`.
    #[tactic(auto, using(crate::proofs::SceneLemmas::with_repeat))]
    fn repeat_line(&mut self, row: &ByteRecord, cfg: &NetCfg) -> Result<(), TraceFault>
        requires { IsSceneOf cfg.now self.old }
        ensures value { outcome result self.new ≡ repeat_line self.old (fields_of row.now) }
        ensures unchanged { IsErr result → self.new ≡ self.old }
        ensures scene { IsSceneOf cfg.now self.new }
    {
        let _of = cfg;
        self.repeat = permille_at(row, 2)?;
        Ok(())
    }

    // `fault,MS,KIND,NAME`.
    #[tactic(auto, using(crate::proofs::SceneLemmas::with_fault))]
    fn fault_line(&mut self, row: &ByteRecord, cfg: &NetCfg) -> Result<(), TraceFault>
        requires { IsSceneOf cfg.now self.old }
        ensures value { outcome result self.new ≡ fault_line cfg.now self.old (fields_of row.now) }
        ensures unchanged { IsErr result → self.new ≡ self.old }
        ensures scene { IsSceneOf cfg.now self.new }
    {
        if self.faults.len() >= MOST_FAULTS {
            return Err(TraceFault::Fields);
        }
        let fault = fault_at(row, cfg)?;
        self.faults.push(fault);
        Ok(())
    }
}
