//! A network that is audited: its world, stepped by events.
ghost use Rattle.std.specs.Prelude.{◌≡◌, ◌<◌, ◌≤◌, ◌+◌, ◌++◌, [], ◌^◌, ℕ, List, IfOk, IfSome, map};
ghost use Rattle.std.specs.List.{AllByRecursion, flat_map};
ghost use Rattle.wrp_network.specs.Network.{node_count};
ghost use Rattle.wrp_config.specs.Accepted.{IsAccepted};
ghost use Rattle.wrp_lines.specs.Lines.{output_line_of};
ghost use Rattle.wrp_trace.specs.Events.{bare};
ghost use Rattle.wrp_trace.specs.Places.{event_in};
ghost use Rattle.wrp_course.specs.declared.node_out.NodeOut.{NodeOut};
ghost use Rattle.wrp_course.specs.EventAt.{IsEventOf};
ghost use Rattle.wrp_course.specs.Setting.{Setting};
ghost use Rattle.wrp_world.specs.StandsFor.{IsValid, StandsFor};
ghost use Rattle.wrp_world.specs.Step.{step_seen};
ghost use Rattle.wrp_course.specs.WorldAt.{WorldAt};
ghost use Rattle.wrp_audit.specs.AuditStands.{CanAudit, Happens, HasAudited, line_by};
ghost use Rattle.wrp_network_world.specs.NetworkSetting.{setting_in};
ghost use Rattle.wrp_audit.specs.AuditText.{given_line, step_lines};
ghost use Rattle.wrp_network_world.specs.Bounds.{AreBounds};
ghost use Rattle.wrp_network_world.specs.LawsFit.{LawsFit};
ghost use Rattle.wrp_audit.specs.Audits.{meaning_for};

use crate::broken::append_broken;
use std::alloc::{AllocError, Global};
use wrp_base::Tau;
use wrp_config::Network;
use wrp_law::DelayLaw;
use wrp_lines::append_line;
use wrp_network_world::{append_all_counts, bounds_of, name_of};
use wrp_node::Output;
use wrp_records::{Refusal, Taken};
use wrp_trace::{EventPlace, append_input_line};
use wrp_world::{NodeOut, Refused, World};

/// A network as far as it is audited: its world, the node whose inputs are asked for, if there is one, the bounds
/// of its nodes in TRACK, and a place for the steps of an event.
#[derive(Drop)]
pub struct AuditedNetwork<F> {
    world: World<F>,
    emit: Option<u8>,
    bounds: Vec<Tau>,
    outs: Vec<NodeOut>,
}

impl<F: Fn(i64) -> i64> AuditedNetwork<F> {
    /// A network before its first event, with the laws of the links above its nodes. `AllocError`
    /// if memory runs out: no network is made.
    pub fn new(
        alloc: Global,
        net: Network,
        laws: Vec<Option<DelayLaw<F>>>,
        emit: Option<u8>,
    ) -> Result<AuditedNetwork<F>, AllocError>
        requires accepted { IsAccepted net.cfg net.db }
        requires laws { LawsFit F.pre F.post net laws.items }
        requires emit { IfSome emit (λ n. n < node_count net.cfg) }
        ensures ready { IfOk result (CanAudit F.pre F.post) }
        ensures taken { IfOk result (λ held. HasAudited F.post held []) }
        ensures net { IfOk result (λ held. held.world.plant.net ≡ net) }
        ensures emit { IfOk result (λ held. held.emit ≡ emit) }
        ensures none { IfOk result (λ held. held.world.plant.events ≡ 0) }
    {
        let bounds = bounds_of(alloc, &net)?;
        let world = World::new(alloc, net, laws)?;
        Ok(AuditedNetwork {
            world,
            emit,
            bounds,
            outs: Vec::new(alloc),
        })
    }

    /// The network.
    pub fn net(&self) -> &Network
        ensures { result.now ≡ self.now.world.plant.net }
    {
        self.world.net()
    }

    /// Appends the lines that close the records. `AllocError` if memory runs out: then nothing is
    /// known of `text`.
    pub fn append_last(&self, text: &mut Vec<u8>) -> Result<(), AllocError>
        requires ready { CanAudit F.pre F.post self.now }
        requires none { text.old.items ≡ [] }
        ensures { IfOk result (λ _. (lines : List (List ℕ)) → HasAudited F.post self.now lines
            → (meaning_for self.now.emit (setting_in self.now.world.plant.net)).closes lines
            text.new.items) }
    {
        match self.emit {
            None => append_all_counts(&self.world, text),
            Some(_) => Ok(()),
        }
    }

    /// Takes the event that a place holds, and appends what its steps write, or the line that names
    /// the premise that it breaks. `AllocError` if memory runs out: then nothing is known of
    /// `text`, nor of whether the event was taken, so the audit ends.
    pub fn happen(
        &mut self,
        alloc: Global,
        place: &EventPlace,
        number: u32,
        text: &mut Vec<u8>,
    ) -> Result<Taken, AllocError>
        requires ready { CanAudit F.pre F.post self.old }
        requires event { IsEventOf self.old.world.plant.net.cfg (event_in place.now) }
        requires none { text.old.items ≡ [] }
        requires room { self.old.world.plant.events + 1 < 2 ^ 32 }
        ensures ready { CanAudit F.pre F.post self.new }
        ensures net { self.new.world.plant.net ≡ self.old.world.plant.net }
        ensures emit { self.new.emit ≡ self.old.emit }
        ensures count { self.new.world.plant.events ≤ self.old.world.plant.events + 1 }
        ensures happens { IfOk result (λ taken. (w : WorldAt)
            → StandsFor F.post (setting_in self.old.world.plant.net) w self.old.world
            → Happens F.post self.old.emit (setting_in self.old.world.plant.net) w (bare (event_in place.now))
            number self.new.world text.new.items taken) }
    {
        match self.world.step_into(place.event(), &mut self.outs) {
            Ok(()) => {
                self.write(alloc, text)?;
                Ok(Taken::Accepted)
            }
            Err(
                Refused::Broken {
                    premise,
                    shown,
                    bound,
                },
            ) => {
                append_broken(alloc, text, number, premise, shown, bound)?;
                Ok(Taken::Refused(Refusal::Broken))
            }
            Err(Refused::Memory(fault)) => Err(fault),
        }
    }

    // Appends what the steps of an event write.
    fn write(&self, alloc: Global, text: &mut Vec<u8>) -> Result<(), AllocError>
        requires valid { IsValid F.pre F.post self.now.world }
        requires bounds { AreBounds self.now.world.plant.net.cfg self.now.bounds.items }
        requires nodes { AllByRecursion (λ (out : NodeOut).
            out.node < node_count self.now.world.plant.net.cfg) self.now.outs.items }
        ensures { IfOk result (λ _. (s : Setting) (w : WorldAt)
            → StandsFor F.post s w self.now.world → text.new.items ≡ text.old.items
            ++ flat_map (line_by self.now.emit s w) (map step_seen self.now.outs.items)) }
    {
        append_steps(
            alloc,
            &self.world,
            &self.bounds,
            self.emit,
            &self.outs,
            text,
        )
    }
}

// Appends what these steps write in an event that led to this world.
fn append_steps<F: Fn(i64) -> i64>(
    alloc: Global,
    world: &World<F>,
    bounds: &[Tau],
    emit: Option<u8>,
    outs: &[NodeOut],
    text: &mut Vec<u8>,
) -> Result<(), AllocError>
    requires valid { IsValid F.pre F.post world.now }
    requires bounds { AreBounds world.now.plant.net.cfg bounds.now }
    requires nodes { AllByRecursion (λ (out : NodeOut).
        out.node < node_count world.now.plant.net.cfg) outs.now }
    ensures { IfOk result (λ _. (s : Setting) (w : WorldAt)
        → StandsFor F.post s w world.now → text.new.items ≡ text.old.items
        ++ flat_map (line_by emit s w) (map step_seen outs.now)) }
{
    for out in outs {
        append_one(alloc, world, bounds, emit, out, text)?;
    }
    Ok(())
}

// Appends what a step of a node writes.
fn append_one<F: Fn(i64) -> i64>(
    alloc: Global,
    world: &World<F>,
    bounds: &[Tau],
    emit: Option<u8>,
    out: &NodeOut,
    text: &mut Vec<u8>,
) -> Result<(), AllocError>
    requires valid { IsValid F.pre F.post world.now }
    requires bounds { AreBounds world.now.plant.net.cfg bounds.now }
    requires node { out.now.node < node_count world.now.plant.net.cfg }
    ensures { IfOk result (λ _. (s : Setting) (w : WorldAt)
        → StandsFor F.post s w world.now → text.new.items ≡ text.old.items
        ++ line_by emit s w (step_seen out.now)) }
{
    match emit {
        None => append_step(alloc, world, bounds, out, text),
        Some(node) => append_given(alloc, world.net(), node, out, text),
    }
}

// Appends the lines of what a node put out in an event that led to this world.
fn append_step<F: Fn(i64) -> i64>(
    alloc: Global,
    world: &World<F>,
    bounds: &[Tau],
    out: &NodeOut,
    text: &mut Vec<u8>,
) -> Result<(), AllocError>
    requires valid { IsValid F.pre F.post world.now }
    requires bounds { AreBounds world.now.plant.net.cfg bounds.now }
    requires node { out.now.node < node_count world.now.plant.net.cfg }
    ensures { IfOk result (λ _. (s : Setting) (w : WorldAt)
        → StandsFor F.post s w world.now → text.new.items ≡ text.old.items
        ++ step_lines s w (step_seen out.now)) }
{
    let ticks = world.node(out.node).ticks();
    let off = world.off(out.node);
    let net = world.net();
    let name = name_of(net, out.node);
    let bound = bounds[usize::from(out.node)];
    append_outputs(alloc, name, ticks, bound, Some(off), &out.outs, text)
}

// Appends the lines of a node's outputs at a tick, with its true offset if it is known.
fn append_outputs(
    alloc: Global,
    name: &str,
    ticks: u32,
    bound: Tau,
    truth: Option<Tau>,
    outs: &[Output],
    text: &mut Vec<u8>,
) -> Result<(), AllocError>
    ensures { IfOk result (λ _. text.new.items ≡ text.old.items
        ++ flat_map (λ o. output_line_of name.now ticks o bound truth) outs.now) }
{
    for out in outs {
        append_line(alloc, name, ticks, out, bound, truth, text)?;
    }
    Ok(())
}

// Appends the line of the input that a step gave the node, if the step is the node's own.
fn append_given(
    alloc: Global,
    net: &Network,
    node: u8,
    out: &NodeOut,
    text: &mut Vec<u8>,
) -> Result<(), AllocError>
    ensures { IfOk result (λ _. (s : Setting) → net.now.cfg ≡ s.cfg → net.now.db ≡ s.db
        → text.new.items ≡ text.old.items ++ given_line s node (step_seen out.now)) }
{
    if out.node == node {
        append_input_line(alloc, node, &out.input, net, text)
    } else {
        Ok(())
    }
}
