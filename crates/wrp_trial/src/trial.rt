//! A world under test: its network with its laws, and what follows from an event.
ghost use Rattle.std.specs.Prelude.{◌≡◌, ◌≤◌, length, IfOk, IsTrue};
ghost use Rattle.wrp_network.specs.Network.{node_count};
ghost use Rattle.wrp_config.specs.Accepted.{IsAccepted};
ghost use Rattle.wrp_law.specs.declared.delay.LawKind.TheVariants.{Linear};
ghost use Rattle.wrp_law.specs.Law.{KeepsFact};
ghost use Rattle.wrp_world.specs.New.{FitsLaw};
ghost use Rattle.wrp_plant.specs.Plant.{Each};
ghost use Rattle.wrp_world.specs.StandsFor.{IsValid};

use crate::fitting::can_come;
use crate::network::THREE_NODES;
use std::alloc::{AllocError, AllocFailed, Global};
use wrp_base::{ConfFault, Tau};
use wrp_config::Network;
use wrp_law::{DelayLaw, LawKind};
use wrp_network::{LinkCfg, NetCfg, link_above};
use wrp_network_text::ReadNetwork;
use wrp_world::{Event, NodeOut, Refused, World};

/// Why there is no world under test.
#[derive(Clone, Copy, Debug, PartialEq, Eq)]
pub enum Lack {
    /// There was no memory.
    Memory,
    /// The network is not accepted, or not one of three nodes below each other with the two laws.
    Network,
}

impl From<AllocError> for Lack {
    fn from(_e: AllocError) -> Lack {
        Lack::Memory
    }
}

impl<T: Drop> From<AllocFailed<T>> for Lack {
    fn from(_e: AllocFailed<T>) -> Lack {
        Lack::Memory
    }
}

/// What follows from an event.
#[derive(Clone, Copy, Debug, PartialEq, Eq)]
pub enum Told {
    /// It is taken.
    Taken,
    /// It breaks this premise, with both sides.
    Broken(u8, Tau, Tau),
    /// There was no memory.
    Memory,
    /// It is no event of the network.
    Foreign,
}

/// A world, how many events it took, how often it had no memory for one, and the steps of the last event.
#[derive(Drop)]
pub struct Trial<F> {
    pub world: World<F>,
    pub came: u32,
    pub refused: u32,
    pub outs: Vec<NodeOut>,
}

// Whether a law has the kind of a link, and at most its error.
fn is_law_of<F: Fn(i64) -> i64>(link: &LinkCfg, law: &DelayLaw<F>) -> bool
    ensures kind { IsTrue result → law.now.kind ≡ Linear link.now.kappa }
    ensures err { IsTrue result → law.now.err ≤ link.now.law_err }
{
    match law.kind() {
        LawKind::Linear { kappa } => kappa == link.kappa && law.err() <= link.law_err,
    }
}

// The laws of three nodes, of which all but the first have one.
fn laws_of<F: Fn(i64) -> i64>(
    alloc: Global,
    cfg: &NetCfg,
    law: DelayLaw<F>,
    other: DelayLaw<F>,
) -> Result<Vec<Option<DelayLaw<F>>>, Lack>
    requires law { KeepsFact F.pre F.post law }
    requires other { KeepsFact F.pre F.post other }
    ensures count { IfOk result (λ laws. length laws.items ≡ node_count cfg.now) }
    ensures each { IfOk result (λ laws. Each (FitsLaw F.pre F.post cfg.now) laws.items) }
{
    let (None, Some(first), Some(second)) = (
        link_above(cfg, 0),
        link_above(cfg, 1),
        link_above(cfg, 2),
    ) else {
        return Err(Lack::Network);
    };
    if cfg.nodes.len() != 3 || !is_law_of(first, &law) || !is_law_of(second, &other) {
        return Err(Lack::Network);
    }
    let mut laws = Vec::new(alloc);
    laws.push(None)?;
    laws.push(Some(law))?;
    laws.push(Some(other))?;
    Ok(laws)
}

// Why a text gives no network.
fn lack_of(fault: &ConfFault) -> Lack {
    match fault {
        ConfFault::Memory(_) => Lack::Memory,
        ConfFault::Fault { .. } => Lack::Network,
    }
}

// The network of three nodes, with these keys.
fn network(alloc: Global, keys: &str) -> Result<Network, Lack>
    ensures { IfOk result (λ net. IsAccepted net.cfg net.db) }
{
    let mut text = keys.to_string(alloc)?;
    text.push_str(THREE_NODES)?;
    match Network::read(alloc, text.as_bytes()) {
        Ok(net) => Ok(net),
        Err(fault) => Err(lack_of(&fault)),
    }
}

/// The world of three nodes with these keys, before any event.
pub fn trial_of<F: Fn(i64) -> i64>(
    alloc: Global,
    keys: &str,
    law: DelayLaw<F>,
    other: DelayLaw<F>,
) -> Result<Trial<F>, Lack>
    requires law { KeepsFact F.pre F.post law }
    requires other { KeepsFact F.pre F.post other }
    ensures valid { IfOk result (λ trial. IsValid F.pre F.post trial.world) }
    ensures came { IfOk result (λ trial. trial.world.plant.events ≤ trial.came) }
{
    let net = network(alloc, keys)?;
    let laws = laws_of(alloc, &net.cfg, law, other)?;
    Ok(Trial {
        world: World::new(alloc, net, laws)?,
        came: 0,
        refused: 0,
        outs: Vec::new(alloc),
    })
}

// An event comes.
fn give<F: Fn(i64) -> i64>(trial: &mut Trial<F>, event: &Event) -> Told
    requires valid { IsValid F.pre F.post trial.old.world }
    requires came { trial.old.world.plant.events ≤ trial.old.came }
    ensures valid { IsValid F.pre F.post trial.new.world }
    ensures came { trial.new.world.plant.events ≤ trial.new.came }
    ensures net { trial.new.world.plant.net ≡ trial.old.world.plant.net }
{
    if trial.came == u32::MAX || !can_come(&trial.world.net().cfg, event) {
        return Told::Foreign;
    }
    match trial.world.step_into(event, &mut trial.outs) {
        Ok(()) => {
            trial.came += 1;
            Told::Taken
        }
        Err(
            Refused::Broken {
                premise,
                shown,
                bound,
            },
        ) => Told::Broken(premise, shown, bound),
        Err(Refused::Memory(_)) => {
            trial.refused = trial.refused.saturating_add(1);
            Told::Memory
        }
    }
}

/// An event comes; if memory ran out the world is as it was, and the event comes once more.
pub fn takes<F: Fn(i64) -> i64>(trial: &mut Trial<F>, event: &Event) -> Told
    requires valid { IsValid F.pre F.post trial.old.world }
    requires came { trial.old.world.plant.events ≤ trial.old.came }
    ensures valid { IsValid F.pre F.post trial.new.world }
    ensures came { trial.new.world.plant.events ≤ trial.new.came }
    ensures net { trial.new.world.plant.net ≡ trial.old.world.plant.net }
{
    match give(trial, event) {
        Told::Memory => give(trial, event),
        told => told,
    }
}
