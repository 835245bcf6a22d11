//! What is tested after every event: by what the world reports, and by nothing that it keeps for itself.
ghost use Rattle.std.specs.Prelude.{◌≡◌, ◌<◌, IsTrue, length, true};
ghost use Rattle.wrp_node.specs.Parts.{is_among};
ghost use Rattle.wrp_world.specs.StandsFor.{IsValid};

use crate::counts::Counts;
use crate::failure::Failure;
use wrp_base::{LinkState, LinkWord, Role, ServoState};
use wrp_bounds::{holdover, path};
use wrp_check::judge;
use wrp_network::LinkCfg;
use wrp_node::{Input, Node};
use wrp_world::World;

// The most nodes of a network.
const MOST_NODES: u8 = 64;

// An end of a link: a node, and its port there.
#[derive(Clone, Copy)]
struct End {
    node: u8,
    port: u16,
}

// Whether a node has a port.
fn has_port<F: Fn(i64) -> i64>(node: &Node<F>, port: u16) -> bool
    ensures { IsTrue result → is_among port node.now.parts.ports ≡ true }
{
    node.fits(&Input::Carrier {
        port,
        up: false,
        module: None,
    })
}

// Whether a port is in WR_LINK_ON.
fn is_on<F: Fn(i64) -> i64>(world: &World<F>, end: End) -> bool
    requires { IsValid F.pre F.post world.now }
{
    if world.net().cfg.nodes.len() <= usize::from(end.node) {
        return false;
    }
    let node = world.node(end.node);
    has_port(node, end.port) && node.word(end.port) == LinkWord::In(LinkState::LinkOn)
}

// Judges a port by its own history and its peer's, if it is in WR_LINK_ON.
fn judge_end<F: Fn(i64) -> i64>(
    world: &World<F>,
    own: End,
    peer: End,
    role: Role,
    counts: &mut Counts,
) -> Result<(), Failure>
    requires { IsValid F.pre F.post world.now }
{
    if !is_on(world, own) {
        return Ok(());
    }
    let history = world.history(own.node, own.port);
    match judge(history, world.history(peer.node, peer.port), role) {
        Ok(()) => {
            counts.judge();
            Ok(())
        }
        Err(verdict) => Err(Failure::Judged {
            node: own.node,
            port: own.port,
            verdict,
        }),
    }
}

// Judges both ends of a link.
fn judge_link<F: Fn(i64) -> i64>(
    world: &World<F>,
    link: &LinkCfg,
    counts: &mut Counts,
) -> Result<(), Failure>
    requires { IsValid F.pre F.post world.now }
{
    let upper = End {
        node: link.upper,
        port: link.upper_port,
    };
    let lower = End {
        node: link.lower,
        port: link.lower_port,
    };
    judge_end(world, upper, lower, Role::Master, counts)?;
    judge_end(world, lower, upper, Role::Slave, counts)
}

/// Judges each port that is in WR_LINK_ON.
pub fn judge_all<F: Fn(i64) -> i64>(world: &World<F>, counts: &mut Counts) -> Result<(), Failure>
    requires { IsValid F.pre F.post world.now }
{
    for link in world.net().cfg.links.iter() {
        judge_link(world, link, counts)?;
    }
    Ok(())
}

// Compares a node's true offset with its bound, if it is up and in TRACK or HOLDOVER.
fn compare<F: Fn(i64) -> i64>(
    world: &World<F>,
    node: u8,
    counts: &mut Counts,
) -> Result<(), Failure>
    requires valid { IsValid F.pre F.post world.now }
    requires node { node < length world.now.nodes }
{
    if !world.is_up(node) {
        return Ok(());
    }
    let cfg = &world.net().cfg;
    let state = world.node(node).servo();
    let bound = match state {
        ServoState::Track => path(cfg, node),
        ServoState::Holdover => holdover(cfg, node),
        _ => return Ok(()),
    };
    let off = world.off(node);
    if off.unsigned_abs() > bound.unsigned_abs() {
        return Err(Failure::Beyond { node, off, bound });
    }
    if state == ServoState::Track {
        counts.track();
    } else {
        counts.hold();
    }
    Ok(())
}

/// Compares each node that is up and in TRACK or HOLDOVER with its bound.
pub fn compare_all<F: Fn(i64) -> i64>(world: &World<F>, counts: &mut Counts) -> Result<(), Failure>
    requires { IsValid F.pre F.post world.now }
{
    for node in 0..MOST_NODES {
        if world.net().cfg.nodes.len() <= usize::from(node) {
            return Ok(());
        }
        compare(world, node, counts)?;
    }
    Ok(())
}
