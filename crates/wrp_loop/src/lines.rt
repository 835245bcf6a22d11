//! The lines that a loop writes: each event, and what the nodes' steps in it put out.
ghost use Rattle.std.specs.Prelude.{◌≡◌, ◌<◌, ◌++◌, Some, IfOk, OnOk, map};
ghost use Rattle.std.specs.List.{concat, flat_map};
ghost use Rattle.wrp_network.specs.Network.{node_count};
ghost use Rattle.wrp_config.specs.Accepted.{IsAccepted};
ghost use Rattle.wrp_lines.specs.Lines as lines;
ghost use Rattle.wrp_loop.specs.LoopText.{forged_lines, marked_line, step_lines};
ghost use Rattle.wrp_course.specs.EventAt.{IsEventOf};
ghost use Rattle.wrp_course.specs.Setting.{Setting};
ghost use Rattle.wrp_course.specs.WorldAt.{WorldAt};
ghost use Rattle.wrp_world.specs.StandsFor.{IsValid, StandsFor};
ghost use Rattle.wrp_world.specs.Step.{step_seen};
ghost use Rattle.wrp_world.specs.Taking.{AreOfNodes};

use itoa::Buffer;
use std::alloc::{AllocError, Global};
use wrp_base::Tau;
use wrp_config::Network;
use wrp_lines::append_output_line;
use wrp_node::Output;
use wrp_records::append_words;
use wrp_trace::event_line;
use wrp_world::{Event, NodeOut, World};

/// Appends the line of an event, after `= `. `AllocError` if memory runs out: then nothing is known
/// of `text`.
pub fn append_event(
    alloc: Global,
    event: &Event,
    net: &Network,
    text: &mut Vec<u8>,
) -> Result<(), AllocError>
    requires accepted { IsAccepted net.now.cfg net.now.db }
    requires event { IsEventOf net.now.cfg event.now }
    ensures { OnOk result (text.new.items ≡ text.old.items ++ marked_line net.now.cfg event.now) }
{
    let line = event_line(alloc, event, net)?;
    text.push(b'=')?;
    text.push(b' ')?;
    text.extend_from_slice(&line)?;
    text.push(b'\n')?;
    Ok(())
}

/// Appends what these steps put out in an event that led to this world. `AllocError` if memory runs
/// out: then nothing is known of `text`.
pub fn append_steps<F: Fn(i64) -> i64>(
    alloc: Global,
    world: &World<F>,
    outs: &[NodeOut],
    text: &mut Vec<u8>,
) -> Result<(), AllocError>
    requires valid { IsValid F.pre F.post world.now }
    requires nodes { AreOfNodes world.now.plant.net.cfg outs.now }
    ensures { IfOk result (λ _. (s : Setting) (w : WorldAt)
        → StandsFor F.post s w world.now → text.new.items ≡ text.old.items
        ++ flat_map (λ step. concat (step_lines s w step)) (map step_seen outs.now)) }
{
    for out in outs {
        append_step(alloc, world, out, text)?;
    }
    Ok(())
}

// Appends the lines of what a node put out in an event that led to this world.
fn append_step<F: Fn(i64) -> i64>(
    alloc: Global,
    world: &World<F>,
    out: &NodeOut,
    text: &mut Vec<u8>,
) -> Result<(), AllocError>
    requires valid { IsValid F.pre F.post world.now }
    requires node { out.now.node < node_count world.now.plant.net.cfg }
    ensures { IfOk result (λ _. (s : Setting) (w : WorldAt)
        → StandsFor F.post s w world.now → text.new.items ≡ text.old.items
        ++ concat (step_lines s w (step_seen out.now))) }
{
    let ticks = world.node(out.node).ticks();
    let off = world.off(out.node);
    append_outputs(alloc, world.net(), out.node, ticks, off, &out.outs, text)
}

// Appends the lines of a node's outputs at a tick, with its true offset.
fn append_outputs(
    alloc: Global,
    net: &Network,
    node: u8,
    ticks: u32,
    off: Tau,
    outs: &[Output],
    text: &mut Vec<u8>,
) -> Result<(), AllocError>
    requires accepted { IsAccepted net.now.cfg net.now.db }
    requires node { node < node_count net.now.cfg }
    ensures { IfOk result (λ _. text.new.items ≡ text.old.items
        ++ flat_map (λ o. lines.output_line net.now.cfg node ticks o (Some off)) outs.now) }
{
    for out in outs {
        append_output_line(alloc, net, node, ticks, out, Some(off), text)?;
    }
    Ok(())
}

/// Appends the last line, which says how many datagrams were forged, if any was. `AllocError` if
/// memory runs out: then nothing is known of `text`.
pub fn append_forged(forged: u64, text: &mut Vec<u8>) -> Result<(), AllocError>
    ensures { OnOk result (text.new.items ≡ text.old.items ++ concat (forged_lines forged)) }
{
    if forged == 0 {
        return Ok(());
    }
    let mut count = Buffer::new();
    append_words(text, &["forged", count.format(forged)])
}
