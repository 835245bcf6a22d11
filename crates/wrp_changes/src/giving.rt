//! The inputs that an event gives to the nodes. They are listed before anything changes.
mod down;
mod ends;
mod frames;
mod links;
mod listing;
mod reused;
mod single;
mod up;

ghost use Rattle.std.specs.Prelude.{◌≡◌, ◌≤◌, ◌<◌, ◌+◌, ◌^◌, [], ℕ, length, OnOk, Result};
ghost use Rattle.std.specs.List.{AllByRecursion};
ghost use Rattle.wrp_base.specs.declared.message.PtpMsg.{PtpMsg};
ghost use Rattle.wrp_frame.specs.declared.fault.FrameFault.{FrameFault};
ghost use Rattle.wrp_network.specs.Network.{node_count};
ghost use Rattle.wrp_node.specs.Set.{set_of};
ghost use Rattle.wrp_course.specs.declared.event.Event.{Event as EventAt};
ghost use Rattle.wrp_course.specs.declared.event.Event.TheVariants as event;
ghost use Rattle.wrp_course.specs.EventAt.{IsEventOf, IsRaw, IsTime};
ghost use Rattle.wrp_changes.specs.FitsGifts.{FitsGift};
ghost use Rattle.wrp_changes.specs.Gifts.{AreGifts};
ghost use Rattle.wrp_changes.specs.Giving.{Gives, entries_of, put_of};
ghost use Rattle.wrp_plant.specs.Plant.{FitsPlant, PlantIs};
ghost use Rattle.wrp_course.specs.Premises.{Accepts};
ghost use Rattle.wrp_course.specs.Run.{IsSaid};
ghost use Rattle.wrp_course.specs.Setting.{Setting};
ghost use Rattle.wrp_course.specs.WorldAt.{WorldAt};

use down::give_down;
use frames::{gift_of_departure, gift_of_frame, sent_at};
use links::{give_cut, give_join};
use listing::{Gift, lay_aside, put};
use reused::{put_sample, put_tick};
use single::gift_of_noise;
use std::alloc::AllocError;
use up::give_up;
use wrp_base::{Frame, Raw, Tau};
use wrp_course::{Event, NodeOut};
use wrp_plant::Plant;

/// The greatest port number.
const LAST_PORT: u16 = 18;

/// The true time at which the frame that an event hands over was put out, in tau. 0 if the event hands over no
/// frame.
pub fn put_out_at(plant: &Plant, event: &Event) -> Tau
    requires { FitsPlant plant.now }
    ensures { result ≡ put_of plant.now event.now }
{
    match event {
        Event::Deliver { frame } => sent_at(plant, *frame),
        _ => 0,
    }
}

// Lists the input of an event that gives at most one.
fn list(
    plant: &Plant,
    gift: Option<Gift>,
    outs: &mut Vec<NodeOut>,
    aside: &mut Vec<NodeOut>,
) -> Result<(), AllocError>
    ensures { OnOk result ((e : EventAt) → Gives plant.now e (entries_of gift)
        → Gives plant.now e outs.new.items) }
{
    put(outs, aside, gift)
}

// A departure, a frame and octets are each listed in a call of their own. Such a call clears room for the input when
// it begins, and other events are not slowed down by that.

// Lists the input of a tick.
fn list_tick(
    plant: &Plant,
    n: u8,
    outs: &mut Vec<NodeOut>,
    aside: &mut Vec<NodeOut>,
) -> Result<(), AllocError>
    requires { n < node_count plant.now.net.cfg }
    ensures { OnOk result (Gives plant.now (event.Tick n) outs.new.items) }
{
    put_tick(outs, aside, n)
}

// Lists the input of a sample.
fn list_sample(
    plant: &Plant,
    n: u8,
    base: u16,
    bits: u64,
    outs: &mut Vec<NodeOut>,
    aside: &mut Vec<NodeOut>,
) -> Result<(), AllocError>
    requires fits { FitsPlant plant.now }
    requires node { n < node_count plant.now.net.cfg }
    requires base { base ≤ 16_383 }
    requires few { plant.now.events + 1 < 2 ^ 32 }
    ensures { OnOk result (Gives plant.now (event.Sample n base bits) outs.new.items) }
{
    let number = plant.clock(n).samples + 1;
    put_sample(outs, aside, n, number, base, bits)
}

// Lists the input of a departure, if it has one.
#[inline(never)]
fn list_departure(
    plant: &Plant,
    n: u8,
    port: u16,
    stamp: Tau,
    outs: &mut Vec<NodeOut>,
    aside: &mut Vec<NodeOut>,
) -> Result<(), AllocError>
    requires fits { FitsPlant plant.now }
    requires node { n < node_count plant.now.net.cfg }
    requires stamp { IsTime stamp }
    ensures { OnOk result (Gives plant.now (event.Depart n port stamp) outs.new.items) }
{
    list(plant, gift_of_departure(plant, n, port, stamp), outs, aside)
}

// Lists the input of a frame that is handed over, if it has one.
#[inline(never)]
fn list_frame(
    plant: &Plant,
    number: u32,
    outs: &mut Vec<NodeOut>,
    aside: &mut Vec<NodeOut>,
) -> Result<(), AllocError>
    requires fits { FitsPlant plant.now }
    ensures { OnOk result (Gives plant.now (event.Deliver number) outs.new.items) }
{
    list(plant, gift_of_frame(plant, number), outs, aside)
}

// Lists the input of octets that the peer did not send, if it has one.
#[inline(never)]
fn list_noise(
    plant: &Plant,
    n: u8,
    port: u16,
    bytes: &Frame,
    raw: Raw,
    outs: &mut Vec<NodeOut>,
    aside: &mut Vec<NodeOut>,
) -> Result<(), AllocError>
    requires fits { FitsPlant plant.now }
    requires node { n < node_count plant.now.net.cfg }
    requires raw { IsRaw raw }
    ensures { OnOk result (Gives plant.now (event.Noise n port bytes.now raw) outs.new.items) }
{
    list(
        plant,
        gift_of_noise(plant, n, port, bytes, raw),
        outs,
        aside,
    )
}

// Lists no input.
fn list_none(outs: &mut Vec<NodeOut>, aside: &mut Vec<NodeOut>) -> Result<(), AllocError>
    ensures { OnOk result (outs.new.items ≡ []) }
{
    lay_aside(outs, aside);
    Ok(())
}

// Lists the inputs of an event.
fn give_by(
    plant: &Plant,
    event: &Event,
    outs: &mut Vec<NodeOut>,
    aside: &mut Vec<NodeOut>,
) -> Result<(), AllocError>
    requires fits { FitsPlant plant.now }
    requires event { IsEventOf plant.now.net.cfg event.now }
    requires few { plant.now.events + 1 < 2 ^ 32 }
    ensures { OnOk result (Gives plant.now event.now outs.new.items) }
{
    match event {
        Event::Tick { node } => list_tick(plant, *node, outs, aside),
        Event::Sample { node, base, bits } => {
            list_sample(plant, *node, *base, *bits, outs, aside)
        }
        Event::Depart { node, port, stamp } => {
            list_departure(plant, *node, *port, *stamp, outs, aside)
        }
        Event::Deliver { frame } => list_frame(plant, *frame, outs, aside),
        Event::Noise {
            node,
            port,
            bytes,
            raw,
        } => list_noise(plant, *node, *port, bytes, *raw, outs, aside),
        Event::Down { node } => give_down(plant, *node, outs),
        Event::Up { node, swaps, .. } => give_up(plant, *node, swaps, outs),
        Event::Cut { link } => give_cut(plant, *link, outs),
        Event::Join { link, .. } => give_join(plant, *link, outs),
        Event::Pass { .. } => list_none(outs, aside),
        Event::Arrive { .. } => list_none(outs, aside),
    }
}

/// Lists the inputs that an event gives to the nodes in `outs`, in order, instead of what was there: at most
/// 37. This happens before the event changes anything. `AllocError` if there is not enough memory; then the
/// contents of `outs` are not specified. In both cases the outputs in the entries and the contents of `aside`
/// are not specified.
pub fn give(
    plant: &Plant,
    event: &Event,
    outs: &mut Vec<NodeOut>,
    aside: &mut Vec<NodeOut>,
) -> Result<(), AllocError>
    requires fits { FitsPlant plant.now }
    requires event { IsEventOf plant.now.net.cfg event.now }
    requires few { plant.now.events + 1 < 2 ^ 32 }
    ensures gifts { OnOk result ((s : Setting) (w : WorldAt) (says : Result PtpMsg FrameFault)
        → ((n : ℕ) → s.set n ≡ set_of s.cfg n) → PlantIs s w plant.now → IsSaid event.now says
        → Accepts s w says event.now
        → AreGifts s w says event.now (put_of plant.now event.now) outs.new.items) }
    ensures inputs { OnOk result (AllByRecursion (FitsGift plant.now.net.cfg) outs.new.items) }
    ensures few { OnOk result (length outs.new.items ≤ 37) }
{
    give_by(plant, event, outs, aside)
}
