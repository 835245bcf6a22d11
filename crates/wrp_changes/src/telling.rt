//! How the step of a node changes the rest of the world.
mod clock;
pub mod ends;
mod reads;

ghost use Rattle.std.specs.Prelude.{◌≡◌, ◌<◌, ◌+◌, ℕ, length, true, if◌then◌else◌};
ghost use Rattle.wrp_node.specs.NodeAt.{Taken};
ghost use Rattle.wrp_node.specs.Telling.{Step};
ghost use Rattle.wrp_course.specs.Given.{Given, stepped_by};
ghost use Rattle.wrp_plant.specs.Plant.{FitsPlant, PlantIs};
ghost use Rattle.wrp_base.specs.Clock.{period_of};
ghost use Rattle.wrp_changes.specs.Moves.{At, EachBecame};
ghost use Rattle.wrp_changes.specs.PlantTold.{IsQuiet, IsStepOf, MayStep, SendsFew, Steps, TellsAt, TellsEnds, Told, cycles_in, less_one, sends};
ghost use Rattle.wrp_changes.specs.Room.{HasRoom};
ghost use Rattle.wrp_course.specs.Setting.{Setting};
ghost use Rattle.wrp_plant.specs.Sizes.{IsTime};
ghost use Rattle.wrp_course.specs.WorldAt.{WorldAt};

use wrp_base::{Tau, WrMsg};
use wrp_node::{Output, PortStates};
use wrp_plant::Plant;

/// What is reported of a node's step, apart from its outputs. The link states are borrowed, so nothing copies them.
#[derive(Drop)]
pub struct News<'a> {
    /// The node.
    pub node: u8,
    /// Whether it was given a tick.
    pub ticked: bool,
    /// The link states of its ports before the step.
    pub before: &'a PortStates,
    /// The link states of its ports after the step.
    pub after: &'a PortStates,
    /// The White Rabbit message that it was given, if it was one, with the true time at which the message
    /// was put out, in tau.
    pub by: Option<(WrMsg, Tau)>,
}

// One less, or 0 if there is none.
fn one_less(spare: u8) -> u8
    ensures { result ≡ less_one spare }
{
    if spare == 0 { 0 } else { spare - 1 }
}

// Notes that a step's room is used up, and whether a frame is put out now.
fn note(plant: &mut Plant, sends: bool)
    requires { IsTime plant.old.time }
    ensures { plant.new ≡ record plant.old {
      last_put = if sends then plant.old.time else plant.old.last_put;
      spare = less_one plant.old.spare;
    } }
{
    if sends {
        plant.last_put = plant.time;
    }
    plant.spare = one_less(plant.spare);
}

// Steps a node's clock, and notes its tick.
fn step_clock(plant: &mut Plant, news: &News<'_>, outs: &[Output])
    requires fits { FitsPlant plant.old }
    requires node { news.now.node < length plant.old.net.cfg.nodes.items }
    ensures same { plant.new ≡ record plant.old { clocks = plant.new.clocks } }
    ensures clocks { EachBecame (At news.now.node (Steps (cycles_in outs.now) plant.old.time
        (period_of plant.old.net.cfg.clock) news.now.ticked)) plant.old.clocks.items plant.new.clocks.items }
{
    let cycles = reads::cycles_in(outs);
    let kind = plant.net.cfg.clock;
    clock::step(
        &mut plant.clocks,
        news.node,
        cycles,
        kind,
        news.ticked,
        plant.time,
    );
}

// Whether a step sends nothing and changes no link state.
fn is_quiet(news: &News<'_>, outs: &[Output]) -> bool
    ensures { result ≡ true → IsQuiet news.now outs.now }
{
    if reads::sends(outs) {
        false
    } else {
        reads::are_same(news.before.as_slice(), news.after.as_slice())
    }
}

// Reports a step to the ends of the node's links.
fn tell_ends(plant: &mut Plant, news: &News<'_>, outs: &[Output])
    requires time { IsTime plant.old.time }
    requires few { SendsFew outs.now }
    requires room { HasRoom 1 plant.old }
    ensures same { plant.new ≡ record plant.old {
      spans = plant.new.spans;
      last_put = if sends outs.now then plant.old.time else plant.old.last_put;
      spare = less_one plant.old.spare;
    } }
    ensures spans { EachBecame (TellsAt plant.old.time news.now outs.now plant.old.net.cfg.links.items)
        plant.old.spans.items plant.new.spans.items }
    ensures room { (k : ℕ) → HasRoom (k + 1) plant.old → HasRoom k plant.new }
{
    ends::tell(&mut plant.spans, &plant.net.cfg, plant.time, news, outs);
    note(plant, reads::sends(outs));
}

// The same. If the step sends nothing and changes no link state, no end is looked at, and the room that was
// taken is kept.
fn tell_where(plant: &mut Plant, news: &News<'_>, outs: &[Output])
    requires time { IsTime plant.old.time }
    requires few { SendsFew outs.now }
    requires room { HasRoom 1 plant.old }
    ensures { TellsEnds news.now outs.now plant.old plant.new }
{
    if !is_quiet(news, outs) {
        tell_ends(plant, news, outs);
    }
}

// Reports a node's step to all parts.
fn tell(plant: &mut Plant, news: &News<'_>, outs: &[Output])
    requires fits { FitsPlant plant.old }
    requires node { news.now.node < length plant.old.net.cfg.nodes.items }
    requires few { SendsFew outs.now }
    requires step { MayStep outs.now plant.old }
    requires room { HasRoom 1 plant.old }
    ensures told { Told news.now outs.now plant.old plant.new }
    ensures room { (k : ℕ) → HasRoom (k + 1) plant.old → HasRoom k plant.new }
    ensures put { plant.new.last_put ≡ (if sends outs.now then plant.old.time else plant.old.last_put) }
    ensures spare { HasRoom plant.old.spare plant.old → HasRoom plant.new.spare plant.new }
{
    step_clock(plant, news, outs);
    tell_where(plant, news, outs);
}

/// Reports a node's step to the rest of the world: the clock moves by the periods among the outputs, a tick
/// is noted, each frame among the outputs waits at its port's end, and each changed link state is marked.
/// The memory for this was taken before.
pub fn told(plant: &mut Plant, news: &News<'_>, outs: &[Output])
    requires fits { FitsPlant plant.old }
    requires node { news.now.node < length plant.old.net.cfg.nodes.items }
    requires few { SendsFew outs.now }
    requires step { MayStep outs.now plant.old }
    requires room { HasRoom 1 plant.old }
    ensures is { (s : Setting) (v : WorldAt) (g : Given) (taken : Taken) (step : Step)
        → PlantIs s v plant.old → IsStepOf s v g step news.now outs.now
        → PlantIs s (stepped_by s v g taken step) plant.new }
    ensures fits { FitsPlant plant.new }
    ensures net { plant.new.net ≡ plant.old.net }
    ensures events { plant.new.events ≡ plant.old.events }
    ensures room { (k : ℕ) → HasRoom (k + 1) plant.old → HasRoom k plant.new }
{
    tell(plant, news, outs);
}
