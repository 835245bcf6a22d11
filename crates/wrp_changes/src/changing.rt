//! The change that an event makes by itself, for each kind of event.
ghost use Rattle.std.specs.Prelude.{◌≡◌, ◌<◌, ◌+◌, ◌^◌, ℕ, OnOk, OnErr};
ghost use Rattle.wrp_changes.specs.Changes.{Changes, MayMove, MayStepAfter};
ghost use Rattle.wrp_course.specs.EventAt.{IsEventOf};
ghost use Rattle.wrp_course.specs.Moved.{moved};
ghost use Rattle.wrp_plant.specs.Plant.{FitsPlant, PlantIs};
ghost use Rattle.wrp_changes.specs.Room.{HasRoom};
ghost use Rattle.wrp_course.specs.Setting.{Setting};
ghost use Rattle.wrp_course.specs.WorldAt.{WorldAt};

use crate::moves::arrivals::arrive;
use crate::moves::departures::depart;
use crate::moves::{come_up, cut, go_down, join, pass, sample, stay};
use std::alloc::AllocError;
use wrp_course::Event;
use wrp_plant::Plant;

// Makes the change of an event.
fn change_by(plant: &mut Plant, event: &Event) -> Result<(), AllocError>
    requires fits { FitsPlant plant.old }
    requires event { IsEventOf plant.old.net.cfg event.now }
    requires few { plant.old.events + 1 < 2 ^ 32 }
    ensures ok { OnOk result (Changes event.now plant.old plant.new) }
    ensures err { OnErr result (plant.new ≡ plant.old) }
{
    match event {
        Event::Pass { dt, drifts, fibres } => {
            pass(plant, *dt, drifts, fibres);
            Ok(())
        }
        Event::Tick { .. } => {
            stay(plant);
            Ok(())
        }
        Event::Sample { node, .. } => {
            sample(plant, *node);
            Ok(())
        }
        Event::Depart { node, port, .. } => depart(plant, *node, *port),
        Event::Arrive { frame, raw } => {
            arrive(plant, *frame, *raw);
            Ok(())
        }
        Event::Deliver { .. } => {
            stay(plant);
            Ok(())
        }
        Event::Noise { .. } => {
            stay(plant);
            Ok(())
        }
        Event::Down { node } => {
            go_down(plant, *node);
            Ok(())
        }
        Event::Up { node, off, swaps } => {
            come_up(plant, *node, *off, swaps);
            Ok(())
        }
        Event::Cut { link } => {
            cut(plant, *link);
            Ok(())
        }
        Event::Join { link, ms, sm } => {
            join(plant, *link, *ms, *sm);
            Ok(())
        }
    }
}

/// Makes the change of an event, before any node is given an input, and counts the event.
/// `AllocError` if there is not enough memory for a frame that departs; then nothing changes.
pub fn change(plant: &mut Plant, event: &Event) -> Result<(), AllocError>
    requires fits { FitsPlant plant.old }
    requires event { IsEventOf plant.old.net.cfg event.now }
    requires few { plant.old.events + 1 < 2 ^ 32 }
    ensures is { OnOk result ((s : Setting) (w : WorldAt) → MayMove w event.now → PlantIs s w plant.old
        → PlantIs s (moved s w event.now) plant.new) }
    ensures events { OnOk result (plant.new.events ≡ plant.old.events + 1) }
    ensures still { OnOk result (MayStepAfter event.now plant.new) }
    ensures same { OnErr result ((s : Setting) (w : WorldAt) → PlantIs s w plant.old
        → PlantIs s w plant.new) }
    ensures err { OnErr result (plant.new ≡ plant.old) }
    ensures fits { FitsPlant plant.new }
    ensures room { (k : ℕ) → HasRoom k plant.old → HasRoom k plant.new }
    ensures net { plant.new.net ≡ plant.old.net }
{
    change_by(plant, event)
}
