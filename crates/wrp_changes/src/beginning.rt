//! How an event begins, before any node is given an input.
ghost use Rattle.std.specs.Prelude.{◌≡◌, ◌<◌, ◌+◌, ◌^◌, OnErr, OnOk, length};
ghost use Rattle.std.specs.List.{AllByRecursion};
ghost use Rattle.wrp_changes.specs.Begins.{ListsGifts, MovesBy, StaysAsWas};
ghost use Rattle.wrp_changes.specs.Changes.{MayStepAfter};
ghost use Rattle.wrp_course.specs.EventAt.{IsEventOf};
ghost use Rattle.wrp_changes.specs.FitsGifts.{FitsGift};
ghost use Rattle.wrp_changes.specs.Giving.{put_of};
ghost use Rattle.wrp_plant.specs.Plant.{FitsPlant};
ghost use Rattle.wrp_changes.specs.Room.{HasRoom};

use crate::changing::change;
use crate::giving::give;
use crate::room::reserve;
use std::alloc::AllocError;
use wrp_course::{Event, NodeOut};
use wrp_plant::Plant;

/// Begins an accepted event: lists its inputs in `outs`, takes all the memory that they may need,
/// and then makes the event's own change to the plant. `AllocError` if there is not enough memory.
/// Then the plant is as it was, with no event counted; the contents of `outs` are not specified.
pub fn begin(
    plant: &mut Plant,
    event: &Event,
    outs: &mut Vec<NodeOut>,
    aside: &mut Vec<NodeOut>,
) -> Result<(), AllocError>
    requires fits { FitsPlant plant.old }
    requires event { IsEventOf plant.old.net.cfg event.now }
    requires few { plant.old.events + 1 < 2 ^ 32 }
    ensures gifts { OnOk result (ListsGifts plant.old event.now (put_of plant.old event.now)
        outs.new.items) }
    ensures inputs { OnOk result (AllByRecursion (FitsGift plant.new.net.cfg) outs.new.items) }
    ensures room { OnOk result (HasRoom (length outs.new.items) plant.new) }
    ensures is { OnOk result (MovesBy event.now plant.old plant.new) }
    ensures events { OnOk result (plant.new.events ≡ plant.old.events + 1) }
    ensures still { OnOk result (MayStepAfter event.now plant.new) }
    ensures stays { OnErr result (StaysAsWas plant.old plant.new) }
    ensures count { OnErr result (plant.new.events ≡ plant.old.events) }
    ensures fits { FitsPlant plant.new }
    ensures net { plant.new.net ≡ plant.old.net }
{
    give(plant, event, outs, aside)?;
    reserve(plant, outs.len() as u8)?;
    change(plant, event)?;
    Ok(())
}
