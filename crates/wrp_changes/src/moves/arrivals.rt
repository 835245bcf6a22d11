//! Frames that arrive.
ghost use Rattle.std.specs.Prelude.{◌≡◌, ◌<◌, ◌+◌, ◌^◌, ℕ, length, true, option_map, IfSome};
ghost use Rattle.std.specs.Option.{option_map_or};
ghost use Rattle.wrp_base.specs.Link.{other_of};
ghost use Rattle.wrp_course.specs.declared.event.Event.TheVariants as event;
ghost use Rattle.wrp_course.specs.EventAt.{IsRaw};
ghost use Rattle.wrp_flights.specs.Frames.{Turned, at};
ghost use Rattle.wrp_flights.specs.Losing.{arrives_by};
ghost use Rattle.wrp_changes.specs.Flights.{from_of};
ghost use Rattle.wrp_course.specs.Moved.{moved};
ghost use Rattle.wrp_changes.specs.Moves.{Changed, Same};
ghost use Rattle.wrp_plant.specs.Plant.{FitsPlant, PlantIs};
ghost use Rattle.wrp_changes.specs.Room.{HasRoom};
ghost use Rattle.wrp_course.specs.Setting.{Setting, end_at};
ghost use Rattle.wrp_course.specs.WorldAt.{WorldAt, is_on_fibre};

use super::parts::stay;
use wrp_base::Raw;
use wrp_course::{Place, other_of};
use wrp_flights::Reception;
use wrp_plant::Plant;

// A frame arrives, and the event is counted.
fn arrive_from(plant: &mut Plant, number: u32, from: Place, reception: Reception)
    requires fits { FitsPlant plant.old }
    requires few { plant.old.events + 1 < 2 ^ 32 }
    ensures { Changed Same Same (Turned (arrives_by number reception from.link from.role)) plant.old.time
        plant.old plant.new }
{
    plant.frames.arrive(number, from.link, from.role, reception);
    plant.events += 1;
}

// The end that sent a frame. `None` if no frame of this number is kept.
fn sent_from(plant: &Plant, number: u32) -> Option<Place>
    requires { FitsPlant plant.now }
    ensures value { result ≡ option_map from_of (at number plant.now.frames.kept) }
    ensures within { IfSome result (λ from. from.link < length plant.now.net.cfg.links.items) }
{
    match plant.frame(number) {
        Some(frame) => Some(Place {
            link: frame.link,
            role: frame.by,
        }),
        None => None,
    }
}

// The samples so far at the node that receives what this end sends.
fn samples_past(plant: &Plant, from: Place) -> u32
    requires fits { FitsPlant plant.now }
    requires link { from.link < length plant.now.net.cfg.links.items }
    ensures { (s : Setting) (w : WorldAt) → PlantIs s w plant.now
        → result ≡ option_map_or (λ end. (w.clock end.node).samples) (end_at s from.link (other_of from.role)) 0 }
{
    let to = Place {
        link: from.link,
        role: other_of(from.role),
    };
    let n = plant.node_at(to);
    plant.clock(n).samples
}

/// A frame on a fibre arrives with this stamp. Older frames of the same direction on its fibre are
/// lost.
pub fn arrive(plant: &mut Plant, number: u32, raw: Raw)
    requires fits { FitsPlant plant.old }
    requires raw { IsRaw raw }
    requires few { plant.old.events + 1 < 2 ^ 32 }
    ensures is { (s : Setting) (w : WorldAt) → is_on_fibre (w.frame number) ≡ true → PlantIs s w plant.old
        → PlantIs s (moved s w (event.Arrive number raw)) plant.new }
    ensures fits { FitsPlant plant.new }
    ensures net { plant.new.net ≡ plant.old.net }
    ensures events { plant.new.events ≡ plant.old.events + 1 }
    ensures room { (k : ℕ) → HasRoom k plant.old → HasRoom k plant.new }
{
    match sent_from(plant, number) {
        Some(from) => {
            let sample = samples_past(plant, from);
            arrive_from(plant, number, from, Reception { raw, sample });
        }
        None => stay(plant),
    }
}
