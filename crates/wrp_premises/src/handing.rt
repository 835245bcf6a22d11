//! Which premise the handing over of a frame breaks.
ghost use Rattle.std.specs.Prelude.{◌≡◌, ◌<◌, ◌-ℤ◌, length, pos, [], ◌∷◌, None, Some};
ghost use Rattle.std.specs.Option.{option_or};
ghost use Rattle.wrp_bounds.specs.Times as times;
ghost use Rattle.wrp_course.specs.Checks.{told_of};
ghost use Rattle.wrp_course.specs.Checks as spec;
ghost use Rattle.wrp_flights.specs.Frames.{sent_at};
ghost use Rattle.wrp_plant.specs.Plant.{FitsPlant, PlantIs, DepartedIs};
ghost use Rattle.wrp_course.specs.Premises as premise;
ghost use Rattle.wrp_course.specs.Setting.{Setting};
ghost use Rattle.wrp_plant.specs.Sizes.{IsTime};
ghost use Rattle.wrp_course.specs.WorldAt.{FrameAt, WorldAt, has_carrier};

use crate::checks::{needs, not_sent};
use crate::premises::life::young_enough;
use wrp_base::Tau;
use wrp_course::Breach;
use wrp_flights::Departed;
use wrp_plant::{Plant, frame_life};

/// The first premise that breaks if the frame of this number is handed over, with both sides: it is too
/// old (10, in tau), the number was never given or the frame has not arrived (11), or its link has no
/// carrier (13). `None` if none breaks.
pub fn deliver_broken(plant: &Plant, number: u32) -> Option<Breach>
    requires { FitsPlant plant.now }
    ensures { (s : Setting) (w : WorldAt) → PlantIs s w plant.now
        → result ≡ told_of (premise.deliver_checks s w number (w.frame number)) }
{
    match plant.frames.sent_at(number) {
        Some(sent) => handed_broken(plant, number, sent),
        None => not_sent_broken(plant, number),
    }
}

// The same for a frame that was put out at the true time `sent`. Its age is checked first, even if it
// is no longer kept.
fn handed_broken(plant: &Plant, number: u32, sent: Tau) -> Option<Breach>
    requires fits { FitsPlant plant.now }
    requires sent { sent_at number plant.now.frames.sent ≡ Some sent }
    ensures { (s : Setting) (w : WorldAt) → PlantIs s w plant.now
        → result ≡ told_of (premise.deliver_checks s w number (w.frame number)) }
{
    match age_broken(plant, sent) {
        Some(breach) => Some(breach),
        None => young_broken(plant, number),
    }
}

// The same for a frame that is not too old.
fn young_broken(plant: &Plant, number: u32) -> Option<Breach>
    requires fits { FitsPlant plant.now }
    ensures { (s : Setting) (w : WorldAt) → PlantIs s w plant.now → (f : FrameAt) → w.frame number ≡ Some f
        → told_of (premise.too_old s.cfg w.time f.sending ∷ []) ≡ None
        → result ≡ told_of (premise.deliver_by s w number f f.arrival) }
{
    match plant.frame(number) {
        Some(frame) => landed_broken(plant, number, frame),
        None => not_sent_broken(plant, number),
    }
}

// The same for a frame that is kept.
fn landed_broken(plant: &Plant, number: u32, frame: &Departed) -> Option<Breach>
    requires fits { FitsPlant plant.now }
    requires link { frame.now.link < length plant.now.net.cfg.links.items }
    ensures { (s : Setting) (w : WorldAt) → PlantIs s w plant.now → (f : FrameAt) → DepartedIs f frame.now
        → told_of (premise.too_old s.cfg w.time f.sending ∷ []) ≡ None
        → result ≡ told_of (premise.deliver_by s w number f f.arrival) }
{
    let arrived = frame.arrival.is_some();
    if arrived {
        carrier_broken(plant, None, frame.link)
    } else {
        not_sent_broken(plant, number)
    }
}

/// Premise 10: a frame that was put out at the true time `sent` is not too old. `None` if it holds;
/// otherwise the frame's age against its life, in tau.
pub fn age_broken(plant: &Plant, sent: Tau) -> Option<Breach>
    requires fits { FitsPlant plant.now }
    requires sent { IsTime sent }
    ensures { (s : Setting) (w : WorldAt) → PlantIs s w plant.now
        → result ≡ told_of (spec.at_most 10 (w.time -ℤ sent) (pos (times.frame_life s.cfg)) ∷ []) }
{
    let cfg = plant.cfg();
    let life = frame_life(cfg);
    let now = plant.now();
    young_enough(life, now, sent)
}

/// The breach that was found so far; if there is none, premise 13 if the link has no carrier. `None` if
/// neither breaks.
pub fn carrier_broken(plant: &Plant, so_far: Option<Breach>, k: u8) -> Option<Breach>
    requires fits { FitsPlant plant.now }
    requires link { k < length plant.now.net.cfg.links.items }
    ensures { (s : Setting) (w : WorldAt) → PlantIs s w plant.now
        → result ≡ option_or so_far (told_of (spec.needs (has_carrier s w k) ∷ [])) }
{
    let carrier = plant.has_carrier(k);
    so_far.or(needs(carrier))
}

/// Premise 11: there is no frame of this number, against how many frames have departed. Never `None`.
pub fn not_sent_broken(plant: &Plant, number: u32) -> Option<Breach>
    requires { FitsPlant plant.now }
    ensures { (s : Setting) (w : WorldAt) → PlantIs s w plant.now
        → result ≡ told_of (spec.not_sent number w.departed ∷ []) }
{
    let count = frame_count(plant);
    not_sent(number, count)
}

// How many frames have departed.
fn frame_count(plant: &Plant) -> u32
    requires { FitsPlant plant.now }
    ensures { (s : Setting) (w : WorldAt) → PlantIs s w plant.now → result ≡ w.departed }
{
    plant.frames.count()
}
