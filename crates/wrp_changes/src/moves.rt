//! The change that an event makes by itself.
pub mod arrivals;
mod clocks;
pub mod departures;
mod parts;
pub mod spans;
pub mod swaps;

ghost use Rattle.std.specs.Prelude.{◌≡◌, ◌<◌, ◌≤◌, ◌≤ℤ◌, ◌+◌, ◌^◌, ℕ, pos, length, unsigned_abs};
ghost use Rattle.arrayvec.specs.ArrayVec.{ArrayVec as Items};
ghost use Rattle.wrp_base.specs.declared.time.Raw.{Raw};
ghost use Rattle.wrp_course.specs.declared.event.Event.TheVariants as event;
ghost use Rattle.wrp_course.specs.Moved.{moved};
ghost use Rattle.wrp_plant.specs.Plant.{FitsPlant, PlantIs};
ghost use Rattle.wrp_changes.specs.PlantTold.{NoneStepped};
ghost use Rattle.wrp_changes.specs.Room.{HasRoom};
ghost use Rattle.wrp_course.specs.Setting.{Setting};
ghost use Rattle.wrp_course.specs.WorldAt.{WorldAt};

use arrayvec::ArrayVec;
use wrp_base::Tau;
use wrp_course::Swap;
use wrp_plant::Plant;

/// A clock ticks, a frame is handed over, or octets come: a node gets an input, and nothing else
/// changes.
pub fn stay(plant: &mut Plant)
    requires fits { FitsPlant plant.old }
    requires few { plant.old.events + 1 < 2 ^ 32 }
    ensures tick { (s : Setting) (w : WorldAt) (n : ℕ) → PlantIs s w plant.old
        → PlantIs s (moved s w (event.Tick n)) plant.new }
    ensures deliver { (s : Setting) (w : WorldAt) (i : ℕ) → PlantIs s w plant.old
        → PlantIs s (moved s w (event.Deliver i)) plant.new }
    ensures noise { (s : Setting) (w : WorldAt) (n p : ℕ) (octets : Items ℕ) (raw : Raw)
        → PlantIs s w plant.old → PlantIs s (moved s w (event.Noise n p octets raw)) plant.new }
    ensures fits { FitsPlant plant.new }
    ensures net { plant.new.net ≡ plant.old.net }
    ensures events { plant.new.events ≡ plant.old.events + 1 }
    ensures room { (k : ℕ) → HasRoom k plant.old → HasRoom k plant.new }
    ensures still { NoneStepped plant.new }
{
    parts::stay(plant);
}

/// True time passes, and clocks and fibres change. It takes no memory.
pub fn pass(
    plant: &mut Plant,
    dt: i64,
    drifts: &ArrayVec<i64, 64>,
    moves: &ArrayVec<(i64, i64), 63>,
)
    requires fits { FitsPlant plant.old }
    requires few { plant.old.events + 1 < 2 ^ 32 }
    requires later { pos 0 ≤ℤ dt }
    ensures is { (s : Setting) (w : WorldAt) → PlantIs s w plant.old
        → PlantIs s (moved s w (event.Pass dt drifts.now moves.now)) plant.new }
    ensures fits { FitsPlant plant.new }
    ensures net { plant.new.net ≡ plant.old.net }
    ensures events { plant.new.events ≡ plant.old.events + 1 }
    ensures room { (k : ℕ) → HasRoom k plant.old → HasRoom k plant.new }
{
    parts::pass(plant, dt, drifts, moves);
}

/// A node takes a sample.
pub fn sample(plant: &mut Plant, n: u8)
    requires fits { FitsPlant plant.old }
    requires node { n < length plant.old.net.cfg.nodes.items }
    requires few { plant.old.events + 1 < 2 ^ 32 }
    ensures is { (s : Setting) (w : WorldAt) (base bits : ℕ) → PlantIs s w plant.old
        → PlantIs s (moved s w (event.Sample n base bits)) plant.new }
    ensures fits { FitsPlant plant.new }
    ensures net { plant.new.net ≡ plant.old.net }
    ensures events { plant.new.events ≡ plant.old.events + 1 }
    ensures room { (k : ℕ) → HasRoom k plant.old → HasRoom k plant.new }
{
    parts::sample(plant, n);
}

/// A node goes down. Its links lose the frames that wait and those on their fibres.
pub fn go_down(plant: &mut Plant, n: u8)
    requires fits { FitsPlant plant.old }
    requires node { n < length plant.old.net.cfg.nodes.items }
    requires few { plant.old.events + 1 < 2 ^ 32 }
    ensures is { (s : Setting) (w : WorldAt) → PlantIs s w plant.old
        → PlantIs s (moved s w (event.Down n)) plant.new }
    ensures fits { FitsPlant plant.new }
    ensures net { plant.new.net ≡ plant.old.net }
    ensures events { plant.new.events ≡ plant.old.events + 1 }
    ensures room { (k : ℕ) → HasRoom k plant.old → HasRoom k plant.new }
{
    parts::go_down(plant, n);
}

/// A link is cut. It loses the frames that wait and those on its fibre.
pub fn cut(plant: &mut Plant, link: u8)
    requires fits { FitsPlant plant.old }
    requires link { link < length plant.old.net.cfg.links.items }
    requires few { plant.old.events + 1 < 2 ^ 32 }
    ensures is { (s : Setting) (w : WorldAt) → PlantIs s w plant.old
        → PlantIs s (moved s w (event.Cut link)) plant.new }
    ensures fits { FitsPlant plant.new }
    ensures net { plant.new.net ≡ plant.old.net }
    ensures events { plant.new.events ≡ plant.old.events + 1 }
    ensures room { (k : ℕ) → HasRoom k plant.old → HasRoom k plant.new }
{
    parts::cut(plant, link);
}

/// A link is joined. The delays, in tau, are in the range of an event.
pub fn join(plant: &mut Plant, link: u8, ms: Tau, sm: Tau)
    requires fits { FitsPlant plant.old }
    requires link { link < length plant.old.net.cfg.links.items }
    requires ms { unsigned_abs ms ≤ 2 ^ 63 }
    requires sm { unsigned_abs sm ≤ 2 ^ 63 }
    requires few { plant.old.events + 1 < 2 ^ 32 }
    ensures is { (s : Setting) (w : WorldAt) → PlantIs s w plant.old
        → PlantIs s (moved s w (event.Join link ms sm)) plant.new }
    ensures fits { FitsPlant plant.new }
    ensures net { plant.new.net ≡ plant.old.net }
    ensures events { plant.new.events ≡ plant.old.events + 1 }
    ensures room { (k : ℕ) → HasRoom k plant.old → HasRoom k plant.new }
{
    parts::join(plant, link, ms, sm);
}

/// A node comes up with the modules that these swaps install. The offset, in tau, is in the range
/// of an event.
pub fn come_up(plant: &mut Plant, n: u8, off: Tau, swaps: &ArrayVec<Swap, 18>)
    requires fits { FitsPlant plant.old }
    requires node { n < length plant.old.net.cfg.nodes.items }
    requires off { unsigned_abs off ≤ 2 ^ 90 }
    requires few { plant.old.events + 1 < 2 ^ 32 }
    ensures is { (s : Setting) (w : WorldAt) → PlantIs s w plant.old
        → PlantIs s (moved s w (event.Up n off swaps.now)) plant.new }
    ensures fits { FitsPlant plant.new }
    ensures net { plant.new.net ≡ plant.old.net }
    ensures events { plant.new.events ≡ plant.old.events + 1 }
    ensures room { (k : ℕ) → HasRoom k plant.old → HasRoom k plant.new }
{
    parts::come_up(plant, n, off, swaps);
}
