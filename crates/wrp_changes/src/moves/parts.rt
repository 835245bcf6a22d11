//! What an event changes in each part of a plant.
ghost use Rattle.std.specs.Prelude.{◌≡◌, ◌<◌, ◌≤◌, ◌+◌, ◌+ℤ◌, ◌≤ℤ◌, ◌^◌, pos, length};
ghost use Rattle.wrp_changes.specs.Moves.{At, Changed, ComesUp, Cuts, Drifts, DropsAt, GoesDown, Joins, Moves, Same, SameFrames, Samples, SwapsAt, EachBecame};
ghost use Rattle.wrp_flights.specs.Frames.{Passes, Turned};
ghost use Rattle.wrp_flights.specs.Losing.{loses_link, loses_node};
ghost use Rattle.wrp_plant.specs.Plant.{FitsPlant};
ghost use Rattle.wrp_plant.specs.Sizes.{IsTime};

use super::{clocks, spans, swaps};
use arrayvec::ArrayVec;
use wrp_base::{Tau, sum};
use wrp_course::Swap;
use wrp_plant::Plant;

// Counts one more event.
fn count(plant: &mut Plant)
    requires { plant.old.events + 1 < 2 ^ 32 }
    ensures { plant.new ≡ record plant.old { events = plant.old.events + 1 } }
{
    plant.events += 1;
}

// Counts one more event, and moves true time on by dt, in tau.
fn count_later(plant: &mut Plant, dt: i64)
    requires few { plant.old.events + 1 < 2 ^ 32 }
    requires time { IsTime plant.old.time }
    ensures { plant.new ≡ record plant.old { time = plant.old.time +ℤ dt; events = plant.old.events + 1 } }
{
    plant.time = sum(plant.time, i128::from(dt));
    plant.events += 1;
}

/// Only counts the event.
pub fn stay(plant: &mut Plant)
    requires { plant.old.events + 1 < 2 ^ 32 }
    ensures { Changed Same Same SameFrames plant.old.time plant.old plant.new }
{
    count(plant);
}

/// True time passes.
pub fn pass(
    plant: &mut Plant,
    dt: i64,
    drifts: &ArrayVec<i64, 64>,
    moves: &ArrayVec<(i64, i64), 63>,
)
    requires fits { FitsPlant plant.old }
    requires few { plant.old.events + 1 < 2 ^ 32 }
    requires later { pos 0 ≤ℤ dt }
    ensures { Changed (EachBecame (Drifts drifts.now.items)) (EachBecame (Moves moves.now.items))
        (Passes (plant.old.frames.horizon +ℤ dt)) (plant.old.time +ℤ dt) plant.old plant.new }
{
    clocks::drift(&mut plant.clocks, drifts.as_slice());
    spans::move_fibres(&mut plant.spans, moves.as_slice());
    plant.frames.pass(dt);
    count_later(plant, dt);
}

/// A node's sample is counted.
pub fn sample(plant: &mut Plant, n: u8)
    requires fits { FitsPlant plant.old }
    requires node { n < length plant.old.clocks.items }
    requires few { plant.old.events + 1 < 2 ^ 32 }
    ensures { Changed (EachBecame (At n Samples)) Same SameFrames plant.old.time plant.old plant.new }
{
    clocks::sampled(&mut plant.clocks, n);
    count(plant);
}

/// A link is joined.
pub fn join(plant: &mut Plant, k: u8, ms: Tau, sm: Tau)
    requires link { k < length plant.old.spans.items }
    requires few { plant.old.events + 1 < 2 ^ 32 }
    ensures { Changed Same (EachBecame (At k (Joins ms sm))) SameFrames plant.old.time plant.old plant.new }
{
    spans::join(&mut plant.spans, k, ms, sm);
    count(plant);
}

/// A link is cut.
pub fn cut(plant: &mut Plant, k: u8)
    requires link { k < length plant.old.spans.items }
    requires few { plant.old.events + 1 < 2 ^ 32 }
    ensures { Changed Same (EachBecame (At k Cuts)) (Turned (loses_link k)) plant.old.time plant.old plant.new }
{
    spans::cut(&mut plant.spans, k);
    plant.frames.lose_link(k);
    count(plant);
}

/// A node goes down.
pub fn go_down(plant: &mut Plant, n: u8)
    requires node { n < length plant.old.clocks.items }
    requires few { plant.old.events + 1 < 2 ^ 32 }
    ensures { Changed (EachBecame (At n GoesDown)) (EachBecame (DropsAt n plant.old.net.cfg.links.items)) (Turned (loses_node n plant.old.net.cfg.links.items)) plant.old.time plant.old plant.new }
{
    clocks::go_down(&mut plant.clocks, n);
    spans::drop_at(&mut plant.spans, &plant.net.cfg, n);
    plant.frames.lose_node(n, plant.net.cfg.links.as_slice());
    count(plant);
}

/// A node comes up with the modules that these swaps install.
pub fn come_up(plant: &mut Plant, n: u8, off: Tau, swaps: &ArrayVec<Swap, 18>)
    requires node { n < length plant.old.clocks.items }
    requires time { IsTime plant.old.time }
    requires few { plant.old.events + 1 < 2 ^ 32 }
    ensures { Changed (EachBecame (At n (ComesUp off plant.old.time)))
        (EachBecame (SwapsAt n swaps.now.items plant.old.net.cfg.links.items)) SameFrames plant.old.time plant.old plant.new }
{
    clocks::come_up(&mut plant.clocks, n, off, plant.time);
    swaps::put_modules(&mut plant.spans, &plant.net.cfg, n, swaps.as_slice());
    count(plant);
}
