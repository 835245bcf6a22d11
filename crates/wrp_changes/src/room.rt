//! Memory that is taken before it is used.
ghost use Rattle.std.specs.Prelude.{◌≡◌, ◌≤◌, ◌+◌, ℕ, true, OnOk};
ghost use Rattle.wrp_changes.specs.Moves.{EachBecame};
ghost use Rattle.wrp_plant.specs.Plant.{Each, FitsPlant, PlantIs};
ghost use Rattle.wrp_plant.specs.EndRoom.{HasEndRoom, HasSpanRoom};
ghost use Rattle.wrp_changes.specs.Room.{HasRoom, SameEnd, SameSpan};
ghost use Rattle.wrp_course.specs.Setting.{Setting};
ghost use Rattle.wrp_course.specs.WorldAt.{WorldAt};

use std::alloc::AllocError;
use wrp_plant::{EndState, Plant, Span};

/// Memory is taken for at least this many steps at once, so that the ends are seldom looked at.
const STEPS: u8 = 8;

// Whether an end has room for this many steps.
fn has_places(end: &EndState, steps: u8) -> bool
    ensures { result ≡ true → HasEndRoom steps end.now }
{
    let frames = end.waiting.capacity() - end.waiting.len();
    let marks = end.marks.capacity() - end.marks.len();
    4 * usize::from(steps) <= frames && usize::from(steps) <= marks
}

// Takes memory for this many steps at an end.
fn reserve_end(end: &mut EndState, steps: u8) -> Result<(), AllocError>
    ensures same { SameEnd end.old end.new }
    ensures room { OnOk result (HasEndRoom steps end.new) }
    ensures kept { (k : ℕ) → HasEndRoom k end.old → HasEndRoom k end.new }
{
    end.waiting.reserve(4 * usize::from(steps))?;
    end.marks.reserve(usize::from(steps))?;
    Ok(())
}

// Takes memory for this many steps at both ends of a link.
fn reserve_both(span: &mut Span, steps: u8) -> Result<(), AllocError>
    ensures same { SameSpan 0 span.old span.new }
    ensures room { OnOk result (HasSpanRoom steps span.new) }
    ensures kept { (k : ℕ) → HasSpanRoom k span.old → HasSpanRoom k span.new }
{
    reserve_end(&mut span.master, steps)?;
    reserve_end(&mut span.slave, steps)?;
    Ok(())
}

// The same; nothing is asked for if there is room already.
fn reserve_span(span: &mut Span, steps: u8) -> Result<(), AllocError>
    ensures same { SameSpan 0 span.old span.new }
    ensures room { OnOk result (HasSpanRoom steps span.new) }
    ensures kept { (k : ℕ) → HasSpanRoom k span.old → HasSpanRoom k span.new }
{
    if has_places(&span.master, steps) && has_places(&span.slave, steps) {
        return Ok(());
    }
    reserve_both(span, steps)
}

// Takes memory for this many steps at all ends.
fn reserve_all(spans: &mut Vec<Span>, steps: u8) -> Result<(), AllocError>
    ensures same { EachBecame SameSpan spans.old.items spans.new.items }
    ensures room { OnOk result (Each (λ i. HasSpanRoom steps) spans.new.items) }
    ensures kept { (k : ℕ) → Each (λ i. HasSpanRoom k) spans.old.items
        → Each (λ i. HasSpanRoom k) spans.new.items }
{
    for k in 0..spans.len() {
        reserve_span(&mut spans[k], steps)?;
    }
    Ok(())
}

// For how many steps memory is taken at once, if this many are needed.
fn at_once(steps: u8) -> u8
    ensures { steps ≤ result }
{
    if steps < STEPS { STEPS } else { steps }
}

/// Takes the memory that this many steps of nodes may need: at each end of each link, room for four frames and one
/// mark for each step. No end is looked at if all are known to have the room. `AllocError` if there is not enough
/// memory. Apart from the room, nothing changes, and room that was there stays, in both cases.
pub fn reserve(plant: &mut Plant, steps: u8) -> Result<(), AllocError>
    requires fits { FitsPlant plant.old }
    ensures room { OnOk result (HasRoom steps plant.new) }
    ensures kept { (k : ℕ) → HasRoom k plant.old → HasRoom k plant.new }
    ensures is { (s : Setting) (w : WorldAt) → PlantIs s w plant.old → PlantIs s w plant.new }
    ensures fits { FitsPlant plant.new }
    ensures net { plant.new.net ≡ plant.old.net }
    ensures time { plant.new.time ≡ plant.old.time }
    ensures events { plant.new.events ≡ plant.old.events }
    ensures clocks { plant.new.clocks ≡ plant.old.clocks }
    ensures spans { EachBecame SameSpan plant.old.spans.items plant.new.spans.items }
    ensures frames { plant.new.frames ≡ plant.old.frames }
{
    if steps <= plant.spare {
        return Ok(());
    }
    let places = at_once(steps);
    reserve_all(&mut plant.spans, places)?;
    plant.spare = places;
    Ok(())
}
