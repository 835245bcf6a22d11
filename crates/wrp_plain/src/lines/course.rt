//! A world with a plain servo, as far as the lines of its events were read.
ghost use Rattle.std.specs.Prelude.{◌≡◌, ◌+◌, ◌-◌, ◌^◌, ◌<◌, ◌≤◌, ℤ, List, [], ◌∷◌, unsigned_abs, IfOk};
ghost use Rattle.wrp_plain.specs.declared.event.PlainEvent.{PlainEvent};
ghost use Rattle.wrp_plain.specs.declared.settings.PlainSet.{PlainSet};
ghost use Rattle.wrp_plain.specs.Event.{HasFields};
ghost use Rattle.wrp_plain.specs.LineText.{tick_count};
ghost use Rattle.wrp_plain.specs.LinesHeld.{CountsTicks, HasRun, Happens};
ghost use Rattle.wrp_plain.specs.Measurement.{HasRanges};

use super::printing::append_seen;
use super::refusals::refuse_broken;
use crate::event::PlainEvent;
use crate::settings::PlainStart;
use crate::world::PlainWorld;
use std::alloc::{AllocError, Global};
use wrp_records::Taken;

/// A world with a plain servo, and how many of its lines were ticks.
#[derive(Drop)]
pub struct PlainRun {
    world: PlainWorld,
    ticks: u32,
}

impl PlainRun {
    /// A world before the line of its first event. `AllocError` if there is no memory for it: then
    /// nothing is made.
    pub fn new(alloc: Global, start: PlainStart) -> Result<PlainRun, AllocError>
        requires set { HasRanges start.set }
        requires off { unsigned_abs start.off ≤ 2 ^ 62 }
        ensures run { IfOk result (λ course. HasRun start.set start.off course []) }
        ensures counts { IfOk result CountsTicks }
        ensures none { IfOk result (λ course. course.world.events ≡ 0) }
    {
        let world = PlainWorld::new(alloc, start.set, start.off)?;
        Ok(PlainRun { world, ticks: 0 })
    }

    /// Takes the event that the record of this number says, and appends what it writes, or the line
    /// that names the premise that it breaks. `AllocError` if memory runs out: then nothing is known of
    /// `text`, nor whether the event was taken.
    pub fn happen(
        &mut self,
        alloc: Global,
        event: &PlainEvent,
        number: u32,
        text: &mut Vec<u8>,
    ) -> Result<Taken, AllocError>
        requires counts { CountsTicks self.old }
        requires few { self.old.world.events + 1 < 2 ^ 32 }
        requires fields { HasFields event.now }
        requires none { text.old.items ≡ [] }
        ensures counts { CountsTicks self.new }
        ensures few { self.new.world.events ≤ self.old.world.events + 1 }
        ensures happens { (set : PlainSet) (off : ℤ) (events : List PlainEvent) → HasRun set off self.old events
            → IfOk result (Happens set off events event.now number self.new text.new.items) }
    {
        match self.world.step(event) {
            Ok(seen) => {
                self.ticks = with_tick(self.ticks, event);
                append_seen(alloc, self.ticks, seen, text)?;
                Ok(Taken::Accepted)
            }
            Err(broken) => refuse_broken(alloc, number, broken, text),
        }
    }
}

// How many ticks there are with this event, after this many before it.
fn with_tick(ticks: u32, event: &PlainEvent) -> u32
    requires { ticks + 1 < 2 ^ 32 }
    ensures count { (events : List PlainEvent) → ticks ≡ tick_count events → result ≡ tick_count (event.now ∷ events) }
    ensures most { result ≤ ticks + 1 }
{
    match event {
        PlainEvent::Tick => ticks + 1,
        _ => ticks,
    }
}
