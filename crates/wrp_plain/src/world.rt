//! A world with a plain servo.
ghost use Rattle.std.specs.Prelude.{◌≡◌, ℕ, ℤ, pos, ◌+◌, ◌-◌, ◌^◌, ◌<◌, ◌≤◌, ◌≤ℤ◌, unsigned_abs, List, [], ◌∷◌, IfOk, IsErr, None};
ghost use Rattle.wrp_plain.specs.declared.settings.PlainSet.{PlainSet};
ghost use Rattle.wrp_plain.specs.declared.event.PlainEvent.{PlainEvent};
ghost use Rattle.wrp_plain.specs.declared.event.PlainEvent.TheVariants.{Pass, Tick, Exch};
ghost use Rattle.wrp_plain.specs.Measurement.{HasRanges, round_of, least_round};
ghost use Rattle.wrp_plain.specs.declared.settings.PlainOut.TheVariants.{Taken};
ghost use Rattle.wrp_plain.specs.Out.{IsTaken};
ghost use Rattle.wrp_plain.specs.Event.{HasFields, AreStamps, t1_of, t2_of, t3_of, t4_of};
ghost use Rattle.wrp_plain.specs.Seen.{seen_of};
ghost use Rattle.wrp_plain.specs.Premises.{broken_by, broken_after, IsAnswer};
ghost use Rattle.wrp_plain.specs.World.{HadEvents, TellsTruth};

use crate::event::{PlainBroken, PlainEvent, PlainSeen};
use crate::premises::judge;
use crate::servo::Plain;
use crate::settings::{PlainOut, PlainReport, PlainSet};
use std::alloc::{AllocError, Global};
use std::marker::Model;
use wrp_base::sum;

/// A world with a plain servo: true time, the true offset of the slave's clock, and the servo that is
/// given the stamps of exchanges and moves that clock.
#[derive(Debug, Drop)]
pub struct PlainWorld {
    servo: Plain,
    off: i128,
    since: u64,
    events: u32,
}

impl Model for PlainWorld {
    ghost use Rattle.std.specs.Prelude.{◌+◌, ◌*◌, ◌^◌, ◌≤◌, unsigned_abs};
    ghost use Rattle.wrp_plain.specs.Measurement.{HasRanges};
    ghost use Rattle.wrp_plain.specs.World.{WorldAt};

    ghost Value = { WorldAt };

    ghost view = { λ w. record { servo = w.servo; off = w.off; since = w.since; events = w.events } };

    ghost invariant = { λ w. HasRanges w.servo.set × (w.servo.ticks ≤ w.events) × (w.since ≤ unsigned_abs w.servo.set.dmax) × (unsigned_abs w.off ≤ 2 ^ 62 + 2 ^ 61 * w.events) };
}

impl PlainWorld {
    /// A world before its first event, with the true offset `off`, in tau: at most `2^62`, either way.
    /// It takes all the memory that it will need. `AllocError` if there is not that much: then no world
    /// is made.
    pub fn new(alloc: Global, set: PlainSet, off: i64) -> Result<PlainWorld, AllocError>
        requires set { HasRanges set }
        requires off { unsigned_abs off ≤ 2 ^ 62 }
        ensures { IfOk result (λ world. HadEvents set off world []) }
    {
        Ok(PlainWorld {
            servo: Plain::new(alloc, set)?,
            off: off.into(),
            since: 0,
            events: 0,
        })
    }

    /// How many events came.
    pub fn events(&self) -> u32
        ensures { result ≡ self.now.events }
    {
        self.events
    }

    /// Takes an event, whose fields are in their ranges. At most `2^32 - 1` events may come.
    ///
    /// It is refused if and only if it breaks one of the six premises, with the least that it breaks
    /// and the first quantity that breaks it; then nothing changes. The premises, in their order:
    ///
    /// 1. when time passes, it is at most `dmax` since the last tick or the start;
    /// 2. the true offset then moves by at most `rate` in `10^12` of that time;
    /// 3. an exchange takes at most `span`;
    /// 4. neither of its delays is below `least`;
    /// 5. the true offset at each stamp of the slave is no further from the one now than it may move in
    ///    the time of the exchange, rounded up;
    /// 6. each way is measured to within `2 err`.
    ///
    /// Whatever events came: each report is within its bound of the true offset, that bound is the least
    /// that a kept measurement gives, and no exchange is ever Short.
    pub fn step(&mut self, e: &PlainEvent) -> Result<PlainSeen, PlainBroken>
        requires few { self.old.events < 2 ^ 32 - 1 }
        requires fields { HasFields e.now }
        ensures answer { (set : PlainSet) (off : ℤ) (events : List PlainEvent) → HadEvents set off self.old events → IsAnswer set off events e.now result }
        ensures stands { (set : PlainSet) (off : ℤ) (events : List PlainEvent) → HadEvents set off self.old events → IfOk result (λ _. HadEvents set off self.new (e.now ∷ events)) }
        ensures refused { IsErr result → self.new ≡ self.old }
        ensures counted { IfOk result (λ _. self.new.events ≡ self.old.events + 1) }
        ensures truth { (set : PlainSet) (off : ℤ) (events : List PlainEvent) → HadEvents set off self.old events → IfOk result (TellsTruth set events e.now) }
    {
        judge(&self.servo.settings(), self.off, self.since, e)?;
        Ok(self.take(e))
    }

    // Takes an event that breaks no premise.
    fn take(&mut self, event: &PlainEvent) -> PlainSeen
        requires few { self.old.events < 2 ^ 32 - 1 }
        requires fields { HasFields event.now }
        requires kept { broken_by self.old.servo.set self.old.off self.old.since event.now ≡ None }
        ensures seen { (set : PlainSet) (off : ℤ) (events : List PlainEvent) → HadEvents set off self.old events → result ≡ seen_of set off events event.now }
        ensures counted { self.new.events ≡ self.old.events + 1 }
        ensures stands { (set : PlainSet) (off : ℤ) (events : List PlainEvent) → HadEvents set off self.old events → HadEvents set off self.new (event.now ∷ events) }
    {
        match event {
            PlainEvent::Pass { dt, drift } => self.pass(*dt, *drift),
            PlainEvent::Tick => self.tick(),
            PlainEvent::Exch { t, .. } => self.exchange(t),
        }
    }

    // Time passes, and the clock drifts.
    fn pass(&mut self, dt: i64, drift: i64) -> PlainSeen
        requires few { self.old.events < 2 ^ 32 - 1 }
        requires fields { HasFields (Pass dt drift) }
        requires kept { broken_by self.old.servo.set self.old.off self.old.since (Pass dt drift) ≡ None }
        ensures seen { (set : PlainSet) (off : ℤ) (events : List PlainEvent) → HadEvents set off self.old events → result ≡ seen_of set off events (Pass dt drift) }
        ensures counted { self.new.events ≡ self.old.events + 1 }
        ensures stands { (set : PlainSet) (off : ℤ) (events : List PlainEvent) → HadEvents set off self.old events → HadEvents set off self.new (Pass dt drift ∷ events) }
    {
        let off = sum(self.off, drift.into());
        self.off = off;
        self.since += dt.unsigned_abs();
        self.events += 1;
        PlainSeen {
            report: None,
            command: 0,
            off,
        }
    }

    // The servo ticks.
    fn tick(&mut self) -> PlainSeen
        requires few { self.old.events < 2 ^ 32 - 1 }
        ensures seen { (set : PlainSet) (off : ℤ) (events : List PlainEvent) → HadEvents set off self.old events → result ≡ seen_of set off events Tick }
        ensures counted { self.new.events ≡ self.old.events + 1 }
        ensures stands { (set : PlainSet) (off : ℤ) (events : List PlainEvent) → HadEvents set off self.old events → HadEvents set off self.new (Tick ∷ events) }
    {
        let report = self.servo.tick();
        self.since = 0;
        self.events += 1;
        PlainSeen {
            report,
            command: 0,
            off: self.off,
        }
    }

    // The servo is given the stamps of an exchange that is long enough, and moves the clock.
    fn exchange(&mut self, t: &[i64; 4]) -> PlainSeen
        requires few { self.old.events < 2 ^ 32 - 1 }
        requires stamps { AreStamps t.now }
        requires long { least_round self.old.servo.set ≤ℤ round_of (t1_of t.now) (t2_of t.now) (t3_of t.now) (t4_of t.now) }
        ensures seen { (set : PlainSet) (off : ℤ) (events : List PlainEvent) (span dms dsm o2 o3 : ℤ) → HadEvents set off self.old events → result ≡ seen_of set off events (Exch span dms dsm o2 o3 t.now) }
        ensures counted { self.new.events ≡ self.old.events + 1 }
        ensures stands { (set : PlainSet) (off : ℤ) (events : List PlainEvent) (span dms dsm o2 o3 : ℤ) → HadEvents set off self.old events → HasFields (Exch span dms dsm o2 o3 t.now) → broken_after set off events (Exch span dms dsm o2 o3 t.now) ≡ None → HadEvents set off self.new (Exch span dms dsm o2 o3 t.now ∷ events) }
    {
        let (report, command) = taken(self.servo.measured(t[0], t[1], t[2], t[3]));
        let before = self.off;
        self.off = sum(before, command.into());
        self.events += 1;
        PlainSeen {
            report: Some(report),
            command,
            off: before,
        }
    }
}

// The report and the command of a measurement that is taken.
fn taken(out: PlainOut) -> (PlainReport, i64)
    requires { IsTaken out }
    ensures { out ≡ Taken result.0 result.1 }
{
    match out {
        PlainOut::Taken { report, command } => (report, command),
        PlainOut::Short { .. } => unreachable!(),
    }
}
