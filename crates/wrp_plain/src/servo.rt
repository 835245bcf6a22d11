//! The plain servo.
ghost use Rattle.std.specs.Prelude.{◌≡◌, ◌≢◌, ℕ, ℤ, pos, neg_ℤ, ◌+◌, ◌-◌, ◌*◌, ◌^◌, ◌<◌, ◌≤◌, ◌+ℤ◌, ◌-ℤ◌, ◌≤ℤ◌, unsigned_abs, List, [], ◌∷◌, map, IfOk, IfSome, Some};
ghost use Rattle.wrp_base.specs.Calls.{Adds};
ghost use Rattle.wrp_base.specs.Division.{ceil_quotient};
ghost use Rattle.wrp_base.specs.Held.{held_within};
ghost use Rattle.wrp_plain.specs.Measurement.{HasRanges, moves_within, exchange_move, round_of, least_round, est_of, base_of};
ghost use Rattle.wrp_plain.specs.Call.{Call, CallMeasured, CallTick, CallCommand, Standing};
ghost use Rattle.wrp_plain.specs.Report.{report_at, least_report, report_of, command_of};
ghost use Rattle.wrp_plain.specs.Out.{IsOut, IsTaken, HasSmallCommand, calls_after};
ghost use Rattle.wrp_plain.specs.StandsFor.{StandsFor, mark_of, marks_at, IsKept, HasSmallEst, better};

use crate::kept::Kept;
use crate::numbers::{half, moves_within, offset, raised, round_trip, steer_against};
use crate::settings::{PlainOut, PlainReport, PlainSet};
use circular_buffer::HeapCircularBuffer;
use std::alloc::{AllocError, Global};
use std::marker::Model;
use wrp_base::{difference, sum};

/// A plain PTP servo: it keeps the last measurements, and reports the one with the least bound.
#[derive(Debug, Drop)]
pub struct Plain {
    set: PlainSet,
    ring: HeapCircularBuffer<Kept>,
    last: i64,
    ticks: u32,
}

impl Model for Plain {
    ghost use Rattle.std.specs.Prelude.{◌≡◌, ◌≤◌, ◌^◌, unsigned_abs, length};
    ghost use Rattle.wrp_plain.specs.Measurement.{HasRanges};
    ghost use Rattle.wrp_plain.specs.StandsFor.{PlainAt, AreKept};

    ghost Value = { PlainAt };

    ghost view = { λ p. record { set = p.set; ring = p.ring.items; last = p.last; ticks = p.ticks } };

    ghost invariant = { λ p. HasRanges p.set × (p.ring.capacity ≡ p.set.ring) × (length p.ring.items ≤ p.set.ring) × (unsigned_abs p.last ≤ 2 ^ 60) × AreKept p.ticks p.ring.items };
}

impl Plain {
    /// A servo that was given no measurement. It takes all the memory that it will need. `AllocError`
    /// if there is not that much: then no servo is made.
    pub fn new(alloc: Global, set: PlainSet) -> Result<Plain, AllocError>
        requires { HasRanges set }
        ensures { IfOk result (λ plain. StandsFor set plain []) }
    {
        Ok(Plain {
            set,
            ring: HeapCircularBuffer::with_capacity(alloc, set.ring)?,
            last: 0,
            ticks: 0,
        })
    }

    /// Takes the four stamps of an exchange, each within `2^61` either way, in tau: `t1` the master's
    /// sending, `t2` the slave's reception, `t3` the slave's sending, `t4` the master's reception.
    ///
    /// Short if the round trip is less than the settings allow: then nothing changes. Otherwise the
    /// measurement is kept, and the clock is to be moved by the command, after the report.
    pub fn measured(&mut self, t1: i64, t2: i64, t3: i64, t4: i64) -> PlainOut
        requires t1 { unsigned_abs t1 ≤ 2 ^ 61 }
        requires t2 { unsigned_abs t2 ≤ 2 ^ 61 }
        requires t3 { unsigned_abs t3 ≤ 2 ^ 61 }
        requires t4 { unsigned_abs t4 ≤ 2 ^ 61 }
        ensures value { (set : PlainSet) (calls : List Call) → StandsFor set self.old calls → IsOut set calls t1 t2 t3 t4 result }
        ensures stands { (set : PlainSet) (calls : List Call) → StandsFor set self.old calls → StandsFor set self.new (calls_after calls t1 t2 t3 t4 result) }
        ensures taken { least_round self.old.set ≤ℤ round_of t1 t2 t3 t4 → IsTaken result }
        ensures command { HasSmallCommand result }
        ensures set { self.new.set ≡ self.old.set }
        ensures ticks { self.new.ticks ≡ self.old.ticks }
    {
        let round = round_trip(t1, t2, t3, t4);
        let least = self.least_round();
        if round < least {
            return PlainOut::Short { round, least };
        }
        self.keep(round, offset(t1, t2, t3, t4));
        let report = self.best();
        let command = self.command(report);
        self.steer(command);
        PlainOut::Taken { report, command }
    }

    /// How many ticks came.
    pub fn ticks(&self) -> u32
        ensures { result ≡ self.now.ticks }
    {
        self.ticks
    }

    /// The settings.
    pub fn settings(&self) -> PlainSet
        ensures { result ≡ self.now.set }
    {
        self.set
    }

    /// Takes a tick, and reports. None if and only if no measurement is kept. At most `2^32 - 1` ticks
    /// may come. The tick counts in both cases.
    pub fn tick(&mut self) -> Option<PlainReport>
        requires { self.old.ticks < 2 ^ 32 - 1 }
        ensures value { (set : PlainSet) (calls : List Call) → StandsFor set self.old calls → result ≡ report_of set (CallTick ∷ calls) }
        ensures stands { (set : PlainSet) → Adds (StandsFor set) self.old self.new CallTick }
        ensures set { self.new.set ≡ self.old.set }
        ensures ticks { self.new.ticks ≡ self.old.ticks + 1 }
    {
        self.age();
        self.report()
    }

    // The report when a measurement is kept.
    fn best(&self) -> PlainReport
        requires { marks_at self.now ≢ [] }
        ensures value { Some result ≡ least_report (map (report_at self.now.set) (marks_at self.now)) }
        ensures small { HasSmallEst result }
    {
        self.report().unwrap()
    }

    // Counts a tick.
    fn age(&mut self)
        requires { self.old.ticks < 2 ^ 32 - 1 }
        ensures stands { (set : PlainSet) → Adds (StandsFor set) self.old self.new CallTick }
        ensures set { self.new.set ≡ self.old.set }
        ensures ticks { self.new.ticks ≡ self.old.ticks + 1 }
    {
        self.ticks += 1;
    }

    // Keeps a measurement of this round trip and offset. No command came since.
    fn keep(&mut self, round: i128, est: i128)
        requires round { unsigned_abs round ≤ 2 ^ 63 }
        requires est { unsigned_abs est ≤ 2 ^ 63 }
        ensures stands { (set : PlainSet) (t1 t2 t3 t4 : ℤ) → round ≡ round_of t1 t2 t3 t4 → est ≡ est_of t1 t2 t3 t4 → Adds (StandsFor set) self.old self.new (CallMeasured t1 t2 t3 t4) }
        ensures last { self.new.last ≡ pos 0 }
        ensures set { self.new.set ≡ self.old.set }
        ensures ticks { self.new.ticks ≡ self.old.ticks }
        ensures some { marks_at self.new ≢ [] }
    {
        let kept = Kept {
            est,
            base: self.base(round),
            ticks: self.ticks,
            before: self.last,
        };
        let _oldest = self.ring.push_front(kept);
        self.last = 0;
    }

    // Notes the command that was given.
    fn steer(&mut self, command: i64)
        requires last { self.old.last ≡ pos 0 }
        requires command { unsigned_abs command ≤ 2 ^ 60 }
        ensures stands { (set : PlainSet) → Adds (StandsFor set) self.old self.new (CallCommand command) }
        ensures set { self.new.set ≡ self.old.set }
        ensures ticks { self.new.ticks ≡ self.old.ticks }
    {
        self.last = command;
    }

    // The command after a report.
    fn command(&self, report: PlainReport) -> i64
        requires { HasSmallEst report }
        ensures value { result ≡ command_of self.now.set report }
        ensures small { unsigned_abs result ≤ 2 ^ 60 }
    {
        steer_against(self.set.step, report.est)
    }

    // The report of the measurements that are kept.
    fn report(&self) -> Option<PlainReport>
        ensures value { result ≡ least_report (map (report_at self.now.set) (marks_at self.now)) }
        ensures small { IfSome result HasSmallEst }
    {
        let mut scan = Scan {
            best: None,
            moved: self.last.into(),
        };
        for kept in self.ring.iter() {
            scan = self.further(scan, *kept);
        }
        scan.best
    }

    // One kept measurement further.
    fn further(&self, scan: Scan, kept: Kept) -> Scan
        requires kept { IsKept self.now.ticks kept }
        requires moved { unsigned_abs scan.moved ≤ 2 ^ 67 }
        requires best { IfSome scan.best HasSmallEst }
        ensures best { result.best ≡ better scan.best (report_at self.now.set (mark_of scan.moved self.now.ticks kept)) }
        ensures moved { result.moved ≡ scan.moved +ℤ kept.before }
        ensures small { IfSome result.best HasSmallEst }
    {
        let report = self.report_at(kept, scan.moved);
        Scan {
            best: better(scan.best, report),
            moved: sum(scan.moved, kept.before.into()),
        }
    }

    // What a kept measurement reports, if later commands moved the clock by `moved`.
    fn report_at(&self, kept: Kept, moved: i128) -> PlainReport
        requires kept { IsKept self.now.ticks kept }
        requires moved { unsigned_abs moved ≤ 2 ^ 67 }
        ensures value { result ≡ report_at self.now.set (mark_of moved self.now.ticks kept) }
        ensures small { HasSmallEst result }
    {
        let drift = self.drift_since(kept.ticks);
        PlainReport {
            est: sum(kept.est, moved),
            bound: raised(kept.base, drift),
        }
    }

    // How far the offset may have moved since this tick count.
    fn drift_since(&self, ticks: u32) -> u128
        requires { ticks ≤ self.now.ticks }
        ensures value { result ≡ moves_within self.now.set.rate ((self.now.ticks - ticks + 1) * unsigned_abs self.now.set.dmax) }
        ensures small { result ≤ 2 ^ 90 }
    {
        let ticks = u128::from(self.ticks - ticks) + 1;
        moves_within(
            self.set.rate,
            ticks * u128::from(self.set.dmax.unsigned_abs()),
        )
    }

    // How far the true offset may be from a measurement of this round trip.
    fn base(&self, round: i128) -> i128
        requires { unsigned_abs round ≤ 2 ^ 63 }
        ensures value { result ≡ base_of self.now.set round }
        ensures small { unsigned_abs result ≤ 2 ^ 64 }
    {
        let open = difference(half(round), self.set.least.into());
        raised(open, self.room())
    }

    // What the errors and the moves add to it.
    fn room(&self) -> u128
        ensures value { result ≡ 2 * exchange_move self.now.set + 4 * self.now.set.err + 1 }
        ensures small { result ≤ 2 ^ 50 }
    {
        2 * self.exchange_move() + 4 * u128::from(self.set.err) + 1
    }

    // The least round trip that the settings allow.
    fn least_round(&self) -> i128
        ensures value { result ≡ least_round self.now.set }
        ensures small { unsigned_abs result ≤ 2 ^ 60 }
    {
        let least = 2 * i128::from(self.set.least);
        let moves = 2 * self.exchange_move();
        let errors = 4 * u128::from(self.set.err);
        difference(difference(least, moves as i128), errors as i128)
    }

    // How far the offset may move in an exchange.
    fn exchange_move(&self) -> u128
        ensures value { result ≡ exchange_move self.now.set }
        ensures small { result ≤ 10 ^ 12 + 1 }
    {
        moves_within(self.set.rate, u128::from(self.set.span.unsigned_abs()))
    }
}

// The best report so far, and by how much later commands moved the clock.
#[derive(Clone, Copy)]
struct Scan {
    best: Option<PlainReport>,
    moved: i128,
}

// The lesser of two reports by their bounds, the first of equals.
fn better(best: Option<PlainReport>, report: PlainReport) -> Option<PlainReport>
    ensures value { result ≡ better best report }
    ensures small { IfSome best HasSmallEst → HasSmallEst report → IfSome result HasSmallEst }
{
    match best {
        Some(best) if best.bound <= report.bound => Some(best),
        _ => Some(report),
    }
}
