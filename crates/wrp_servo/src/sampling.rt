//! What a sample does, step by step.
ghost use Rattle.std.specs.Prelude.{◌≡◌, ℕ, pos, Option, Some, ◌^◌, ◌<◌, ◌≤◌, ◌-ℤ◌, ◌≤ℤ◌, unsigned_abs, IfSome};
ghost use Rattle.wrp_servo.specs.Following.{e_tau, taken};
ghost use Rattle.wrp_servo.specs.Sampling.{by_sample, heard_as, heard, tag_as, good, good_as, good_tag, is_far, lost, followed, chained, judged, judged_in, stays_near, is_calm, is_within, is_near, est_of, residual, with_tag, may_start};
ghost use Rattle.wrp_servo.specs.Table.{ended};
ghost use Rattle.wrp_servo.specs.Sizes.{IsSized, FitsFour, HasRoom};

use crate::machine::{Core, Measurement};
use wrp_base::{ServoState, Tau, difference, sum};
use wrp_phase::deglitch;

/// What became of a sample.
#[derive(Clone, Copy)]
pub enum Heard {
    /// It was ignored.
    Ignored,
    /// It was refused.
    Refused,
    /// It is good, and its phase is out of range.
    Lost,
    /// It is good, and the loop took it.
    Followed,
}

impl Core {
    /// Takes a sample, and returns what became of it. Ignored, without a carrier and in HOLDOVER: nothing
    /// changes. Refused, if it is glitched or not newer than all before: its number is noted, if it is
    /// the greatest so far, and nothing else changes. Lost, if it is good and its phase is `2^60` tau or
    /// more either way: the chain ends, and the loop restarts at the next good sample. Else Followed: the
    /// loop, the chain and the state have acted on it.
    pub fn sample(&mut self, n: u32, base: u16, bits: u64) -> Heard
        requires base { base < 16384 }
        requires sized { IsSized self.old }
        ensures state { self.new ≡ by_sample self.old n base bits }
        ensures heard { result ≡ heard_as self.old n base bits }
    {
        if !self.signals.carrier || self.state == ServoState::Holdover {
            return Heard::Ignored;
        }
        let tag = tag_of(self.last, n, base, bits);
        self.last = self.last.max(n);
        self.hear(n, tag)
    }

    // What a sample does that is not ignored.
    fn hear(&mut self, n: u32, tag: Option<u16>) -> Heard
        requires tag { IfSome tag (λ t. t < 16384) }
        requires sized { IsSized self.old }
        ensures state { self.new ≡ heard self.old n tag }
        ensures heard { result ≡ tag_as self.old tag }
    {
        match tag {
            None => Heard::Refused,
            Some(tag) => self.use_tag(n, tag),
        }
    }

    fn use_tag(&mut self, n: u32, tag: u16) -> Heard
        requires tag { tag < 16384 }
        requires sized { IsSized self.old }
        ensures state { self.new ≡ good (with_tag self.old tag) n }
        ensures heard { result ≡ good_as (with_tag self.old tag) }
    {
        self.take(tag);
        self.good(n)
    }

    // The sample's tag goes to the loop.
    fn take(&mut self, tag: u16)
        requires tag { tag < 16384 }
        requires answer { unsigned_abs self.old.phase.unwrap.answer < 2 ^ 60 }
        ensures value { self.new ≡ with_tag self.old tag }
        ensures size { unsigned_abs self.new.phase.u < 2 ^ 61 }
        ensures room { HasRoom self.old → HasRoom self.new }
    {
        self.phase.take(tag);
        self.good_tick = self.ticks;
    }

    // What a good sample does after its tag was taken.
    fn good(&mut self, n: u32) -> Heard
        requires u { unsigned_abs self.old.phase.u < 2 ^ 61 }
        requires room { HasRoom self.old }
        ensures state { self.new ≡ good self.old n }
        ensures heard { result ≡ good_as self.old }
    {
        if self.is_far() {
            self.end();
            self.phase.restart();
            return Heard::Lost;
        }
        self.steer();
        self.update_chain(n);
        self.judge();
        Heard::Followed
    }

    fn is_far(&self) -> bool
        ensures { result ≡ is_far self.now.phase.u }
    {
        self.phase.u.unsigned_abs() >= 1 << 60
    }

    fn steer(&mut self)
        requires u { unsigned_abs self.old.phase.u < 2 ^ 61 }
        requires room { HasRoom self.old }
        ensures value { self.new ≡ followed self.old }
        ensures room { HasRoom self.new }
    {
        self.phase.approach(self.set.phase_step);
        self.phase.control();
    }

    fn update_chain(&mut self, n: u32)
        ensures value { self.new ≡ chained self.old n }
        ensures room { HasRoom self.old → HasRoom self.new }
        ensures u { self.new.phase.u ≡ self.old.phase.u }
    {
        if self.phase.lock.locked() {
            if self.may_start() {
                self.first = Some(n);
            }
        } else {
            self.drop_chain();
        }
    }

    fn drop_chain(&mut self)
        ensures value { self.new ≡ ended self.old }
        ensures room { HasRoom self.old → HasRoom self.new }
        ensures u { self.new.phase.u ≡ self.old.phase.u }
    {
        self.end();
    }

    fn may_start(&self) -> bool
        ensures { result ≡ may_start self.now }
    {
        self.first.is_none() && (self.signals.link.is_some() && self.signals.lease)
    }

    fn judge(&mut self)
        requires u { unsigned_abs self.old.phase.u < 2 ^ 61 }
        requires room { HasRoom self.old }
        ensures { self.new ≡ judged_in self.old self.old.state }
    {
        match self.state {
            ServoState::SyncPhase => {
                if self.phase.s <= self.phase.goal && self.phase.goal <= self.phase.s {
                    self.state = ServoState::WaitStable;
                    self.calm = 0;
                }
            }
            ServoState::WaitStable => {
                self.calm = if self.is_calm() {
                    self.calm.saturating_add(1).min(self.set.stable)
                } else {
                    0
                };
            }
            ServoState::Track => {
                if !self.stays_near() {
                    self.end();
                }
            }
            _ => {}
        }
    }

    /// Whether the loop's error is within its limit.
    pub fn is_calm(&self) -> bool
        requires u { unsigned_abs self.now.phase.u < 2 ^ 61 }
        requires room { HasRoom self.now }
        ensures { result ≡ is_calm self.now }
    {
        is_within(self.set.loop_tau, self.phase.e_tau())
    }

    fn stays_near(&self) -> bool
        requires u { unsigned_abs self.now.phase.u < 2 ^ 61 }
        requires room { HasRoom self.now }
        ensures { result ≡ stays_near self.now }
    {
        self.is_calm() && self.is_near()
    }

    fn is_near(&self) -> bool
        requires u { unsigned_abs self.now.phase.u < 2 ^ 61 }
        requires room { HasRoom self.now }
        ensures { result ≡ is_near self.now.set.track_tau self.now.phase self.now.kept }
    {
        match self.kept {
            None => true,
            Some(kept) => is_within(self.set.track_tau, self.residual(&kept)),
        }
    }

    /// The residual, by a four.
    pub fn residual(&self, kept: &Measurement) -> Tau
        requires u { unsigned_abs self.now.phase.u < 2 ^ 61 }
        requires s { unsigned_abs self.now.phase.s ≤ 2 ^ 62 }
        requires four { FitsFour kept.now }
        ensures value { result ≡ residual self.now.phase kept.now }
        ensures size { unsigned_abs result ≤ 2 ^ 111 }
    {
        difference(est(self.phase.u, kept), self.phase.e_tau())
    }
}

/// est, by a four.
pub fn est(u: i64, kept: &Measurement) -> Tau
    requires u { unsigned_abs u < 2 ^ 61 }
    requires four { FitsFour kept.now }
    ensures value { result ≡ est_of u kept.now }
    ensures size { unsigned_abs result ≤ 2 ^ 110 }
{
    let there = difference(difference(kept.four.t2, kept.four.t1), kept.delay);
    sum(there, difference(i128::from(u), i128::from(kept.four.u2)))
}

/// Whether the size of x is at most the limit.
pub fn is_within(limit: Tau, x: Tau) -> bool
    requires { unsigned_abs x < 2 ^ 120 }
    ensures { result ≡ is_within limit x }
{
    x.unsigned_abs() as i128 <= limit
}

// The tag of a sample that is good.
fn tag_of(last: u32, n: u32, base: u16, bits: u64) -> Option<u16>
    requires { base < 16384 }
    ensures value { result ≡ good_tag last n base bits }
    ensures tag { IfSome result (λ tag. tag < 16384) }
{
    if last < n { deglitch(base, bits) } else { None }
}
