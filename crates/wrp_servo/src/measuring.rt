//! What a measurement does.
ghost use Rattle.std.specs.Prelude.{◌≡◌, ℕ, ℤ, pos, Option, Some, ◌^◌, ◌<◌, ◌≤◌, ◌-◌, ◌-ℤ◌, ◌+ℤ◌, ◌≤ℤ◌, unsigned_abs, IfSome, nat_le};
ghost use Rattle.wrp_servo.specs.Following.{e_tau};
ghost use Rattle.wrp_servo.specs.Sampling.{est_of, residual, is_within};
ghost use Rattle.wrp_servo.specs.Measuring.{mm_of, x_of, delay_of, second_cycles, period_cycles, aimed, is_half, by_period, by_residual, settled, placed_in, placed, may_track, cycles_in, step_by_period, is_below_second, held_cycles, deltas_in_chain, stepped, half_period};
ghost use Rattle.wrp_base.specs.Division.{floor_quotient, trunc_quotient};
ghost use Rattle.wrp_base.specs.Clock.{period_of, second};
ghost use Rattle.wrp_base.specs.declared.link.ServoState.TheVariants.{SyncTai, WaitStable};
ghost use Rattle.wrp_servo.specs.Sizes.{IsSized, FitsFour, HasRoom, FitsTimes};

use crate::machine::{Core, Measurement};
use crate::sampling::{est, is_within};
use wrp_base::{
    Clock, Deltas, Four, ServoState, Tau, difference, floor_div, hold, narrow, product, sum,
    trunc_div,
};

/// One second.
const SECOND: Tau = 65_536_000_000_000_000;

/// What the fibre takes both ways, in tau: the round trip less the four fixed delays.
pub fn x_by(deltas: &Deltas, four: &Four) -> Tau
    requires { FitsTimes four.now }
    ensures value { result ≡ x_of deltas.now four.now }
    ensures size { unsigned_abs result ≤ 2 ^ 110 }
{
    let ports = sum(
        sum(
            sum(i128::from(deltas.txm), i128::from(deltas.rxs)),
            i128::from(deltas.txs),
        ),
        i128::from(deltas.rxm),
    );
    difference(mm(four), ports)
}

// The round trip, in tau, at the slave's phase.
fn mm(four: &Four) -> Tau
    requires { FitsTimes four.now }
    ensures value { result ≡ mm_of four.now }
    ensures size { unsigned_abs result ≤ 2 ^ 109 }
{
    let down = difference(difference(four.t2, four.t1), i128::from(four.u2));
    let up = sum(difference(four.t4, four.t3), i128::from(four.u3));
    sum(down, up)
}

/// The delay down, in tau: the law's answer for the fibre, the transmission delay of the master and the
/// reception delay of the slave added up.
pub fn delay_by(deltas: &Deltas, answer: i64) -> Tau
    ensures value { result ≡ delay_of deltas.now answer }
    ensures size { unsigned_abs result ≤ 2 ^ 67 }
{
    sum(
        sum(i128::from(deltas.txm), i128::from(deltas.rxs)),
        i128::from(answer),
    )
}

// The step of whole seconds, counted in periods and held within `2^62`: the whole seconds of est,
// rounded towards zero, with the opposite sign. It is negative if the slave's clock is ahead.
fn seconds(clock: Clock, est: Tau) -> i64
    requires { unsigned_abs est ≤ 2 ^ 110 }
    ensures { result ≡ second_cycles clock est }
{
    let back = difference(0, whole_seconds(est));
    cycles(product(back, i128::from(clock.per_second())))
}

// Whole seconds, towards zero.
fn whole_seconds(est: Tau) -> i128
    requires { unsigned_abs est ≤ 2 ^ 110 }
    ensures value { result ≡ trunc_quotient est second }
    ensures size { unsigned_abs result ≤ 2 ^ 60 }
{
    trunc_div(est, SECOND)
}

// The step of whole periods, held within `2^62`: est in periods, to the nearest, with the opposite sign.
// It is negative if the slave's clock is ahead.
fn periods(clock: Clock, est: Tau) -> i64
    requires { unsigned_abs est ≤ 2 ^ 110 }
    ensures { result ≡ period_cycles clock est }
{
    cycles(difference(0, whole_periods(clock, est)))
}

// Whole periods, to the nearest.
fn whole_periods(clock: Clock, est: Tau) -> i128
    requires { unsigned_abs est ≤ 2 ^ 110 }
    ensures value { result ≡ floor_quotient (est +ℤ half_period clock) (pos (period_of clock)) }
    ensures size { unsigned_abs result ≤ 2 ^ 120 }
{
    floor_div(sum(est, half(clock)), clock.period())
}

// Half a period.
fn half(clock: Clock) -> Tau
    ensures value { result ≡ half_period clock }
    ensures size { unsigned_abs result ≤ 2 ^ 30 }
{
    clock.period() / 2
}

// A number of periods, held within 2^62.
fn cycles(number: i128) -> i64
    ensures { result ≡ held_cycles number }
{
    narrow(hold(1 << 62, number))
}

// Whether a size is below one second.
fn is_below_second(est: Tau) -> bool
    ensures { result ≡ is_below_second est }
{
    est.unsigned_abs() < SECOND.unsigned_abs()
}

impl Core {
    /// The fixed delays of the link, in tau, by which a four is measured. None if there is no chain,
    /// or the link is off. The servo stays as it is.
    pub fn deltas_in_chain(&self) -> Option<Deltas>
        ensures { result ≡ deltas_in_chain self.now }
    {
        match self.first {
            Some(_) => self.signals.link,
            None => None,
        }
    }

    /// Keeps a four, and returns the commanded periods.
    pub fn place(&mut self, kept: Measurement) -> i64
        requires u { unsigned_abs self.old.phase.u < 2 ^ 61 }
        requires room { HasRoom self.old }
        requires four { FitsFour kept }
        ensures value { self.new ≡ placed self.old kept }
        ensures cycles { result ≡ cycles_in self.old (est_of self.old.phase.u kept) self.old.state }
    {
        self.kept = Some(kept);
        self.place_four(&kept, est(self.phase.u, &kept))
    }

    // What the state makes of the four that is kept.
    fn place_four(&mut self, kept: &Measurement, est: Tau) -> i64
        requires u { unsigned_abs self.old.phase.u < 2 ^ 61 }
        requires room { HasRoom self.old }
        requires four { FitsFour kept.now }
        requires est { unsigned_abs est ≤ 2 ^ 110 }
        ensures value { self.new ≡ placed_in self.old kept.now est self.old.state }
        ensures cycles { result ≡ cycles_in self.old est self.old.state }
    {
        match self.state {
            ServoState::SyncTai => self.by_second(kept, est),
            ServoState::SyncNsec => self.by_period(kept, est),
            ServoState::WaitStable => self.by_calm(kept, est),
            ServoState::Track => self.by_residual(kept),
            _ => 0,
        }
    }

    fn by_second(&mut self, kept: &Measurement, est: Tau) -> i64
        requires u { unsigned_abs self.old.phase.u < 2 ^ 61 }
        requires room { HasRoom self.old }
        requires four { FitsFour kept.now }
        requires est { unsigned_abs est ≤ 2 ^ 110 }
        ensures value { self.new ≡ placed_in self.old kept.now est SyncTai }
        ensures cycles { result ≡ cycles_in self.old est SyncTai }
    {
        if is_below_second(est) {
            self.by_period(kept, est)
        } else {
            self.step(ServoState::SyncTai);
            seconds(self.set.clock, est)
        }
    }

    fn by_calm(&mut self, kept: &Measurement, est: Tau) -> i64
        requires u { unsigned_abs self.old.phase.u < 2 ^ 61 }
        requires room { HasRoom self.old }
        requires four { FitsFour kept.now }
        requires est { unsigned_abs est ≤ 2 ^ 110 }
        ensures value { self.new ≡ placed_in self.old kept.now est WaitStable }
        ensures cycles { result ≡ pos 0 }
    {
        if self.calm >= self.set.stable {
            self.settle(kept, est);
        }
        0
    }

    fn by_residual(&mut self, kept: &Measurement) -> i64
        requires u { unsigned_abs self.old.phase.u < 2 ^ 61 }
        requires room { HasRoom self.old }
        requires four { FitsFour kept.now }
        ensures value { self.new ≡ by_residual self.old kept.now }
        ensures cycles { result ≡ pos 0 }
    {
        if self.is_near_by(kept) {
            self.aim(kept, ServoState::Track);
        } else {
            self.end();
        }
        0
    }

    fn step(&mut self, state: ServoState)
        ensures { self.new ≡ stepped self.old state }
    {
        self.state = state;
        self.first = None;
        self.kept = None;
    }

    fn by_period(&mut self, kept: &Measurement, est: Tau) -> i64
        requires u { unsigned_abs self.old.phase.u < 2 ^ 61 }
        requires room { HasRoom self.old }
        requires four { FitsFour kept.now }
        requires est { unsigned_abs est ≤ 2 ^ 110 }
        ensures value { self.new ≡ by_period self.old kept.now est }
        ensures cycles { result ≡ step_by_period self.old est }
    {
        if self.is_half(est) {
            self.aim(kept, ServoState::SyncPhase);
            0
        } else {
            self.step(ServoState::SyncNsec);
            periods(self.set.clock, est)
        }
    }

    fn is_half(&self, est: Tau) -> bool
        requires { unsigned_abs est ≤ 2 ^ 110 }
        ensures { result ≡ is_half self.now est }
    {
        is_within(half(self.set.clock), est)
    }

    fn settle(&mut self, kept: &Measurement, est: Tau)
        requires u { unsigned_abs self.old.phase.u < 2 ^ 61 }
        requires room { HasRoom self.old }
        requires four { FitsFour kept.now }
        requires est { unsigned_abs est ≤ 2 ^ 110 }
        ensures { self.new ≡ settled self.old kept.now est }
    {
        if self.may_track(kept) {
            self.aim(kept, ServoState::Track);
        } else if self.is_half(est) {
            self.aim(kept, ServoState::SyncPhase);
        } else {
            self.state = ServoState::SyncNsec;
        }
    }

    fn is_near_by(&self, kept: &Measurement) -> bool
        requires u { unsigned_abs self.now.phase.u < 2 ^ 61 }
        requires room { HasRoom self.now }
        requires four { FitsFour kept.now }
        ensures { result ≡ is_within self.now.set.track_tau (residual self.now.phase kept.now) }
    {
        is_within(self.set.track_tau, self.residual(kept))
    }

    fn may_track(&self, kept: &Measurement) -> bool
        requires u { unsigned_abs self.now.phase.u < 2 ^ 61 }
        requires room { HasRoom self.now }
        requires four { FitsFour kept.now }
        ensures { result ≡ may_track self.now kept.now }
    {
        is_within(self.set.track_tau, self.residual(kept))
            && (self.is_calm() && self.ticks.saturating_sub(kept.four.tick) <= self.set.age)
    }

    fn aim(&mut self, kept: &Measurement, state: ServoState)
        requires u { unsigned_abs self.old.phase.u < 2 ^ 61 }
        requires room { HasRoom self.old }
        requires four { FitsFour kept.now }
        ensures { self.new ≡ aimed self.old kept.now state }
    {
        self.state = state;
        self.phase.goal = difference(self.phase.s, self.residual(kept));
    }
}
