//! The servo of a slave port: its calls, what they answer, and what it reports of itself.
ghost use Rattle.std.specs.Prelude.{◌≡◌, ℕ, ℤ, pos, ◌^◌, ◌<◌, ◌≤◌, ◌+◌, ◌≤ℤ◌, unsigned_abs, List, [], ◌∷◌, IfSome, None, Some, cond, true, IsTrue, ◌↔◌};
ghost use Rattle.std.specs.Option.{option_map};
ghost use Rattle.wrp_law.specs.Law.{LawOf, KeepsFact};
ghost use Rattle.wrp_servo.specs.Call.{Call, CallSample, CallMeasured, CallTick, CallLease, CallLink, CallCarrier, CallReset, ServoSetting, after};
ghost use Rattle.wrp_servo.specs.Measuring.{is_in, deltas_in_chain, x_of, placed, kept_of, cycles_in};
ghost use Rattle.wrp_servo.specs.Sampling.{est_of};
ghost use Rattle.wrp_servo.specs.Servo.{plain_out, ServoOf, StandsFor, AddsCall, AddsMeasured, after_call, servo_setting_of, IsAnswer, out_of, est_now, news_of};
ghost use Rattle.wrp_servo.specs.Sizes.{FitsTimes, FitsServoSet};
ghost use Rattle.wrp_servo.specs.LookBack.{enters_track, leaves_track};
ghost use Rattle.wrp_servo.specs.Since.{Since};
ghost use Rattle.wrp_servo.specs.Table.{is_track, new_core};

use crate::interface::{ServoOut, ServoSet};
use crate::measuring::x_by;
use crate::sampling::Heard;
use crate::valid::Machine;
use std::marker::Model;
use wrp_base::{ChainNews, Deltas, Four, ServoState, Tau};
use wrp_law::DelayLaw;

/// The servo of a slave port (this project's profile). It follows the phase of the recovered clock by
/// samples, measures its offset by fours of stamps and the delay law of its link, steps the clock, and
/// outputs a DAC value. What it holds after a list of calls is a function of the list and of the law's
/// answers in it: `StandsFor` says so, and every call adds itself to each list that the servo stands
/// for. Each call returns a `ServoOut`.
#[derive(Drop)]
pub struct Servo<F> {
    core: Machine,
    law: DelayLaw<F>,
}

impl<F> Model for Servo<F> {
    ghost use Rattle.wrp_servo.specs.Servo.{plain_out, ServoOf};

    ghost Value = { ServoOf F };

    ghost view = { λ s. record { core = s.core; law = s.law } };
}

impl<F: Fn(i64) -> i64> Servo<F> {
    /// A servo before its first call: UNINIT, without carrier, link, lease and chain. `delock_samples` is
    /// below `lock_samples`, and the law's closure keeps the fact beside it.
    pub fn new(set: ServoSet, law: DelayLaw<F>) -> Servo<F>
        requires set { FitsServoSet set }
        requires law { KeepsFact F.pre F.post law }
        ensures value { result ≡ record { core = new_core set; law = law } }
        ensures stands { StandsFor F.post (servo_setting_of set law) result [] }
    {
        Servo {
            core: Machine::new(set),
            law,
        }
    }

    /// A phase sample with number `n`, base 0 to 16383 and 64 beat bits. It is ignored without a carrier
    /// and in HOLDOVER, and refused (15) if it is glitched or not newer than an earlier one. Any other
    /// is good: it moves the phase, the setpoint and the loop, and may start or end the chain.
    /// An ignored sample changes nothing. The number of a refused one is noted, if it is the greatest so
    /// far, and nothing else changes. Both have neither `dac` nor `unwrapped`. A good one whose phase is
    /// `2^60` tau or more either way has no `dac`: the chain ends, and the loop restarts.
    pub fn sample(&mut self, n: u32, base: u16, bits: u64) -> ServoOut
        requires base { base < 16384 }
        ensures value { self.new ≡ after_call self.old (CallSample n base bits) }
        ensures stands { AddsCall F.post self.old self.new (CallSample n base bits) }
        ensures out { result ≡ out_of self.old (CallSample n base bits) }
    {
        let before = self.core.first();
        let heard = self.core.sample(n, base, bits);
        let chain = news(before, self.core.first());
        match heard {
            Heard::Ignored => ServoOut {
                cycles: 0,
                dac: None,
                unwrapped: None,
                chain,
                refused: None,
            },
            Heard::Refused => ServoOut {
                cycles: 0,
                dac: None,
                unwrapped: None,
                chain,
                refused: Some(15),
            },
            Heard::Lost => ServoOut {
                cycles: 0,
                dac: None,
                unwrapped: Some(self.core.u()),
                chain,
                refused: None,
            },
            Heard::Followed => ServoOut {
                cycles: 0,
                dac: Some(self.core.dac()),
                unwrapped: Some(self.core.u()),
                chain,
                refused: None,
            },
        }
    }

    /// A four of stamps, each time strictly between `-2^105` and `2^105` tau. Without a chain it is
    /// ignored. If the delay both ways is out of the law's range, it is refused (14) and the chain ends.
    /// Otherwise it is kept, and the state makes of it a step, a goal of the setpoint, or nothing.
    /// An ignored four changes nothing. After a refused one there are no chain and no four; TRACK has gone
    /// to HOLDOVER, and SYNC_NSEC, SYNC_PHASE and WAIT_STABLE have gone to SYNC_TAI.
    pub fn measured(&mut self, four: &Four) -> ServoOut
        requires law { KeepsFact F.pre F.post self.old.law }
        requires four { FitsTimes four.now }
        ensures law { self.new.law ≡ self.old.law }
        ensures answered { (y : ℤ) × AddsMeasured F.post self.old self.new four.now y result }
    {
        let (out, _answer) = self.ask(four);
        out
    }

    // A measurement, with the law's answer, which is 0 if the law is not asked.
    fn ask(&mut self, four: &Four) -> (ServoOut, i64)
        requires law { KeepsFact F.pre F.post self.old.law }
        requires four { FitsTimes four.now }
        ensures law { self.new.law ≡ self.old.law }
        ensures answer { IsAnswer (F.post self.old.law.closure) (servo_setting_of self.old.core.set self.old.law)
            self.old.core four.now result.1 }
        ensures core { self.new.core ≡ after (servo_setting_of self.old.core.set self.old.law)
            self.old.core (CallMeasured four.now result.1) }
        ensures out { result.0 ≡ out_of self.old (CallMeasured four.now result.1) }
    {
        let before = self.core.first();
        match self.core.deltas_in_chain() {
            None => (plain_out(0, news(before, self.core.first()), None), 0),
            Some(deltas) => {
                match self.x_in(x_by(&deltas, four)) {
                    Some(x) => self.ask_law(four, &deltas, x),
                    None => {
                        self.core.refuse();
                        (plain_out(0, news(before, self.core.first()), Some(14)), 0)
                    }
                }
            }
        }
    }

    // A measurement whose x is in the law's range.
    fn ask_law(&mut self, four: &Four, deltas: &Deltas, x: i64) -> (ServoOut, i64)
        requires law { KeepsFact F.pre F.post self.old.law }
        requires four { FitsTimes four.now }
        requires deltas_in_chain { deltas_in_chain self.old.core ≡ Some deltas.now }
        requires within { is_in self.old.law.lo self.old.law.hi (x_of deltas.now four.now) ≡ true }
        requires x { x ≡ x_of deltas.now four.now }
        requires lo { self.old.law.lo ≤ℤ x }
        requires hi { x ≤ℤ self.old.law.hi }
        ensures law { self.new.law ≡ self.old.law }
        ensures answer { F.post self.old.law.closure (x_of deltas.now four.now) result.1 }
        ensures core { self.new.core ≡ placed self.old.core (kept_of four.now deltas.now result.1) }
        ensures out { result.0 ≡ out_of self.old (CallMeasured four.now result.1) }
    {
        let before = self.core.first();
        let answer = self.law.apply(x);
        let cycles = self.core.take_four(four, deltas, answer);
        (
            plain_out(cycles, news(before, self.core.first()), None),
            answer,
        )
    }

    // x, if it is in the law's range.
    fn x_in(&self, x: Tau) -> Option<i64>
        ensures some { IfSome result (λ z. (z ≡ x) × (self.now.law.lo ≤ℤ z) × (z ≤ℤ self.now.law.hi)
            × (is_in self.now.law.lo self.now.law.hi x ≡ true)) }
        ensures value { result ≡ cond (is_in self.now.law.lo self.now.law.hi x) (Some x) None }
    {
        if i128::from(self.law.lo()) <= x && x <= i128::from(self.law.hi()) {
            Some(x as i64)
        } else {
            None
        }
    }

    /// A tick of the node. Fewer than `2^32 - 1` ticks came since the last reset.
    pub fn tick(&mut self) -> ServoOut
        requires { self.old.core.ticks + 1 < 2 ^ 32 }
        ensures value { self.new ≡ after_call self.old CallTick }
        ensures stands { AddsCall F.post self.old self.new CallTick }
        ensures out { result ≡ out_of self.old CallTick }
    {
        let before = self.core.first();
        self.core.tick();
        plain_out(0, news(before, self.core.first()), None)
    }

    /// The carrier came (`true`) or went.
    pub fn carrier(&mut self, up: bool) -> ServoOut
        ensures value { self.new ≡ after_call self.old (CallCarrier up) }
        ensures stands { AddsCall F.post self.old self.new (CallCarrier up) }
        ensures out { result ≡ out_of self.old (CallCarrier up) }
    {
        let before = self.core.first();
        self.core.carrier(up);
        plain_out(0, news(before, self.core.first()), None)
    }

    /// The link is on, with the fixed delays of its two ports, or off.
    pub fn link(&mut self, on: Option<Deltas>) -> ServoOut
        ensures value { self.new ≡ after_call self.old (CallLink on) }
        ensures stands { AddsCall F.post self.old self.new (CallLink on) }
        ensures out { result ≡ out_of self.old (CallLink on) }
    {
        let before = self.core.first();
        self.core.link(on);
        plain_out(0, news(before, self.core.first()), None)
    }

    /// The lease is fresh, or lapsed.
    pub fn lease(&mut self, fresh: bool) -> ServoOut
        ensures value { self.new ≡ after_call self.old (CallLease fresh) }
        ensures stands { AddsCall F.post self.old self.new (CallLease fresh) }
        ensures out { result ≡ out_of self.old (CallLease fresh) }
    {
        let before = self.core.first();
        self.core.lease(fresh);
        plain_out(0, news(before, self.core.first()), None)
    }

    /// All is as in a new servo.
    pub fn reset(&mut self) -> ServoOut
        ensures value { self.new ≡ after_call self.old CallReset }
        ensures stands { AddsCall F.post self.old self.new CallReset }
        ensures out { result ≡ out_of self.old CallReset }
    {
        let before = self.core.first();
        self.core.reset();
        plain_out(0, news(before, self.core.first()), None)
    }

    /// The state of the servo.
    pub fn state(&self) -> ServoState
        ensures { result ≡ self.now.core.state }
    {
        self.core.state()
    }

    /// Whether the lock detector is locked.
    pub fn locked(&self) -> bool
        ensures { result ≡ self.now.core.phase.lock.locked }
    {
        self.core.locked()
    }

    /// The last DAC value: the bias before any.
    pub fn dac(&self) -> u16
        ensures { result ≡ self.now.core.phase.dac }
    {
        self.core.dac()
    }

    /// Whether the state is TRACK: looking back over the calls, one entered it, and no later call left it.
    pub fn tracking(&self) -> bool
        ensures state { result ≡ is_track self.now.core.state }
        ensures since { (x : ServoSetting) (calls : List Call) → StandsFor F.post x self.now calls
            → IsTrue result ↔ Since (enters_track x) (leaves_track x) calls }
    {
        self.is_in_track()
    }

    // Whether the state is TRACK.
    fn is_in_track(&self) -> bool
        ensures { result ≡ is_track self.now.core.state }
    {
        self.core.state() == ServoState::Track
    }

    /// The offset of the slave's clock, in tau, by the four that is kept and the phase since; None
    /// if there is no four. The servo stays as it is.
    pub fn est(&self) -> Option<Tau>
        ensures { result ≡ est_now self.now.core }
    {
        self.core.est()
    }
}

// An answer that has no sample.
fn plain_out(cycles: i64, chain: ChainNews, refused: Option<u8>) -> ServoOut
    ensures { result ≡ plain_out cycles chain refused }
{
    ServoOut {
        cycles,
        dac: None,
        unwrapped: None,
        chain,
        refused,
    }
}

// What became of the chain.
fn news(before: Option<u32>, after: Option<u32>) -> ChainNews
    ensures { result ≡ news_of before after }
{
    match (before, after) {
        (Some(_), None) => ChainNews::Ended,
        (None, Some(n)) => ChainNews::Started(n),
        _ => ChainNews::Same,
    }
}
