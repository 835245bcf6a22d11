//! The unwrapped phase: successive tags, added up across the ends of the period.
ghost use Rattle.std.specs.Prelude.{◌≡◌, ◌^◌, ◌<◌, ◌≤◌, unsigned_abs, []};
ghost use Rattle.wrp_base.specs.Calls.{Adds};
ghost use Rattle.wrp_phase.specs.Unwrapping.{added_by, untouched, pushed, StandsFor};

use std::marker::Model;
use wrp_base::{Clock, STEPS_OF_PERIOD};

/// Half a period, in detector steps.
const HALF_PERIOD: u32 = 8_192;

/// Whole periods that no tag passes, in detector steps.
const WHOLE_PERIODS: u32 = 65_536;

/// Adds up the wrapped differences of successive tags.
#[derive(Clone, Copy, Debug, PartialEq, Eq)]
pub struct Unwrap {
    clock: Clock,
    last: Option<u16>,
    answer: i64,
}

impl Model for Unwrap {
    ghost use Rattle.wrp_phase.specs.Unwrapping.{Unwrapping};

    ghost Value = { Unwrapping };

    ghost view = { λ u. record { clock = u.clock; last = u.last; answer = u.answer } };

    ghost inverse = { λ v. record { clock = v.clock; last = v.last; answer = v.answer } };
}

impl Unwrap {
    /// An unwrapper that has taken no tag.
    pub fn new(clock: Clock) -> Unwrap
        ensures value { result ≡ untouched clock }
        ensures stands { StandsFor result [] }
    {
        Unwrap {
            clock,
            last: None,
            answer: 0,
        }
    }

    /// Forgets the tags: the next one gives 0.
    pub fn restart(&mut self)
        ensures value { self.new ≡ untouched self.old.clock }
        ensures stands { StandsFor self.new [] }
    {
        self.last = None;
        self.answer = 0;
    }

    /// Takes a tag, in detector steps, and returns the unwrapped phase, in tau: the sum of the wrapped
    /// differences of the tags since the last restart. The first one gives 0. A tag of a period or more
    /// counts round the period.
    pub fn push(&mut self, tag: u16) -> i64
        requires { unsigned_abs self.old.answer < 2 ^ 60 }
        ensures value { self.new ≡ pushed self.old tag }
        ensures stands { Adds StandsFor self.old self.new tag }
        ensures answer { result ≡ self.new.answer }
        ensures size { unsigned_abs result < 2 ^ 61 }
    {
        self.answer += addend(self.clock, self.last, tag);
        self.last = Some(tag);
        self.answer
    }
}

// What a tag adds to the phase after the one before it, if there is one.
fn addend(clock: Clock, before: Option<u16>, tag: u16) -> i64
    ensures value { result ≡ added_by clock before tag }
    ensures size { unsigned_abs result ≤ 2 ^ 29 }
{
    match before {
        None => 0,
        Some(last) => difference_round(clock, last, tag),
    }
}

// The difference of the phases that two tags show, brought into half a period on either side.
fn difference_round(clock: Clock, before: u16, tag: u16) -> i64
    ensures value { result ≡ added_by clock (Some before) tag }
    ensures size { unsigned_abs result ≤ 2 ^ 29 }
{
    let step = clock.step().unsigned_abs() as i64;
    let ahead = (u32::from(tag) + WHOLE_PERIODS + HALF_PERIOD - u32::from(before))
        % u32::from(STEPS_OF_PERIOD);
    step * (i64::from(ahead) - i64::from(HALF_PERIOD))
}
