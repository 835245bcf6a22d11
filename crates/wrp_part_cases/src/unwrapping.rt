//! `unwrap`: the word is the period of the clock in ps, and the numbers are tags (`machines`). The unwrapped phase
//! after each is expected.
ghost use Rattle.std.specs.Prelude.{◌≡◌};

use crate::machines::{Machine, answer_of};
use crate::words::{clock_of, only_word};
use std::alloc::Global;
use wrp_base::Clock;
use wrp_phase::Unwrap;
use wrp_suite::{Answer, Case, Fault};

// An unwrapper, and the phase that it has.
#[derive(Drop)]
struct Phase {
    unwrap: Unwrap,
    answer: i64,
    ghost same: { unwrap.answer ≡ answer },
}

impl Phase {
    // One that has taken no tag.
    fn new(clock: Clock) -> Phase {
        Phase {
            unwrap: Unwrap::new(clock),
            answer: 0,
        }
    }
}

impl Machine for Phase {
    // Takes a tag, if the phase is below `2^60` tau on either side.
    fn push(&mut self, number: i64) -> Result<i64, Fault> {
        let tag = u16::try_from(number).ok().ok_or(Fault::Number)?;
        if self.answer.unsigned_abs() >= 1 << 60 {
            return Err(Fault::Condition);
        }
        self.answer = self.unwrap.push(tag);
        Ok(self.answer)
    }

    fn restart(&mut self) {
        self.unwrap.restart();
        self.answer = 0;
    }
}

/// What an `Unwrap` answers.
pub fn answer(alloc: Global, case: &Case) -> Result<Answer, Fault> {
    answer_of(alloc, &mut Phase::new(clock_of(only_word(case)?)?), case)
}
