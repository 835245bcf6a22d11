//! Cases on a servo. Its word names its settings (`sets`); its law is that both ways of a link are equal. A line of the
//! input is a call (`calls`), whose answer is printed; or `state`, and what the servo then holds is printed (`lines`).
ghost use Rattle.std.specs.Prelude.{◌≡◌, ◌≤◌, ◌+◌, ◌^◌, unsigned_abs};
ghost use Rattle.wrp_law.specs.Law.{KeepsFact};

mod calls;
mod lines;
mod sets;

use crate::told::{Told, text_of};
use calls::{call_of, make};
use lines::{tell, tell_state};
use sets::set_of;
use std::alloc::Global;
use wrp_law::{DelayLaw, LawKind, floor_of};
use wrp_servo::Servo;
use wrp_suite::{Answer, Case, Fault};

// The most calls of a case: a servo counts its ticks.
const MOST: u32 = 1 << 20;

// One line. A call is counted.
fn take_line<F: Fn(i64) -> i64>(
    alloc: Global,
    servo: &mut Servo<F>,
    count: &mut u32,
    line: &str,
    told: &mut Told,
) -> Result<(), Fault>
    requires law { KeepsFact F.pre F.post servo.old.law }
    requires ticks { servo.old.core.ticks ≤ count.old }
    ensures law { servo.new.law ≡ servo.old.law }
    ensures ticks { servo.new.core.ticks ≤ count.new }
{
    if line == "state" {
        return Ok(tell_state(alloc, servo, told)?);
    }
    let call = call_of(alloc, line)?;
    if *count >= MOST {
        return Err(Fault::Condition);
    }
    *count += 1;
    match make(servo, call) {
        Some(out) => Ok(tell(alloc, &out, told)?),
        None => Err(Fault::Condition),
    }
}

// All lines.
fn take_lines<F: Fn(i64) -> i64>(
    alloc: Global,
    servo: &mut Servo<F>,
    lines: &str,
    told: &mut Told,
) -> Result<(), Fault>
    requires law { KeepsFact F.pre F.post servo.old.law }
    requires ticks { servo.old.core.ticks ≡ 0 }
{
    let mut count = 0u32;
    for line in lines.lines() {
        take_line(alloc, servo, &mut count, line, told)?;
    }
    Ok(())
}

// What follows from the calls of a servo with this law.
fn answer_by<F: Fn(i64) -> i64>(
    alloc: Global,
    case: &Case,
    law: DelayLaw<F>,
) -> Result<Answer, Fault>
    requires { KeepsFact F.pre F.post law }
{
    let mut servo = Servo::new(set_of(&case.words)?, law);
    let mut told = Told::new(alloc);
    take_lines(alloc, &mut servo, text_of(case)?, &mut told)?;
    Ok(told.answer())
}

/// What follows from the calls of a servo.
pub fn answer(alloc: Global, case: &Case) -> Result<Answer, Fault> {
    let law = DelayLaw::new(
        |x: i64|
            requires { unsigned_abs x ≤ 2 ^ 53 }
        { floor_of(0, x) },
        LawKind::Linear { kappa: 0 },
        -(1 << 30),
        1 << 53,
        1,
    );
    answer_by(alloc, case, law)
}
