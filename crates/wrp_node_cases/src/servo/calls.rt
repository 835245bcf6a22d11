//! The calls of a servo, in words:
//!
//!     sample N BASE BITS            64 beat bits in hex, from the tag BASE on
//!     four T1 T2 T3 T4 U2 U3 TICK   a measurement
//!     tick
//!     lease on | lease off
//!     link on | link off            a link is on without fixed delays
//!     carrier on | carrier off
//!     reset
ghost use Rattle.std.specs.Prelude.{◌≡◌, ◌≤◌, ◌+◌, ◌<◌, ◌^◌};
ghost use Rattle.wrp_law.specs.Law.{KeepsFact};
ghost use Rattle.wrp_servo.specs.Sizes.{FitsTimes};

use std::alloc::Global;
use wrp_base::{Deltas, Four};
use wrp_servo::{Servo, ServoOut, counts_one_tick};
use wrp_suite::Fault;

/// A call.
#[derive(Clone, Copy)]
pub enum Call {
    /// A phase sample: its number, base and bits.
    Sample(u32, u16, u64),
    /// A measurement.
    Four(Times),
    /// A tick.
    Tick,
    /// The lease is fresh, or lapsed.
    Lease(bool),
    /// The link is on, or off.
    Link(bool),
    /// The carrier comes, or goes.
    Carrier(bool),
    /// All is as in a new servo.
    Reset,
}

/// The numbers of a measurement.
#[derive(Clone, Copy)]
pub struct Times {
    t1: i64,
    t2: i64,
    t3: i64,
    t4: i64,
    u2: i64,
    u3: i64,
    tick: u32,
}

const DELTAS: Deltas = Deltas {
    txm: 0,
    rxm: 0,
    txs: 0,
    rxs: 0,
};

// A sample.
fn sample(n: &str, base: &str, bits: &str) -> Option<Call> {
    Some(Call::Sample(
        n.parse::<u32>().ok()?,
        base.parse::<u16>().ok()?,
        u64::from_str_radix(bits, 16).ok()?,
    ))
}

// A measurement.
fn four(times: [&str; 4], u2: &str, u3: &str, tick: &str) -> Option<Call> {
    let [t1, t2, t3, t4] = times;
    Some(Call::Four(Times {
        t1: t1.parse::<i64>().ok()?,
        t2: t2.parse::<i64>().ok()?,
        t3: t3.parse::<i64>().ok()?,
        t4: t4.parse::<i64>().ok()?,
        u2: u2.parse::<i64>().ok()?,
        u3: u3.parse::<i64>().ok()?,
        tick: tick.parse::<u32>().ok()?,
    }))
}

// Whether something is on.
fn is_on(word: &str) -> Option<bool> {
    match word {
        "on" => Some(true),
        "off" => Some(false),
        _ => None,
    }
}

// The call of these words.
fn call_by(words: &[&str]) -> Option<Call> {
    match *words {
        ["sample", n, base, bits] => sample(n, base, bits),
        ["four", t1, t2, t3, t4, u2, u3, tick] => four([t1, t2, t3, t4], u2, u3, tick),
        ["tick"] => Some(Call::Tick),
        ["lease", word] => Some(Call::Lease(is_on(word)?)),
        ["link", word] => Some(Call::Link(is_on(word)?)),
        ["carrier", word] => Some(Call::Carrier(is_on(word)?)),
        ["reset"] => Some(Call::Reset),
        _ => None,
    }
}

/// The call of a line.
pub fn call_of(alloc: Global, line: &str) -> Result<Call, Fault> {
    let words: Vec<&str> = line.split_whitespace().collect(alloc)?;
    call_by(&words).ok_or(Fault::Input)
}

// The four of these numbers.
fn four_of(times: &Times) -> Four
    ensures { FitsTimes result }
{
    Four {
        t1: i128::from(times.t1),
        t2: i128::from(times.t2),
        t3: i128::from(times.t3),
        t4: i128::from(times.t4),
        u2: times.u2,
        u3: times.u3,
        tick: times.tick,
    }
}

/// Makes a call, if its condition holds: the base of a sample is below 16384.
pub fn make<F: Fn(i64) -> i64>(servo: &mut Servo<F>, call: Call) -> Option<ServoOut>
    requires law { KeepsFact F.pre F.post servo.old.law }
    requires ticks { servo.old.core.ticks < 2 ^ 20 }
    ensures law { servo.new.law ≡ servo.old.law }
    ensures ticks { servo.new.core.ticks ≤ servo.old.core.ticks + 1 }
{
    counts_one_tick();
    match call {
        Call::Sample(n, base, bits) if base < 16_384 => Some(servo.sample(n, base, bits)),
        Call::Sample(..) => None,
        Call::Four(times) => Some(servo.measured(&four_of(&times))),
        Call::Tick => Some(servo.tick()),
        Call::Lease(fresh) => Some(servo.lease(fresh)),
        Call::Link(true) => Some(servo.link(Some(DELTAS))),
        Call::Link(false) => Some(servo.link(None)),
        Call::Carrier(up) => Some(servo.carrier(up)),
        Call::Reset => Some(servo.reset()),
    }
}
