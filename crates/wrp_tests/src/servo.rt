//! Lists of calls that numbers draw: whether the state is TRACK, beside a plain program that looks back over all calls.
//! And a servo whose law has a short range.
ghost use Rattle.std.specs.Prelude.{◌≡◌, ◌≤◌, ◌+◌, ◌<◌, ◌^◌, unsigned_abs};
ghost use Rattle.wrp_law.specs.Law.{KeepsFact};
ghost use Rattle.wrp_servo.specs.Sizes.{FitsTimes};

mod plain;

use plain::{Call, drawn, tracking};
use std::process::Abort;
use wrp_base::{ChainNews, Clock, Deltas, Four};
use wrp_law::{DelayLaw, LawKind, floor_of};
use wrp_servo::{Servo, ServoOut, ServoSet, counts_one_tick};

// Small numbers: the detector locks at 2 and counts errors of up to 10,000 tau.
const SMALL: ServoSet = ServoSet {
    holdover: 3,
    age: 4,
    stable: 2,
    gap: 2,
    lock_samples: 2,
    delock_samples: 0,
    threshold: 10,
    track_tau: 40_000,
    loop_tau: 40_000,
    phase_step: 100_000,
    kp: 0,
    ki: 0,
    bias: 32768,
    clock: Clock::Mhz125,
};

// The numbers of a network file without keys.
const USUAL: ServoSet = ServoSet {
    holdover: 320,
    age: 300,
    stable: 50,
    gap: 2,
    lock_samples: 100,
    delock_samples: 50,
    threshold: 6400,
    track_tau: 3_276_800,
    loop_tau: 3_276_800,
    phase_step: 100_000,
    kp: 125,
    ki: 5,
    bias: 32768,
    clock: Clock::Mhz125,
};

const DELTAS: Deltas = Deltas {
    txm: 0,
    rxm: 0,
    txs: 0,
    rxs: 0,
};

// 32 zeros and 32 ones, and bits with a glitch.
const BITS: u64 = 0x0000_0000_ffff_ffff;

const GLITCHED: u64 = 1;

// A four without phases, whose ways take so long.
fn four(down: i64, up: i64, tick: u32) -> Four
    ensures { FitsTimes result }
{
    Four {
        t1: 0,
        t2: i128::from(down),
        t3: 0,
        t4: i128::from(up),
        u2: 0,
        u3: 0,
        tick,
    }
}

// One call. Its ticks are counted along.
fn call<F: Fn(i64) -> i64>(servo: &mut Servo<F>, call: Call) -> ServoOut
    requires law { KeepsFact F.pre F.post servo.old.law }
    requires ticks { servo.old.core.ticks < 2 ^ 20 }
    ensures law { servo.new.law ≡ servo.old.law }
    ensures ticks { servo.new.core.ticks ≤ servo.old.core.ticks + 1 }
{
    counts_one_tick();
    match call {
        Call::Sample(n, tag) => servo.sample(n, tag % 16384, BITS),
        Call::Glitch(n) => servo.sample(n, 0, GLITCHED),
        Call::Four { down, up, tick } => servo.measured(&four(down, up, tick)),
        Call::Tick => servo.tick(),
        Call::Lease(fresh) => servo.lease(fresh),
        Call::Link(true) => servo.link(Some(DELTAS)),
        Call::Link(false) => servo.link(None),
        Call::Carrier(up) => servo.carrier(up),
        Call::Reset => servo.reset(),
    }
}

// The servo after a list of calls, beside the plain program at every eighth call. Returns how often the
// state was TRACK there.
fn compares<F: Fn(i64) -> i64>(
    rt: &impl Abort,
    servo: &mut Servo<F>,
    count: &mut u32,
    list: &[Call],
) -> u32
    requires law { KeepsFact F.pre F.post servo.old.law }
    requires ticks { servo.old.core.ticks ≤ count.old }
{
    let mut tracked: u32 = 0;
    for n in 0..list.len() {
        assert!(rt; *count < 1 << 20);
        let _out = call(servo, list[n]);
        *count += 1;
        if n % 8 == 7 {
            let tracks = tracking(&list[..=n]);
            assert!(rt; servo.tracking() == tracks, "call {n}");
            tracked = tracked.saturating_add(u32::from(tracks));
        }
    }
    tracked
}

// A list of calls that a number draws, after a carrier, a link and a lease.
fn drawn_list(seed: u32) -> [Call; 64] {
    let mut list = [Call::Lease(true); 64];
    list[0] = Call::Carrier(true);
    list[1] = Call::Link(true);
    let mut draw = u64::from(seed);
    let mut ticks: u32 = 0;
    for n in 3..64u32 {
        draw = draw
            .wrapping_mul(6_364_136_223_846_793_005)
            .wrapping_add(1_442_695_040_888_963_407);
        let x = drawn(draw >> 33, n, ticks);
        match x {
            Call::Tick => ticks = ticks.wrapping_add(1),
            Call::Reset => ticks = 0,
            _ => {}
        }
        list[n as usize] = x;
    }
    list
}

// A thousand lists.
#[test]
fn tracking_looks_back(rt: HostRuntime) {
    let mut tracked: u32 = 0;
    for seed in 0..1000u32 {
        let law = DelayLaw::new(
            |x: i64|
                requires { unsigned_abs x ≤ 2 ^ 53 }
            { floor_of(0, x) },
            LawKind::Linear { kappa: 0 },
            -(1 << 30),
            1 << 53,
            1,
        );
        let mut servo = Servo::new(SMALL, law);
        let mut count = 0;
        let stood = compares(&rt, &mut servo, &mut count, &drawn_list(seed));
        tracked = tracked.saturating_add(stood);
    }
    assert!(rt; tracked > 100, "{tracked}");
}

// A delay both ways in tau, and whether a law from 0 to 10 tau refuses it.
const SHORT: [(i64, bool); 4] = [(-1, true), (0, false), (10, false), (11, true)];

// A chain of a hundred samples, and then a measurement.
#[test]
fn delays_out_of_range_end_the_chain(rt: HostRuntime) {
    for (delay, is_refused) in SHORT {
        let law = DelayLaw::new(
            |x: i64|
                requires { unsigned_abs x ≤ 2 ^ 53 }
            { floor_of(0, x) },
            LawKind::Linear { kappa: 0 },
            0,
            10,
            1,
        );
        let mut servo = Servo::new(USUAL, law);
        let _lease = servo.lease(true);
        let _up = servo.carrier(true);
        let _on = servo.link(Some(DELTAS));
        let mut chain = ChainNews::Same;
        for n in 1..=100 {
            chain = servo.sample(n, 0, BITS).chain;
        }
        assert_eq!(rt; chain, ChainNews::Started(100), "{delay}");
        let out = servo.measured(&four(delay, 0, 0));
        let due = if is_refused {
            (Some(14), ChainNews::Ended)
        } else {
            (None, ChainNews::Same)
        };
        assert!(rt; (out.refused, out.chain) == due, "{delay}");
    }
}
