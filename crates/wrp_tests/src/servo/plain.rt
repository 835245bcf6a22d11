//! TRACK by its definition, plainly and slowly: a call that enters it and no later call that leaves it,
//! where everything that the causes ask for is computed again from the whole list before the call.
use wrp_base::ServoState;

/// A call. The delay both ways of a four is `down + up`, and the offset that it shows is half of
/// `down - up`, as the fibre's two ways are equal.
#[derive(Clone, Copy)]
pub enum Call {
    Sample(u32, u16),
    Glitch(u32),
    Four { down: i64, up: i64, tick: u32 },
    Tick,
    Lease(bool),
    Link(bool),
    Carrier(bool),
    Reset,
}

// Half a period, in tau, and a step of the detector.
const HALF: i64 = 262_144_000;

const STEP: i64 = 32_000;

// What a servo holds after a list of calls.
#[derive(Clone, Copy)]
struct Standing {
    carrier: bool,
    link: bool,
    lease: bool,
    chain: bool,
    state: ServoState,
    // the greatest number, and the tag, of a sample
    last: u32,
    tag: Option<u16>,
    u: i64,
    s: i64,
    goal: i64,
    count: u32,
    locked: bool,
    calm: u32,
    // the offset without the phase, and the tick, of the four
    four: Option<(i64, u32)>,
    ticks: u32,
    good: u32,
    left: u32,
}

const START: Standing = Standing {
    carrier: false,
    link: false,
    lease: false,
    chain: false,
    state: ServoState::Uninit,
    last: 0,
    tag: None,
    u: 0,
    s: 0,
    goal: 0,
    count: 0,
    locked: false,
    calm: 0,
    four: None,
    ticks: 0,
    good: 0,
    left: 0,
};

// The number and the tag of a sample that is heard and good. A sample has 32 zeros.
fn good_sample(v: &Standing, x: Call) -> Option<u16> {
    match x {
        Call::Sample(n, tag) if v.carrier && v.state != ServoState::Holdover && v.last < n => {
            Some((tag % 16384).wrapping_add(32) % 16384)
        }
        _ => None,
    }
}

// What a good sample does to the loop.
fn followed(v: &Standing, tag: u16) -> Standing {
    let mut w = *v;
    match v.tag {
        None => {
            w.u = 0;
            w.s = 0;
            w.goal = 0;
        }
        Some(before) => {
            let steps = i64::from(tag).wrapping_sub(i64::from(before));
            let round = steps
                .wrapping_add(8192)
                .rem_euclid(16384)
                .wrapping_sub(8192);
            w.u = v.u.wrapping_add(round.wrapping_mul(STEP));
        }
    }
    w.tag = Some(tag);
    let way = w.goal.wrapping_sub(w.s);
    w.s = w.s.wrapping_add(way.min(100_000).max(-100_000));
    let e = error(&w).div_euclid(1000);
    if e.unsigned_abs() <= 10 {
        w.count = w.count.wrapping_add(1).min(2);
        w.locked = w.locked || w.count == 2;
    } else {
        w.count = w.count.saturating_sub(1);
        w.locked = w.locked && w.count > 0;
    }
    w.good = v.ticks;
    w
}

// The error of the loop, the offset by a four, and the residual.
fn error(v: &Standing) -> i64 {
    v.u.wrapping_sub(v.s)
}

fn residual(v: &Standing, four: i64) -> i64 {
    four.wrapping_add(v.u).wrapping_sub(error(v))
}

// The offset of a four without the phase, and its tick, if the delay both ways is in range.
fn measured(x: Call) -> Option<Option<(i64, u32)>> {
    match x {
        Call::Four { down, up, tick } => {
            let both = down.wrapping_add(up);
            if both < -(1 << 30) || both > 1 << 53 {
                return Some(None);
            }
            Some(Some((down.wrapping_sub(both.div_euclid(2)), tick)))
        }
        _ => None,
    }
}

fn is_small(x: i64) -> bool {
    x.unsigned_abs() <= 40_000
}

// A call enters TRACK.
fn enters(v: &Standing, x: Call) -> bool {
    match measured(x) {
        Some(Some((four, tick))) => {
            v.chain
                && v.link
                && v.state == ServoState::WaitStable
                && v.calm >= 2
                && is_small(residual(v, four))
                && is_small(error(v))
                && v.ticks.saturating_sub(tick) <= 4
        }
        _ => false,
    }
}

// A call ends a chain, in whatever state.
fn ends(v: &Standing, x: Call) -> bool {
    match x {
        Call::Sample(_, _) | Call::Glitch(_) => match good_sample(v, x) {
            Some(tag) => !followed(v, tag).locked,
            None => false,
        },
        Call::Four { .. } => measured(x) == Some(None) || steps(v, x),
        Call::Tick => {
            v.state != ServoState::Holdover && v.ticks.wrapping_add(1).saturating_sub(v.good) > 2
        }
        Call::Lease(fresh) => !fresh,
        Call::Link(on) => !on,
        Call::Carrier(up) => !up,
        Call::Reset => true,
    }
}

// A measurement commands a step: half a period is less than a second.
fn steps(v: &Standing, x: Call) -> bool {
    let stepping = v.state == ServoState::SyncTai || v.state == ServoState::SyncNsec;
    match measured(x) {
        Some(Some((four, _))) => stepping && four.wrapping_add(v.u).unsigned_abs() > HALF as u64,
        _ => false,
    }
}

// A call leaves TRACK.
fn leaves(v: &Standing, x: Call) -> bool {
    if ends(v, x) {
        return true;
    }
    match (good_sample(v, x), measured(x), x) {
        (Some(tag), _, _) => {
            let w = followed(v, tag);
            let near = match v.four {
                Some((four, _)) => is_small(residual(&w, four)),
                None => true,
            };
            !is_small(error(&w)) || !near
        }
        (None, Some(Some((four, _))), _) => v.link && !is_small(residual(v, four)),
        (None, None, Call::Tick) => match v.four {
            Some((_, tick)) => v.ticks.wrapping_add(1).saturating_sub(tick) > 4,
            None => false,
        },
        _ => false,
    }
}

// The chain ends, if there is one.
fn ended(v: &Standing) -> Standing {
    let mut w = *v;
    if v.chain {
        w.chain = false;
        w.four = None;
        match v.state {
            ServoState::Track => {
                w.state = ServoState::Holdover;
                w.left = v.ticks;
                w.count = 0;
                w.locked = false;
            }
            ServoState::SyncNsec | ServoState::SyncPhase | ServoState::WaitStable => {
                w.state = ServoState::SyncTai;
            }
            _ => {}
        }
    }
    w
}

// The loop restarts: u, s and the goal are 0 at the next good sample.
fn restarted(v: &Standing) -> Standing {
    let mut w = *v;
    w.tag = None;
    w.count = 0;
    w.locked = false;
    w
}

// The state if the link or the carrier is off.
fn grounded(v: &Standing) -> Standing {
    let mut w = ended(v);
    if w.state != ServoState::Holdover {
        w.state = ServoState::Uninit;
    }
    w
}

fn after_sample(v: &Standing, x: Call, n: u32) -> Standing {
    let mut w = *v;
    if v.carrier && v.state != ServoState::Holdover {
        w.last = v.last.max(n);
    }
    let Some(tag) = good_sample(v, x) else {
        return w;
    };
    w = followed(&w, tag);
    if !w.locked || (v.state == ServoState::Track && leaves(v, x)) {
        w = ended(&w);
    } else if !w.chain && w.link && w.lease {
        w.chain = true;
    }
    if w.state == ServoState::SyncPhase && w.s == w.goal {
        w.state = ServoState::WaitStable;
        w.calm = 0;
    } else if w.state == ServoState::WaitStable {
        w.calm = if is_small(error(&w)) {
            w.calm.wrapping_add(1).min(2)
        } else {
            0
        };
    }
    w
}

// The state after a four that shows this offset.
fn state_after_four(v: &Standing, x: Call, est: i64) -> ServoState {
    let near = est.unsigned_abs() <= HALF as u64;
    match v.state {
        ServoState::SyncTai if est.unsigned_abs() >= 65_536_000_000_000_000 => ServoState::SyncTai,
        ServoState::SyncTai | ServoState::SyncNsec if !near => ServoState::SyncNsec,
        ServoState::SyncTai | ServoState::SyncNsec => ServoState::SyncPhase,
        ServoState::WaitStable if v.calm < 2 => ServoState::WaitStable,
        ServoState::WaitStable if enters(v, x) => ServoState::Track,
        ServoState::WaitStable if near => ServoState::SyncPhase,
        ServoState::WaitStable => ServoState::SyncNsec,
        state => state,
    }
}

fn after_four(v: &Standing, x: Call) -> Standing {
    let mut w = *v;
    if !v.chain || !v.link {
        return w;
    }
    let Some(Some((four, tick))) = measured(x) else {
        return ended(v);
    };
    w.four = Some((four, tick));
    w.state = state_after_four(v, x, four.wrapping_add(v.u));
    if steps(v, x) {
        w.chain = false;
        w.four = None;
    } else if v.state == ServoState::Track && leaves(v, x) {
        w = ended(&w);
    } else if w.state != v.state || v.state == ServoState::Track {
        if w.state == ServoState::SyncPhase || w.state == ServoState::Track {
            w.goal = v.s.wrapping_sub(residual(v, four));
        }
    }
    w
}

fn after_tick(v: &Standing) -> Standing {
    let mut w = *v;
    w.ticks = v.ticks.wrapping_add(1);
    if v.state == ServoState::Holdover {
        if w.ticks.saturating_sub(v.left) >= 3 {
            w = restarted(&w);
            w.state = if v.link {
                ServoState::SyncTai
            } else {
                ServoState::Uninit
            };
        }
    } else if ends(v, Call::Tick) || (v.state == ServoState::Track && leaves(v, Call::Tick)) {
        w = ended(&w);
    }
    w
}

// What a servo holds after one more call.
fn after(v: &Standing, x: Call) -> Standing {
    let mut w = *v;
    match x {
        Call::Sample(n, _) | Call::Glitch(n) => after_sample(v, x, n),
        Call::Four { .. } => after_four(v, x),
        Call::Tick => after_tick(v),
        Call::Lease(fresh) => {
            w.lease = fresh;
            if fresh { w } else { ended(&w) }
        }
        Call::Link(true) => {
            w.link = true;
            if w.state == ServoState::Uninit {
                w.state = ServoState::SyncTai;
            }
            w
        }
        Call::Link(false) => {
            w.link = false;
            grounded(&w)
        }
        Call::Carrier(true) => {
            w.carrier = true;
            if w.state == ServoState::Holdover {
                w
            } else {
                restarted(&w)
            }
        }
        Call::Carrier(false) => {
            w.carrier = false;
            w.count = 0;
            w.locked = false;
            grounded(&w)
        }
        Call::Reset => START,
    }
}

// What a servo holds after a list, from its first call on.
fn standing_after(list: &[Call]) -> Standing {
    let mut v = START;
    for &x in list {
        v = after(&v, x);
    }
    v
}

/// Whether the state is TRACK after a list: looking back from its newest call, one that enters TRACK
/// comes before one that leaves it.
pub fn tracking(list: &[Call]) -> bool {
    for at in (0..list.len()).rev() {
        let v = standing_after(&list[..at]);
        if enters(&v, list[at]) {
            return true;
        }
        if leaves(&v, list[at]) {
            return false;
        }
    }
    false
}

// A four that shows this offset; both ways take no time.
fn near_four(offset: i64, tick: u32) -> Call {
    Call::Four {
        down: offset,
        up: offset.wrapping_neg(),
        tick,
    }
}

/// A call as a number draws it: most are samples of near tags and fours of near offsets.
pub fn drawn(draw: u64, n: u32, ticks: u32) -> Call {
    let part = (draw >> 8) % 8;
    let tag = ((draw >> 16) % 3) as u16 / 2;
    match draw % 16 {
        7..=9 => near_four(
            [0, 30_000, -30_000, 50_000, 0, -300_000_000, 0, 0][part as usize],
            ticks,
        ),
        10 | 11 => Call::Tick,
        12 if part < 2 => Call::Lease(part == 0),
        13 if part < 4 => Call::Lease(true),
        14 if part == 0 => Call::Link(false),
        14 if part < 4 => Call::Link(true),
        15 if part == 0 => Call::Carrier(false),
        15 if part == 1 => Call::Reset,
        15 if part < 4 => Call::Carrier(true),
        15 if part == 4 => Call::Glitch(n),
        15 if part == 5 => Call::Four {
            down: 1 << 53,
            up: 1,
            tick: ticks,
        },
        _ => Call::Sample(n, tag),
    }
}
