//! The definition of the matched four as a plain slow program: it keeps nothing, and asks the whole
//! list of calls at each question. The oldest call comes first.
use wrp_base::Four;

// One call of an exchange. Times and phases are in tau.
#[derive(Clone, Copy)]
pub enum Call {
    // `start`: the chain's first sample.
    Start(u32),
    // `clear`.
    Clear,
    // `sample`: number, phase.
    Sample(u32, i64),
    // `sync`: sequenceId, correction, t2, its sample, tick.
    Sync(u16, i64, i64, u32, u32),
    // `follow_up`: sequenceId, precise.
    FollowUp(u16, i64),
    // `req_out`: sequenceId.
    ReqOut(u16),
    // `req_sent`: sequenceId, t3, its sample, tick.
    ReqSent(u16, i64, u32, u32),
    // `resp`: sequenceId, t4.
    Resp(u16, i64),
}

// The part of a four that a Sync and its Follow_Up give.
#[derive(Clone, Copy)]
struct Down {
    t1: i128,
    t2: i64,
    u2: i64,
    tick: u32,
}

// The part of a four that a Delay_Req's sending and its Delay_Resp give.
#[derive(Clone, Copy)]
struct Up {
    t3: i64,
    t4: i64,
    u3: i64,
    tick: u32,
}

// Where the chain after these calls began, and its first sample.
fn chain(calls: &[Call]) -> Option<(usize, u32)> {
    let mut found = None;
    for (at, call) in calls.iter().enumerate() {
        match call {
            Call::Start(first) => found = Some((at, *first)),
            Call::Clear => found = None,
            _ => {}
        }
    }
    found
}

// The phase at this sample, if it is among the last `ring` good samples.
fn known_phase(ring: usize, calls: &[Call], sample: u32) -> Option<i64> {
    let mut left = ring;
    for call in calls.iter().rev() {
        match call {
            Call::Clear => return None,
            Call::Sample(number, phase) => {
                if left == 0 {
                    return None;
                }
                if *number == sample {
                    return Some(*phase);
                }
                left -= 1;
            }
            _ => {}
        }
    }
    None
}

// The phase at this sample, if there is a chain that it is not before, and it is known.
fn usable_phase(ring: usize, calls: &[Call], sample: u32) -> Option<i64> {
    let (_, first) = chain(calls)?;
    if sample < first {
        return None;
    }
    known_phase(ring, calls, sample)
}

// What a Follow_Up after these calls makes.
fn followed(ring: usize, calls: &[Call], seq: u16, precise: i64) -> Option<Down> {
    let (start, _) = chain(calls)?;
    let mut last = None;
    let mut is_followed = false;
    for at in start..calls.len() {
        match calls[at] {
            Call::Sync(id, correction, t2, sample, tick) => {
                if let Some(u2) = usable_phase(ring, &calls[..at], sample) {
                    last = Some((id, correction, t2, sample, u2, tick));
                    is_followed = false;
                }
            }
            Call::FollowUp(id, _) if id == seq => is_followed = true,
            _ => {}
        }
    }
    let (id, correction, t2, sample, u2, tick) = last?;
    if id != seq || is_followed {
        return None;
    }
    let _phase = known_phase(ring, calls, sample)?;
    let t1 = i128::from(precise) + 1000 * i128::from(correction);
    Some(Down { t1, t2, u2, tick })
}

// The sending reported after these calls, if it belongs to the last request: t3, phase, tick.
fn told(ring: usize, calls: &[Call], seq: u16, sample: u32) -> Option<i64> {
    let (start, _) = chain(calls)?;
    let mut last = None;
    for at in start..calls.len() {
        if let Call::ReqOut(id) = calls[at] {
            last = Some(id);
        }
    }
    if last? != seq {
        return None;
    }
    usable_phase(ring, calls, sample)
}

// The first kept sending of the last request, with the calls that came after it: t3, phase, tick.
fn first_sending(ring: usize, calls: &[Call]) -> Option<(usize, i64, i64, u32)> {
    let (start, _) = chain(calls)?;
    let mut first = None;
    for at in start..calls.len() {
        match calls[at] {
            Call::ReqOut(_) => first = None,
            Call::ReqSent(id, t3, sample, tick) => {
                if let (None, Some(u3)) = (first, told(ring, &calls[..at], id, sample)) {
                    first = Some((at, t3, u3, tick));
                }
            }
            _ => {}
        }
    }
    first
}

// What a Delay_Resp after these calls makes.
fn answered(ring: usize, calls: &[Call], seq: u16, t4: i64) -> Option<Up> {
    let (sent, t3, u3, tick) = first_sending(ring, calls)?;
    for at in sent..calls.len() {
        if let Call::Resp(id, _) = calls[at] {
            if id == seq {
                return None;
            }
        }
    }
    let mut last = None;
    for call in calls {
        if let Call::ReqOut(id) = call {
            last = Some(*id);
        }
    }
    if last? != seq {
        return None;
    }
    Some(Up { t3, t4, u3, tick })
}

// Whether the piece that this call brings after these calls is kept.
pub fn keeps(ring: usize, calls: &[Call], call: Call) -> bool {
    match call {
        Call::Sync(_, _, _, sample, _) => usable_phase(ring, calls, sample).is_some(),
        Call::FollowUp(seq, precise) => followed(ring, calls, seq, precise).is_some(),
        Call::ReqSent(seq, _, sample, _) => {
            first_sending(ring, calls).is_none() && told(ring, calls, seq, sample).is_some()
        }
        Call::Resp(seq, t4) => answered(ring, calls, seq, t4).is_some(),
        _ => false,
    }
}

// The newest matched four after these calls.
pub fn four(ring: usize, calls: &[Call]) -> Option<Four> {
    let (start, _) = chain(calls)?;
    let mut down = None;
    let mut up = None;
    for at in start..calls.len() {
        let before = &calls[..at];
        match calls[at] {
            Call::FollowUp(seq, precise) => down = followed(ring, before, seq, precise).or(down),
            Call::Resp(seq, t4) => up = answered(ring, before, seq, t4).or(up),
            _ => {}
        }
    }
    let down = down?;
    let up = up?;
    Some(Four {
        t1: down.t1,
        t2: i128::from(down.t2),
        t3: i128::from(up.t3),
        t4: i128::from(up.t4),
        u2: down.u2,
        u3: up.u3,
        tick: down.tick.min(up.tick),
    })
}
