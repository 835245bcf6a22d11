//! What happens next in a world of three nodes: what goes on if all goes well, decided from what is seen of
//! the world alone. Stamps and beat bits are taken from the true readings, or lie at an end of what they
//! may be.
use super::dice::Dice;
use super::networks::{BIAS, DOWN, HELD, SLEW};
use super::readings::{At, moved_in, raw_of, sample_of, stamp_of};
use super::seen::{ENDS, NodeSeen, Seen};
use arrayvec::ArrayVec;
use wrp_base::{ServoState, Tau};
use wrp_world::Event;

// 100 ms, in tau: as long as time passes at most.
const REST: i128 = 6_553_600_000_000_000;

/// How the values that nodes are given are off: for each kind and node either always at the same end, or
/// at either end by dice.
#[derive(Clone, Copy)]
pub struct Ends {
    /// Whether each is always at the same end.
    pub steady: bool,
    /// At which one, a bit each.
    pub signs: u64,
}

/// What is kept of a run beside the world.
#[derive(Clone, Copy)]
pub struct Course {
    /// The dice.
    pub dice: Dice,
    /// How the given values are off; `None` if they are true.
    pub ends: Option<Ends>,
    /// Whether clocks and fibres move as fast as they may.
    pub wild: bool,
    /// The rate of the slaves' clocks when their DACs have the value at rest, in 10^-12.
    pub free: i128,
    /// The true one-way delays down of both links.
    pub down: (Tau, Tau),
    /// The node that has ticked, and takes its sample now.
    pub samples: Option<u8>,
    /// The frame that has arrived, and is handed over now.
    pub arrived: Option<u32>,
    /// The greatest number of a frame that has arrived.
    pub departed: u32,
}

// When a node ticks: a fourth of the way from the first moment to the last, or two, or three.
fn tick_at(seen: &Seen, n: u8) -> Option<Tau> {
    let (first, last) = seen.node(n).due?;
    let fourth = last.wrapping_sub(first) / 4;
    Some(first.wrapping_add(fourth.wrapping_mul(i128::from(n) + 1)))
}

// Whether the link above a node has its carrier.
fn has_carrier(seen: &Seen, n: u8) -> bool {
    match n {
        1 => seen.joined.0 && seen.gm.is_up() && seen.sw1.is_up(),
        2 => seen.joined.1 && seen.sw1.is_up() && seen.leaf.is_up(),
        _ => false,
    }
}

// The sooner of two moments, of which one may never come.
fn sooner(a: Tau, b: Option<Tau>) -> Tau {
    match b {
        Some(b) if b < a => b,
        _ => a,
    }
}

// A rate that is no greater than it may be.
fn within(rate: i128, most: i128) -> i128 {
    rate.max(most.wrapping_neg()).min(most)
}

impl Course {
    /// A course before any event, in which all given values are true.
    pub fn new(seed: u64) -> Course {
        Course {
            dice: Dice(seed),
            ends: None,
            wild: false,
            free: 0,
            down: (DOWN, DOWN),
            samples: None,
            arrived: None,
            departed: 0,
        }
    }

    /// Whether a bit of the signs is set; no if all given values are true.
    pub fn is_set(&self, number: u32) -> bool {
        match self.ends {
            Some(ends) => ends.signs.wrapping_shr(number) % 2 == 1,
            None => false,
        }
    }

    // The end at which something of this number lies now.
    fn end_of(&mut self, number: u32) -> At {
        let is_most = match self.ends {
            None => return At::True,
            Some(Ends { steady: true, .. }) => self.is_set(number),
            Some(_) => self.dice.below(2) == 1,
        };
        if is_most { At::Most } else { At::Least }
    }

    // At the first end where a frame waits, the oldest one departs.
    fn departure(&mut self, seen: &Seen) -> Option<Event> {
        for (end, at) in ENDS.iter().zip(&seen.ends) {
            if at.waits {
                let (node, port) = *end;
                let lies = self.end_of(u32::from(node));
                let stamp = stamp_of(seen.reading(node), lies);
                return Some(Event::Depart { node, port, stamp });
            }
        }
        None
    }

    // The frame that has arrived is handed over.
    fn delivery(&mut self) -> Option<Event> {
        let frame = self.arrived.take()?;
        Some(Event::Deliver { frame })
    }

    // A frame that is due arrives.
    fn arrival(&mut self, seen: &Seen) -> Option<Event> {
        let arrival = seen.arrival?;
        if arrival.due != seen.now {
            return None;
        }
        let frame = arrival.frame;
        self.arrived = Some(frame);
        self.departed = self.departed.max(frame);
        let lies = self.end_of(u32::from(arrival.to) + 3);
        Some(Event::Arrive {
            frame,
            raw: raw_of(seen.reading(arrival.to), lies),
        })
    }

    // A node ticks whose time it is.
    fn tick(&mut self, seen: &Seen) -> Option<Event> {
        for node in [0, 1, 2] {
            if tick_at(seen, node) == Some(seen.now) {
                self.samples = Some(node);
                return Some(Event::Tick { node });
            }
        }
        None
    }

    // The sample that is due, if there is one.
    fn sample(&mut self, seen: &Seen) -> Option<Event> {
        let node = self.samples.take()?;
        if !has_carrier(seen, node) {
            return None;
        }
        let (parent, down) = if node == 2 {
            (1, self.down.1)
        } else {
            (0, self.down.0)
        };
        let apart = seen.reading(node).wrapping_sub(seen.reading(parent));
        let lies = self.end_of(u32::from(node) + 6);
        let (base, bits) = sample_of(apart.wrapping_add(down), lies);
        Some(Event::Sample { node, base, bits })
    }

    // The rate of a clock that is as fast as it may be: one that is locked seven times in eight to the side
    // of its DAC.
    fn wild_rate(&mut self, node: &NodeSeen, n: u8, tuned: i128) -> i128 {
        if node.locked {
            let strays = self.dice.below(8) == 0;
            return if (tuned > 0) != strays { -SLEW } else { SLEW };
        }
        match self.end_of(u32::from(n) + 9) {
            At::Least if node.servo == ServoState::Holdover => -HELD,
            At::Most if node.servo == ServoState::Holdover => HELD,
            _ => 0,
        }
    }

    // The rate of a node's clock.
    fn rate(&mut self, node: &NodeSeen, n: u8) -> i128 {
        let tuned = i128::from(node.dac) - BIAS;
        if self.wild {
            return self.wild_rate(node, n, tuned);
        }
        let rate = self.free.wrapping_sub(10 * tuned);
        if !node.is_up() {
            0
        } else if node.locked {
            within(rate, SLEW)
        } else if node.servo == ServoState::Holdover {
            within(rate, HELD)
        } else {
            rate
        }
    }

    // How far the delays of a link move: as fast as they may, down to one side and up to the other.
    fn sways(&self, number: u32, dt: i64) -> (i64, i64) {
        if !self.wild {
            return (0, 0);
        }
        let rate = if self.is_set(number) { -2 } else { 2 };
        (moved_in(dt, rate), moved_in(dt, -rate))
    }

    // So much time passes, and clocks and fibres move.
    fn passes(&mut self, seen: &Seen, dt: i64) -> Event {
        let mut drifts = ArrayVec::new();
        drifts.push(0);
        drifts.push(moved_in(dt, self.rate(&seen.sw1, 1)));
        drifts.push(moved_in(dt, self.rate(&seen.leaf, 2)));
        let (first, second) = (self.sways(16, dt), self.sways(17, dt));
        self.down.0 = self.down.0.wrapping_add(Tau::from(first.0));
        self.down.1 = self.down.1.wrapping_add(Tau::from(second.0));
        let mut fibres = ArrayVec::new();
        fibres.push(first);
        fibres.push(second);
        Event::Pass { dt, drifts, fibres }
    }

    // Time passes to the next moment at which something is due, or for a while.
    fn pass(&mut self, seen: &Seen) -> Event {
        let mut until = seen.now.wrapping_add(REST);
        for node in [0, 1, 2] {
            until = sooner(until, tick_at(seen, node));
        }
        if let Some(arrival) = seen.arrival {
            until = until.min(arrival.due);
        }
        let dt = i64::try_from(until.wrapping_sub(seen.now)).unwrap_or(0);
        self.passes(seen, dt)
    }

    /// The next event if all goes well: a sample that is due, a departure, a frame that is handed over, an
    /// arrival, a tick, and else time passes.
    pub fn next(&mut self, seen: &Seen) -> Event {
        if let Some(event) = self.sample(seen) {
            return event;
        }
        if let Some(event) = self.departure(seen) {
            return event;
        }
        if let Some(event) = self.delivery() {
            return event;
        }
        if let Some(event) = self.arrival(seen) {
            return event;
        }
        match self.tick(seen) {
            Some(event) => event,
            None => self.pass(seen),
        }
    }
}
