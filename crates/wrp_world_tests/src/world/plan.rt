//! The plan of a run: how it begins, how long it goes on, what goes wrong in it, and how near the slaves have
//! to be to the grandmaster.
use super::course::{Course, Ends};
use super::handshake::Handshake;
use super::networks::{DOWN, ERROR, MS, SM};
use super::seen::{NodeSeen, Seen};
use arrayvec::ArrayVec;
use wrp_base::{ServoState, Tau};
use wrp_network::Name;
use wrp_world::{Event, Swap};

/// What a run is for.
#[derive(Clone, Copy, PartialEq, Eq)]
enum Aim {
    // gm and sw1 come to WR_LINK_ON; leaf stays down.
    Handshake,
    // sw1 comes to TRACK and stays there; leaf stays down.
    Track,
    // Links are on, while frames are lost, links are cut and nodes go down.
    Faults,
    // Both slaves come to TRACK and, after a cut, to HOLDOVER, with all given values at an end.
    Bounds,
}

// How far a run has come.
#[derive(Clone, Copy, PartialEq, Eq)]
enum Stage {
    // It has not come yet to what it is for.
    Before,
    // It has, and so many events are still to come.
    In(u32),
    // The upper link was cut, and leaf is not yet in HOLDOVER.
    Behind,
    // It was.
    Held,
}

/// The plan of a run.
#[derive(Clone, Copy)]
pub struct Plan {
    aim: Aim,
    stage: Stage,
    course: Course,
    handshake: Handshake,
    // How many of the first events have come.
    begun: u32,
    // The offsets with which sw1 and leaf come up.
    offs: (Tau, Tau),
    // How the given values are off once sw1 is in TRACK.
    ends: Option<Ends>,
    // Whether the last event was one that goes wrong.
    went_wrong: bool,
    // How far sw1 and leaf may be off in TRACK, and how much further in HOLDOVER; `None` if it is not known.
    near: Option<(Tau, Tau, Tau)>,
}

// An offset of some periods, and not far from whole ones.
fn some_off(course: &mut Course) -> Tau {
    let periods = Tau::from(course.dice.below(2000)) - 1000;
    let rest = Tau::from(course.dice.below(4_000_000)) - 2_000_000;
    periods * 524_288_000 + rest
}

// Whether a node is as near as it may be.
fn is_near(node: &NodeSeen, track: Tau, more: Tau) -> bool {
    let far = node.off.unsigned_abs();
    match node.servo {
        ServoState::Track => far <= track.unsigned_abs(),
        ServoState::Holdover => far <= track.wrapping_add(more).unsigned_abs(),
        _ => true,
    }
}

// A delay that is off.
fn later(delay: Tau, off: i64) -> Tau {
    delay.wrapping_add(Tau::from(off))
}

// A number that is off.
fn put(number: u64, off: i64) -> u64 {
    number.wrapping_add_signed(off)
}

impl Plan {
    // A plan before any event.
    fn new(aim: Aim, course: Course, offs: (Tau, Tau)) -> Plan {
        Plan {
            aim,
            stage: Stage::Before,
            course,
            handshake: Handshake::new(false),
            begun: 0,
            offs,
            ends: None,
            went_wrong: false,
            near: None,
        }
    }

    /// The handshake of gm and sw1, undisturbed or disturbed.
    pub fn handshake(is_disturbed: bool) -> Plan {
        let mut plan = Plan::new(Aim::Handshake, Course::new(0), (196_608_000_000, 0));
        plan.handshake = Handshake::new(is_disturbed);
        plan
    }

    /// sw1 comes to TRACK with a clock of this rate, up with this offset, and is there for 5000 events, in
    /// which the given values lie at these ends.
    pub fn track(free: i128, off: Tau, ends: Option<Ends>) -> Plan {
        let mut plan = Plan::new(Aim::Track, Course::new(0), (off, 0));
        plan.course.free = free;
        plan.ends = ends;
        plan.near = Some((19_629_219, 0, 0));
        plan
    }

    /// Frames are lost and come again from this seed, and once a link is on links are cut and nodes go down
    /// too, for 600 events.
    pub fn faults(seed: u64) -> Plan {
        Plan::new(Aim::Faults, Course::new(seed), (196_608_000_000, 0))
    }

    /// All is at an end from this seed, each kind of error always at the same one, or at either by dice. The
    /// bounds follow from the numbers of the network: a hop is 18,429,857 to sw1 and 21,680,586 to leaf, and
    /// 151,389 more are the HOLDOVER of a node; the HOLDOVER of sw1 counts also for leaf.
    pub fn bounds(seed: u64, steady: bool) -> Plan {
        let mut course = Course::new(seed);
        let signs = course.dice.below(1 << 31);
        course.ends = Some(Ends { steady, signs });
        course.wild = true;
        let (first, second) = (some_off(&mut course), some_off(&mut course));
        let mut plan = Plan::new(Aim::Bounds, course, (first, second));
        let sent = plan.off_by(16).wrapping_add(plan.off_by(20));
        let upper = sent.wrapping_add(plan.off_by(23));
        let lower = plan.off_by(17).wrapping_add(plan.off_by(25));
        plan.course.down = (later(DOWN, upper), later(DOWN, lower));
        plan.near = Some((18_429_857, 40_261_832, 151_389));
        plan
    }

    // How far something is off that lies at an end; not at all if all given values are true.
    fn off_by(&self, number: u32) -> i64 {
        match self.course.ends {
            None => 0,
            Some(_) if self.course.is_set(number) => ERROR,
            Some(_) => -ERROR,
        }
    }

    // A link is joined, with the asymmetry at an end, from where it sways back.
    fn join(&self, link: u8, number: u32) -> Event {
        let off = self.off_by(number);
        Event::Join {
            link,
            ms: later(MS, off),
            sm: later(SM, off.wrapping_neg()),
        }
    }

    // The module at the first port of a node, whose delays are off.
    fn swap(&self, n: u8, number: u32) -> Swap {
        let tx = self.off_by(number);
        let rx = self.off_by(number.wrapping_add(1));
        let mut name = Name::new();
        let (module, own_tx, own_rx) = if n == 0 {
            ("blue", 14_745_600_000, 14_745_600_000)
        } else {
            ("violet", 14_811_136_000, 14_876_672_000)
        };
        let _fits = name.try_push_str(module);
        Swap {
            port: 1,
            name,
            tx: put(own_tx, tx),
            rx: put(own_rx, rx),
        }
    }

    // A node comes up, with the module at its first port.
    fn up(&self, n: u8, off: Tau, number: u32) -> Event {
        let mut swaps = ArrayVec::new();
        swaps.push(self.swap(n, number));
        Event::Up {
            node: n,
            off,
            swaps,
        }
    }

    // Whether leaf comes up.
    fn has_leaf(&self) -> bool {
        matches!(self.aim, Aim::Faults | Aim::Bounds)
    }

    // The first events: links are joined and nodes come up.
    fn begins(&mut self) -> Option<Event> {
        let number = self.begun;
        self.begun = number.saturating_add(1);
        match number {
            0 => Some(self.join(0, 16)),
            1 => Some(self.up(0, 0, 20)),
            2 => Some(self.up(1, self.offs.0, 22)),
            3 if self.has_leaf() => Some(self.join(1, 17)),
            4 if self.has_leaf() => Some(self.up(2, self.offs.1, 24)),
            _ => None,
        }
    }

    // What goes wrong now, if something does: of a thousand events some fifty are lost, and some fifty come
    // again; once a link was on, links are cut and joined too, and nodes go down and come up.
    fn trouble(&mut self) -> Option<Event> {
        let roll = self.course.dice.below(1000);
        if roll < 50 {
            self.course.arrived = None;
            return None;
        }
        if roll < 100 {
            let back = self.course.dice.below(12) as u32;
            let frame = self.course.departed.checked_sub(back)?;
            return Some(Event::Deliver { frame });
        }
        if self.stage == Stage::Before {
            return None;
        }
        self.course.dice.fault(roll)
    }

    /// The next event, and whether it may be refused: one that goes wrong, and a frame that is handed over
    /// where things go wrong.
    pub fn next(&mut self, seen: &Seen) -> (Event, bool) {
        if let Some(event) = self.begins() {
            return (event, false);
        }
        if self.aim == Aim::Handshake {
            return (self.handshake.next(seen, &mut self.course), false);
        }
        if self.aim == Aim::Bounds && self.stage == Stage::In(0) {
            self.stage = Stage::Behind;
            self.course.arrived = None;
            return (Event::Cut { link: 0 }, false);
        }
        if self.aim != Aim::Faults {
            return (self.course.next(seen), false);
        }
        if !self.went_wrong {
            if let Some(event) = self.trouble() {
                self.went_wrong = true;
                return (event, true);
            }
        }
        self.went_wrong = false;
        let event = self.course.next(seen);
        let may_fail = matches!(event, Event::Deliver { .. });
        (event, may_fail)
    }

    // Whether a run has come to what it is for.
    fn is_there(&self, seen: &Seen) -> bool {
        let tracks = seen.sw1.servo == ServoState::Track;
        match self.aim {
            Aim::Handshake => self.handshake.is_over(),
            Aim::Track => tracks,
            Aim::Faults => seen.ends[1].on,
            Aim::Bounds => tracks && seen.leaf.servo == ServoState::Track,
        }
    }

    // How many events more a run has that has come to what it is for.
    fn more(&self) -> u32 {
        match self.aim {
            Aim::Handshake => 0,
            Aim::Track => 5000,
            Aim::Faults | Aim::Bounds => 600,
        }
    }

    /// Sees how far the run has come, and returns whether it is over.
    pub fn is_over(&mut self, seen: &Seen) -> bool {
        if self.aim == Aim::Handshake {
            self.handshake.sees(seen);
            return self.handshake.is_over();
        }
        match self.stage {
            Stage::Before => {
                if self.is_there(seen) {
                    self.stage = Stage::In(self.more());
                    self.course.ends = self.ends.or(self.course.ends);
                }
                false
            }
            Stage::In(left) => {
                self.stage = Stage::In(left.saturating_sub(1));
                left == 0 && self.aim != Aim::Bounds
            }
            Stage::Behind => {
                if seen.leaf.servo == ServoState::Holdover {
                    self.stage = Stage::Held;
                }
                false
            }
            Stage::Held => {
                seen.sw1.servo != ServoState::Holdover && seen.leaf.servo != ServoState::Holdover
            }
        }
    }

    /// Whether both slaves are as near as they may be.
    pub fn are_near(&self, seen: &Seen) -> bool {
        match self.near {
            Some((sw1, leaf, more)) => {
                is_near(&seen.sw1, sw1, more) && is_near(&seen.leaf, leaf, more)
            }
            None => true,
        }
    }

    /// Whether a run that is over ends as it has to: a handshake is done, and a run that is to stay in TRACK is there;
    /// in both, the ends of the upper link are in WR_LINK_ON.
    pub fn ends_well(&self, seen: &Seen) -> bool {
        let are_on = seen.ends[0].on && seen.ends[1].on;
        match self.aim {
            Aim::Handshake => self.handshake.is_done() && are_on,
            Aim::Track => self.is_there(seen) && are_on,
            Aim::Faults | Aim::Bounds => true,
        }
    }
}
