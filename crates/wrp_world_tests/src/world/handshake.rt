//! A handshake of gm and sw1: which words both ports have in turn, and what goes wrong in it.
use super::course::Course;
use super::seen::Seen;
use wrp_base::{LinkState, LinkWord};
use wrp_world::Event;

// The words of the slave's port, from before its carrier on.
const SLAVE: [LinkWord; 10] = [
    LinkWord::Down,
    LinkWord::Quiet,
    LinkWord::Ptp,
    LinkWord::In(LinkState::Present),
    LinkWord::In(LinkState::SLock),
    LinkWord::In(LinkState::Locked),
    LinkWord::In(LinkState::RespCalib),
    LinkWord::In(LinkState::Calibration),
    LinkWord::In(LinkState::Calibrated),
    LinkWord::In(LinkState::LinkOn),
];

// The words of the master's port.
const MASTER: [LinkWord; 8] = [
    LinkWord::Down,
    LinkWord::Quiet,
    LinkWord::Ptp,
    LinkWord::In(LinkState::MLock),
    LinkWord::In(LinkState::Calibration),
    LinkWord::In(LinkState::Calibrated),
    LinkWord::In(LinkState::RespCalib),
    LinkWord::In(LinkState::LinkOn),
];

// The wrMessageID of LOCKED and of CALIBRATE.
const LOCKED: u16 = 0x1002;

const CALIBRATE: u16 = 0x1003;

// How far a port has come through its words: the place of the one that it has, or that it had another word.
#[derive(Clone, Copy, PartialEq, Eq)]
enum Way {
    At(usize),
    Left,
}

impl Way {
    // The port has this word now: the same as before, or the next one.
    fn goes_on(self, words: &[LinkWord], word: LinkWord) -> Way {
        let Way::At(place) = self else {
            return Way::Left;
        };
        let next = place.saturating_add(1);
        if words.get(place) == Some(&word) {
            Way::At(place)
        } else if words.get(next) == Some(&word) {
            Way::At(next)
        } else {
            Way::Left
        }
    }

    // Whether the port has the last of its words.
    fn is_at_end(self, words: &[LinkWord]) -> bool {
        match self {
            Way::At(place) => words.get(place.saturating_add(1)).is_none(),
            Way::Left => false,
        }
    }
}

/// A handshake, as far as it has come.
#[derive(Clone, Copy)]
pub struct Handshake {
    // Whether the slave's first CALIBRATE is to be lost, and its LOCKED to come again.
    is_disturbed: bool,
    slave: Way,
    master: Way,
    // The number of the slave's LOCKED, until it comes again.
    locked: Option<u32>,
    // Whether the slave's first CALIBRATE was lost, and whether its LOCKED came again.
    was_lost: bool,
    came_again: bool,
}

impl Handshake {
    /// A handshake before any event: undisturbed, or one in which the slave's first CALIBRATE is lost, and its LOCKED comes
    /// again while the master is in CALIBRATED.
    pub fn new(is_disturbed: bool) -> Handshake {
        Handshake {
            is_disturbed,
            slave: Way::At(0),
            master: Way::At(0),
            locked: None,
            was_lost: false,
            came_again: false,
        }
    }

    /// Both ports have the words that are seen.
    pub fn sees(&mut self, seen: &Seen) {
        self.master = self.master.goes_on(&MASTER, seen.ends[0].word);
        self.slave = self.slave.goes_on(&SLAVE, seen.ends[1].word);
    }

    /// Whether both ports are on and had all their words in order, and what was to go wrong did.
    pub fn is_done(&self) -> bool {
        let went_wrong = (self.was_lost, self.came_again) == (self.is_disturbed, self.is_disturbed);
        self.master.is_at_end(&MASTER) && self.slave.is_at_end(&SLAVE) && went_wrong
    }

    /// Whether nothing is left to wait for: both ports are on, or one had another word.
    pub fn is_over(&self) -> bool {
        self.is_done() || self.master == Way::Left || self.slave == Way::Left
    }

    // The slave's LOCKED comes again once the master is in CALIBRATED.
    fn comes_again(&mut self, seen: &Seen) -> Option<Event> {
        if !self.is_disturbed || seen.ends[0].word != LinkWord::In(LinkState::Calibrated) {
            return None;
        }
        let frame = self.locked.take()?;
        self.came_again = true;
        Some(Event::Deliver { frame })
    }

    /// The next event.
    pub fn next(&mut self, seen: &Seen, course: &mut Course) -> Event {
        if let Some(event) = self.comes_again(seen) {
            return event;
        }
        let event = course.next(seen);
        if let (Event::Arrive { frame, .. }, Some(arrival)) = (&event, seen.arrival)
            && arrival.to == 0
        {
            if arrival.message == Some(LOCKED) {
                self.locked = Some(*frame);
            }
            if arrival.message == Some(CALIBRATE) && self.is_disturbed && !self.was_lost {
                self.was_lost = true;
                course.arrived = None;
            }
        }
        event
    }
}
