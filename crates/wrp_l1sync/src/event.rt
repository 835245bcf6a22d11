//! What happens to a pair of ends, and why an event is refused.
ghost use Rattle.std.specs.Prelude.{◌≡◌};
ghost use Rattle.wrp_l1sync.specs.Pair.{side_of};

use crate::{L1In, L1Msg};
use std::alloc::AllocError;
use thiserror::Error;
use wrp_base::Tau;

/// One event of a pair. An end is 0 for a and 1 for b.
#[derive(Clone, Copy, Debug, PartialEq, Eq)]
pub enum L1Event {
    /// Time passes.
    Pass {
        /// How much, in tau: at least 1.
        dt: i64,
    },
    /// An end ticks.
    Tick {
        /// Which end.
        end: u8,
    },
    /// An end is enabled.
    Enable {
        /// Which end.
        end: u8,
    },
    /// An end is disabled.
    Disable {
        /// Which end.
        end: u8,
    },
    /// An end's own message from now on.
    Own {
        /// Which end.
        end: u8,
        /// The message.
        msg: L1Msg,
    },
    /// A message that was sent is handed over, for the first time or again.
    Deliver {
        /// To which end.
        end: u8,
        /// The number of the message; the first that was sent has number 1.
        k: u32,
    },
}

/// Why an event was refused: nothing changes then.
#[derive(Debug, Drop, Error)]
pub enum L1Refused {
    /// The event breaks a premise; the least one is reported.
    #[error("premise {premise} is broken: {shown} against {bound}")]
    Broken {
        /// 1 TickLate: the time would pass more than `dmax` beyond the last tick or enabling of an
        /// enabled end. 2 NotSent: the number was not given, or is of a message of this very end.
        /// 3 TooOld: the message was sent more than `life` ago.
        premise: u8,
        /// The time since that tick, end a first; the number; or the message's age. Times in tau.
        shown: Tau,
        /// `dmax`; the last number that was given; or `life`.
        bound: Tau,
    },
    /// Memory ran out.
    #[error("out of memory")]
    Memory(AllocError),
}

/// One end of a pair.
#[derive(Clone, Copy, Debug, PartialEq, Eq)]
pub enum Side {
    /// End 0.
    A,
    /// End 1.
    B,
}

impl Side {
    /// The end of a number.
    pub fn of(number: u8) -> Side
        ensures { result ≡ side_of number }
    {
        if number == 0 { Side::A } else { Side::B }
    }
}

/// What a pair is set to for good.
#[derive(Clone, Copy, Debug)]
pub struct Limits {
    /// The ticks after which a message is forgotten.
    pub timeout: u32,
    /// The ticks from one sending to the next.
    pub interval: u32,
    /// The greatest time from one tick of an enabled end to the next, in tau.
    pub dmax: u64,
    /// How long a message may be on its way, in tau.
    pub life: u64,
}

/// A message that was sent.
#[derive(Clone, Copy, Debug)]
pub struct Sent {
    /// The end that sent it.
    pub by: Side,
    /// When, in tau since the start.
    pub at: u128,
    /// The message.
    pub msg: L1Msg,
}

/// What an event hands over, and to which end.
#[derive(Clone, Copy)]
pub struct Handing {
    /// The end.
    pub to: Side,
    /// What it is handed.
    pub input: L1In,
}

/// A premise that an event breaks.
#[derive(Clone, Copy)]
pub struct Breach {
    /// Its number.
    pub premise: u8,
    /// What the event shows.
    pub shown: Tau,
    /// What is allowed.
    pub bound: Tau,
}
