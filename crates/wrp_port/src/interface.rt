//! What a port is set to, what it is handed, and what it answers.
use arrayvec::ArrayVec;
use wrp_base::{ChainNews, Four, LinkWord, Module, PtpMsg, Stamp};

/// The counts of a port's schedule and of its lease, each at least 1 (this project's profile).
#[derive(Clone, Copy, Debug, Default, PartialEq, Eq)]
pub struct Sched {
    /// The ticks from one Announce to the next.
    pub announce: u32,
    /// The ticks from one Sync to the next.
    pub sync: u32,
    /// The ticks from one Delay_Req to the next.
    pub delay: u32,
    /// The turns of the lease for which a renewing Announce counts.
    pub lease: u32,
}

/// What happens at a port.
#[derive(Clone, Copy, Debug, PartialEq, Eq)]
pub enum PortIn {
    /// A message that came.
    Msg {
        /// The message.
        msg: PtpMsg,
        /// The stamp of its reception.
        stamp: Stamp,
        /// The node's tick count as it was handed over.
        tick: u32,
    },
    /// A turn of the lease.
    Lease,
    /// A tick of the node.
    Tick {
        /// Whether the lock detector is locked.
        locked: bool,
        /// Whether the node's time is certain: it is the grandmaster, or in TRACK.
        certain: bool,
    },
    /// One of the port's frames was sent.
    Sent {
        /// Whether it is a Delay_Req; else it is a Sync.
        delay: bool,
        /// sequenceId.
        seq: u16,
        /// The stamp of its sending.
        stamp: Stamp,
        /// The node's tick count when the port is given this.
        tick: u32,
    },
    /// The carrier comes or goes.
    Carrier {
        /// Whether it comes.
        up: bool,
        /// The port's module, if the calibration database lists it.
        module: Option<Module>,
    },
    /// A good phase sample.
    Sample {
        /// Its number.
        n: u32,
        /// The unwrapped phase at it, in tau.
        u: i64,
    },
    /// What became of the servo's chain.
    Chain(ChainNews),
    /// The node restarts.
    Reset,
}

/// What a port answers to one input. It is lent to a port again and again: a new one fills its places.
#[derive(Debug, Drop, PartialEq, Eq)]
pub struct PortOut {
    /// The new word: Some if and only if it differs from the one before.
    pub word: Option<LinkWord>,
    /// The messages to send: the link's messages, Announce, Sync, Delay_Req, Follow_Up, Delay_Resp.
    pub sends: ArrayVec<PtpMsg, 4>,
    /// The number of the reason for which a message was dropped, 9 to 13.
    pub drop: Option<u8>,
    /// The four stamps of a new measurement.
    pub measured: Option<Four>,
}

impl PortOut {
    ghost use Rattle.std.specs.Prelude.{◌≡◌, [], None};

    /// An answer that has nothing.
    pub fn new() -> PortOut
        ensures word { result.word ≡ None }
        ensures sends { result.sends.items ≡ [] }
        ensures drop { result.drop ≡ None }
        ensures measured { result.measured ≡ None }
    {
        PortOut {
            word: None,
            sends: ArrayVec::new(),
            drop: None,
            measured: None,
        }
    }
}
