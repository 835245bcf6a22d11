//! What a node is set to, what it is handed, and what it answers.
use arrayvec::ArrayVec;
use wrp_base::{Frame, LinkWord, Module, Raw, ServoState, Stamp, Tau};
use wrp_data::{DefaultDs, PortDs};
use wrp_link::LinkSet;
use wrp_port::Sched;
use wrp_servo::ServoSet;

/// What a node is set to, for as long as it runs.
#[derive(Debug, Drop)]
pub struct NodeSet {
    /// What it knows of itself.
    pub own: DefaultDs,
    /// Its ports, of different numbers, at most one of them a slave.
    pub ports: ArrayVec<PortDs, 18>,
    /// The numbers of link setup; each port has its own `wr`.
    pub link: LinkSet,
    /// The counts of each port's schedule and of the lease.
    pub sched: Sched,
    /// The servo of its slave port.
    pub servo: ServoSet,
    /// How many good samples an exchange knows: 1 to 4096.
    pub ring: usize,
    /// The ticks from one track report to the next, at least 1.
    pub report: u32,
}

/// What happens at a node.
#[derive(Debug, Drop, PartialEq, Eq)]
pub enum Input {
    /// A tick of the node's clock.
    Tick,
    /// A sample of the phase detector.
    Sample {
        /// Its number.
        n: u32,
        /// The tag at which its bits begin: below 16384.
        base: u16,
        /// 64 beat bits, the most significant first.
        bits: u64,
    },
    /// A frame that came.
    Frame {
        /// The port that it came to.
        port: u16,
        /// Its octets, from the PTP header on.
        bytes: Frame,
        /// The raw stamp of its reception.
        raw: Raw,
        /// The number of the last sample at its reception.
        sample: u32,
    },
    /// One of the node's frames was sent.
    Sent {
        /// The port that sent it.
        port: u16,
        /// sequenceId.
        seq: u16,
        /// Whether it is a Delay_Req; else it is a Sync.
        delay: bool,
        /// The stamp of its sending.
        stamp: Stamp,
    },
    /// The carrier of a port comes or goes.
    Carrier {
        /// The port.
        port: u16,
        /// Whether it comes.
        up: bool,
        /// The port's module, if the calibration database lists it.
        module: Option<Module>,
    },
    /// The node restarts.
    Reset,
}

/// What a node reports of itself.
#[derive(Clone, Copy, Debug, PartialEq, Eq)]
pub enum Report {
    /// The word of a port, if it differs from the one before.
    Link {
        /// The port.
        port: u16,
        /// Its word.
        word: LinkWord,
    },
    /// The state of the servo, if it differs from the one before.
    Servo(ServoState),
    /// The node is in TRACK.
    Track {
        /// The estimated offset from the parent, in tau.
        est: Tau,
    },
}

/// What a node gives.
#[derive(Debug, Drop, PartialEq, Eq)]
pub enum Output {
    /// A frame to send.
    Send {
        /// The port that sends it.
        port: u16,
        /// Its octets, from the PTP header on.
        frame: Frame,
    },
    /// A step of the clock.
    Step {
        /// By so many periods, of either sign.
        cycles: i64,
    },
    /// The value of the DAC that tunes the clock.
    Dac {
        /// The value.
        value: u16,
    },
    /// A report.
    Report(Report),
}

impl Default for Output {
    // A value that fills an unused place; no clause speaks of it.
    fn default() -> Output {
        Output::Dac { value: 0 }
    }
}

/// What a node gives for one input, in order.
pub type Outputs = ArrayVec<Output, 96>;
