//! The messages between one master and its slave, as far as a later WR_MODE_ON needs them.
ghost use Rattle.std.specs.Prelude.{◌≡◌, []};
ghost use Rattle.wrp_base.specs.declared.message.PortIdentity.{PortIdentity};
ghost use Rattle.wrp_pcap.specs.Chain.{after_master, after_slave, begun_again, trail_of, followed, locked_behind, presented, verdict_behind};

use crate::Verdict8;
use wrp_base::WrMsg;

/// What leads up to the last message of one place of a handshake: the last message of the place below
/// that was sent before it, and so on.
#[derive(Clone, Copy, Debug, PartialEq, Eq)]
pub(crate) enum Behind {
    /// There is no message of this place; the greatest such.
    Missing(u8),
    /// There is one of each place.
    Whole {
        /// The numbers of their packets, the last message first. Zeros follow the number of the
        /// SLAVE_PRESENT.
        numbers: [u32; 7],
        /// The first SLAVE_PRESENT since the LOCK.
        restart: Option<u32>,
    },
}

impl Behind {
    // The next message of the handshake, after these.
    fn followed(self, n: u32) -> Behind
        ensures { result ≡ followed n self }
    {
        match self {
            Behind::Missing(place) => Behind::Missing(place),
            Behind::Whole { numbers, restart } => {
                let [a, b, c, d, e, f, _] = numbers;
                let numbers = [n, a, b, c, d, e, f];
                Behind::Whole { numbers, restart }
            }
        }
    }

    // A LOCK after the last SLAVE_PRESENT.
    fn locked(present: Option<u32>, n: u32) -> Behind
        ensures { result ≡ locked_behind n present }
    {
        match present {
            None => Behind::Missing(1),
            Some(present) => Behind::Whole {
                numbers: [n, present, 0, 0, 0, 0, 0],
                restart: None,
            },
        }
    }

    // A SLAVE_PRESENT after these.
    fn begun_again(self, n: u32) -> Behind
        ensures { result ≡ begun_again n self }
    {
        match self {
            Behind::Whole {
                numbers,
                restart: None,
            } => Behind::Whole {
                numbers,
                restart: Some(n),
            },
            other => other,
        }
    }

    // The verdict on a WR_MODE_ON after these.
    fn verdict(self, n: u32) -> Verdict8
        ensures { result ≡ verdict_behind n self }
    {
        match self {
            Behind::Missing(place) => Verdict8::Missing(place),
            Behind::Whole {
                restart: Some(again),
                ..
            } => Verdict8::Restarted(again),
            Behind::Whole {
                numbers,
                restart: None,
            } => {
                let [p7, p6, p5, p4, p3, p2, p1] = numbers;
                Verdict8::Complete([p1, p2, p3, p4, p5, p6, p7, n])
            }
        }
    }
}

/// The messages between one master and its slave: of each place of a handshake the last one, with what
/// leads up to it.
#[derive(Clone, Copy, Debug, PartialEq, Eq)]
pub(crate) struct Trail {
    /// The last SLAVE_PRESENT of the slave.
    pub present: Option<u32>,
    /// The last LOCK of the master.
    pub lock: Behind,
    /// The last LOCKED of the slave.
    pub locked: Behind,
    /// The last CALIBRATE of the master.
    pub master_calibrate: Behind,
    /// The last CALIBRATED of the master.
    pub master_calibrated: Behind,
    /// The last CALIBRATE of the slave.
    pub slave_calibrate: Behind,
    /// The last CALIBRATED of the slave.
    pub slave_calibrated: Behind,
}

impl Trail {
    /// No message yet.
    pub fn new() -> Trail
        ensures { (master slave : PortIdentity) → result ≡ trail_of master slave [] }
    {
        Trail {
            present: None,
            lock: Behind::Missing(2),
            locked: Behind::Missing(3),
            master_calibrate: Behind::Missing(4),
            master_calibrated: Behind::Missing(5),
            slave_calibrate: Behind::Missing(6),
            slave_calibrated: Behind::Missing(7),
        }
    }

    /// With a message from the master to the slave.
    pub fn after_master(self, message: WrMsg, n: u32) -> Trail
        ensures { result ≡ after_master message n self }
    {
        match message {
            WrMsg::Lock => Trail {
                lock: Behind::locked(self.present, n),
                ..self
            },
            WrMsg::Calibrate { .. } => Trail {
                master_calibrate: self.locked.followed(n),
                ..self
            },
            WrMsg::Calibrated { .. } => Trail {
                master_calibrated: self.master_calibrate.followed(n),
                ..self
            },
            WrMsg::Present | WrMsg::Locked | WrMsg::ModeOn => self,
        }
    }

    /// With a message from the slave to the master.
    pub fn after_slave(self, message: WrMsg, n: u32) -> Trail
        ensures { result ≡ after_slave message n self }
    {
        match message {
            WrMsg::Present => self.presented(n),
            WrMsg::Locked => Trail {
                locked: self.lock.followed(n),
                ..self
            },
            WrMsg::Calibrate { .. } => Trail {
                slave_calibrate: self.master_calibrated.followed(n),
                ..self
            },
            WrMsg::Calibrated { .. } => Trail {
                slave_calibrated: self.slave_calibrate.followed(n),
                ..self
            },
            WrMsg::Lock | WrMsg::ModeOn => self,
        }
    }

    // With a SLAVE_PRESENT of the slave.
    fn presented(self, n: u32) -> Trail
        ensures { result ≡ presented n self }
    {
        Trail {
            present: Some(n),
            lock: self.lock.begun_again(n),
            locked: self.locked.begun_again(n),
            master_calibrate: self.master_calibrate.begun_again(n),
            master_calibrated: self.master_calibrated.begun_again(n),
            slave_calibrate: self.slave_calibrate.begun_again(n),
            slave_calibrated: self.slave_calibrated.begun_again(n),
        }
    }

    /// The verdict on a WR_MODE_ON from the master to the slave.
    pub fn verdict(self, n: u32) -> Verdict8
        ensures { result ≡ verdict_behind n self.slave_calibrated }
    {
        self.slave_calibrated.verdict(n)
    }
}
