//! The states of a link and of a servo, the delays of ports and fibres, and the marks of a history.
use crate::{Tau, WrMsg};

/// Which end of a link a port is.
#[derive(Clone, Copy, Debug, Default, PartialEq, Eq)]
pub enum Role {
    /// The upper end, which gives the time.
    #[default]
    Master,
    /// The lower end, which follows.
    Slave,
}

/// A state of White Rabbit link setup (names of the White Rabbit Specification 2.0; the order of the
/// states is this project's profile).
#[derive(Clone, Copy, Debug, Default, PartialEq, Eq)]
pub enum LinkState {
    /// IDLE: plain PTP.
    #[default]
    Idle,
    /// PRESENT, of a slave.
    Present,
    /// S_LOCK, of a slave.
    SLock,
    /// M_LOCK, of a master.
    MLock,
    /// LOCKED, of a slave.
    Locked,
    /// CALIBRATION.
    Calibration,
    /// CALIBRATED.
    Calibrated,
    /// RESP_CALIB_REQ.
    RespCalib,
    /// WR_LINK_ON.
    LinkOn,
}

/// What a port reports of its link.
#[derive(Clone, Copy, Debug, Default, PartialEq, Eq)]
pub enum LinkWord {
    /// No carrier.
    #[default]
    Down,
    /// The quiet time after a carrier came, or after a handshake failed: nothing is sent, and each
    /// frame is dropped.
    Quiet,
    /// Plain PTP.
    Ptp,
    /// A state of link setup other than IDLE.
    In(LinkState),
}

/// A state of the servo (this project's profile).
#[derive(Clone, Copy, Debug, Default, PartialEq, Eq)]
pub enum ServoState {
    /// No White Rabbit link.
    #[default]
    Uninit,
    /// Whole seconds are stepped.
    SyncTai,
    /// Whole periods are stepped.
    SyncNsec,
    /// The setpoint moves to its goal.
    SyncPhase,
    /// The loop settles.
    WaitStable,
    /// The clock follows its parent within the printed bound.
    Track,
    /// TRACK was left: the loop is frozen, and no step is given.
    Holdover,
}

/// What the calibration database has of a port module.
#[derive(Clone, Copy, Debug, Default, PartialEq, Eq)]
pub struct Module {
    /// The transmission delay, in tau: 0 to `10^12`.
    pub tx: u64,
    /// The reception delay, in tau: 0 to `10^12`.
    pub rx: u64,
    /// The tag at which a new period begins, in detector steps: 0 to 16383.
    pub transition: u16,
    /// How far each true delay may be from its entry, in tau: 0 to `10^9`.
    pub err: u64,
}

/// What the link database has of a fibre.
#[derive(Clone, Copy, Debug, Default, PartialEq, Eq)]
pub struct Fibre {
    /// The asymmetry: the way down takes `(2^39 + kappa) / 2^40` of both ways. From `-2^38` to `2^38`.
    pub kappa: i64,
    /// How far the delay down may be from that part, in tau: 1 to `10^9`.
    pub err: u64,
}

/// The four fixed delays of a link's two ports, each in tau: 0 to `10^12`.
#[derive(Clone, Copy, Debug, Default, PartialEq, Eq)]
pub struct Deltas {
    /// The master's transmission delay.
    pub txm: u64,
    /// The master's reception delay.
    pub rxm: u64,
    /// The slave's transmission delay.
    pub txs: u64,
    /// The slave's reception delay.
    pub rxs: u64,
}

/// One change of a port's link state.
#[derive(Clone, Copy, Debug, Default, PartialEq, Eq)]
pub struct Mark {
    /// The true time of the change, in tau: at least the epoch of the world.
    pub at: Tau,
    /// The state before it.
    pub from: LinkState,
    /// The state after it.
    pub to: LinkState,
    /// The message that moved the port, if one did, with the true time of its sending, in tau.
    pub by: Option<(WrMsg, Tau)>,
}
