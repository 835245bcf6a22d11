//! The events of a world with a plain servo, and what an event answers.
use crate::settings::PlainReport;

/// What happens in a world with a plain servo. Times and offsets are in tau.
#[derive(Clone, Copy, Debug, PartialEq, Eq)]
pub enum PlainEvent {
    /// Time passes.
    Pass {
        /// How much: 1 to `10^18`.
        dt: i64,
        /// By how much the true offset of the slave's clock moves: at most `2^60`, either way.
        drift: i64,
    },
    /// The servo ticks.
    Tick,
    /// An exchange ends: the servo is given its four stamps.
    Exch {
        /// How long it took: 0 to `2^60`.
        span: i64,
        /// The true delay of the way from master to slave: 0 to `2^60`.
        dms: i64,
        /// The true delay of the way from slave to master: 0 to `2^60`.
        dsm: i64,
        /// The true offset when the slave received: at most `2^94`, either way.
        o2: i128,
        /// The true offset when the slave sent: at most `2^94`, either way.
        o3: i128,
        /// The stamps `t1` to `t4`, each at most `2^61`, either way: the master's sending, the slave's
        /// reception, the slave's sending, the master's reception.
        t: [i64; 4],
    },
}

/// What an event of such a world gives.
#[derive(Clone, Copy, Debug, PartialEq, Eq)]
pub struct PlainSeen {
    /// The servo's report: at a tick if a measurement is kept, and at each exchange.
    pub report: Option<PlainReport>,
    /// By how much the clock is moved after the report, in tau: 0 except at an exchange.
    pub command: i64,
    /// The true offset after the event and before its command, in tau.
    pub off: i128,
}

/// The premise that an event breaks, and both of its sides.
#[derive(Clone, Copy, Debug, PartialEq, Eq)]
pub struct PlainBroken {
    /// Which of the six it is: 1 a late tick, 2 the rate, 3 the span, 4 the least delay, 5 the move,
    /// 6 the stamps.
    pub premise: u8,
    /// What the event has, in tau; of the rate in `10^-12` tau.
    pub shown: i128,
    /// The limit that it breaks, in the same unit.
    pub bound: i128,
}
