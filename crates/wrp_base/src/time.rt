//! Time: tau, timestamps on the wire, stamps of a port, and the clock that a network runs on.
ghost use Rattle.std.specs.Prelude.{◌≡◌, ℕ, ◌*◌, pos};
ghost use Rattle.wrp_base.specs.Clock.{period_of, step_of, periods_per_second};

/// A time or a length of time, in tau. 1 tau is `2^-16` ps, so one nanosecond is 65,536,000 tau
/// and one unit of correctionField is 1,000 tau (this project's profile).
pub type Tau = i128;

/// A Timestamp as IEEE 1588-2019 sends it.
#[derive(Clone, Copy, Debug, Default, PartialEq, Eq)]
pub struct Ts {
    /// secondsField, in s: below `2^48`.
    pub seconds: u64,
    /// nanosecondsField, in ns: below `10^9`.
    pub nanos: u32,
}

/// What a port notes of a frame that it sent or received.
#[derive(Clone, Copy, Debug, Default, PartialEq, Eq)]
pub struct Stamp {
    /// The reading of the local clock, in tau: 0 to `2^93`.
    pub value: Tau,
    /// The number of the node's last phase sample before the frame, and 0 before any.
    pub sample: u32,
}

/// A receive stamp as two counters and a phase tag give it (this project's profile).
#[derive(Clone, Copy, Debug, Default, PartialEq, Eq)]
pub struct Raw {
    /// The whole periods of the rising-edge counter: 1 to `2^63 - 1`.
    pub rising: u64,
    /// The whole periods of the falling-edge counter: 1 to `2^63 - 1`.
    pub falling: u64,
    /// The place in the period, in detector steps: 0 to 16383.
    pub tag: u16,
}

/// The steps of the phase detector in one period (this project's profile).
pub const STEPS_OF_PERIOD: u16 = 16_384;

/// The clock of a network (this project's profile).
#[derive(Clone, Copy, Debug, Default, PartialEq, Eq)]
pub enum Clock {
    /// 125 MHz: a period of 8,000 ps.
    #[default]
    Mhz125,
    /// 62.5 MHz: a period of 16,000 ps.
    Mhz62,
}

impl Clock {
    /// One period, in tau: 524,288,000 or 1,048,576,000.
    pub fn period(self) -> Tau
        ensures { result ≡ pos (period_of self) }
    {
        match self {
            Clock::Mhz125 => 524_288_000,
            Clock::Mhz62 => 1_048_576_000,
        }
    }

    /// One step of the phase detector, in tau: the period divided by 16384.
    pub fn step(self) -> Tau
        ensures value { result ≡ pos (step_of self) }
        ensures whole { period_of self ≡ 16384 * step_of self }
    {
        match self {
            Clock::Mhz125 => 32_000,
            Clock::Mhz62 => 64_000,
        }
    }

    /// The whole periods in one second: 125,000,000 or 62,500,000.
    pub fn per_second(self) -> i64
        ensures value { result ≡ pos (periods_per_second self) }
        ensures second { periods_per_second self * period_of self ≡ 65_536_000_000_000_000 }
    {
        match self {
            Clock::Mhz125 => 125_000_000,
            Clock::Mhz62 => 62_500_000,
        }
    }
}
