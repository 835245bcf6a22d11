//! What a servo is set to, and what it answers.
use wrp_base::{ChainNews, Clock, Tau};

/// The settings of a servo (this project's profile; the ranges are the same as in a network file).
#[derive(Clone, Copy, Debug, PartialEq, Eq)]
pub struct ServoSet {
    /// How long HOLDOVER lasts, in ticks: 2 to `10^6`.
    pub holdover: u32,
    /// How old the four may be in TRACK, in ticks: 1 to `10^6`.
    pub age: u32,
    /// How many good samples in a row are to be calm before TRACK: 1 to `10^6`.
    pub stable: u32,
    /// How many ticks a chain lives without a good sample: 1 to 100.
    pub gap: u32,
    /// The count at which the lock detector locks: 1 to `10^6`.
    pub lock_samples: u32,
    /// The count at which the lock detector unlocks: 0 to `10^6`, below `lock_samples`.
    pub delock_samples: u32,
    /// The greatest error that the lock detector counts, in 1,000 tau: 1 to `2^20`.
    pub threshold: u32,
    /// The greatest residual in TRACK, in tau: 1 to `10^9`.
    pub track_tau: Tau,
    /// The greatest error of the loop in TRACK, in tau: 1 to `10^9`.
    pub loop_tau: Tau,
    /// How far the setpoint moves at a good sample, in tau: 1 to `10^9`.
    pub phase_step: Tau,
    /// The proportional gain, in `1/4096`.
    pub kp: u16,
    /// The integral gain, in `1/4096`.
    pub ki: u16,
    /// The DAC value at rest.
    pub bias: u16,
    /// The clock of the network.
    pub clock: Clock,
}

/// What one call answers.
#[derive(Clone, Copy, Debug, PartialEq, Eq)]
pub struct ServoOut {
    /// The periods by which the clock is to be stepped, held within `2^62` either way; 0 for no step.
    pub cycles: i64,
    /// The new DAC value, if the loop took a sample.
    pub dac: Option<u16>,
    /// The unwrapped phase, in tau, if the call brought a good sample.
    pub unwrapped: Option<i64>,
    /// What became of the chain of good samples.
    pub chain: ChainNews,
    /// The reason for which a measurement (14: out of the law's range) or a sample (15: glitched, or
    /// not newer than an earlier one) is refused.
    pub refused: Option<u8>,
}
