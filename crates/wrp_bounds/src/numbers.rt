//! What the bound of one hop is made of, and its parts.
ghost use Rattle.std.specs.Prelude.{◌≡◌, ◌^◌, ◌≤◌, unsigned_abs};
ghost use Rattle.wrp_bounds.specs.Hop as spec;
ghost use Rattle.wrp_bounds.specs.Hop.{IsInRange};

use crate::motion::{motion, rounded_up};
use wrp_base::Clock;

/// The greatest rate of a fibre's one-way delay, in `10^-12`.
const FIBRE_RATE: u128 = 2;

/// What one end of a hop brings to its bound.
#[derive(Clone, Copy, Debug)]
pub struct NodeNumbers {
    /// The bound on a send stamp's error, in tau.
    pub e_tx: u64,
    /// The bound on a tag's error, in tau.
    pub e_tag: u64,
    /// The greatest rate of the node's clock, in `10^-12`: 0 for the grandmaster's.
    pub rate: u64,
}

/// What the bound of one hop is made of.
#[derive(Clone, Copy, Debug)]
pub struct HopNumbers {
    /// The clock that the network runs on.
    pub clock: Clock,
    /// The limit on the residual in TRACK, in tau.
    pub track_tau: u64,
    /// The limit on the loop's error, in tau.
    pub loop_tau: u64,
    /// The node.
    pub own: NodeNumbers,
    /// The node above it.
    pub parent: NodeNumbers,
    /// How far from the edge the node's beat bits may flicker, in detector steps.
    pub beat: u16,
    /// The asymmetry of the link's fibre.
    pub kappa: i64,
    /// The greatest error of a port delay of the link, in tau.
    pub e_db: u64,
    /// The error of the fibre's asymmetry, in tau.
    pub e_asym: u64,
    /// The error of the link's delay law, in tau.
    pub law_err: u64,
    /// The longest time from one good sample to the next, in tau.
    pub gap_time: u128,
    /// The longest time from a measurement's stamps to its use, in tau.
    pub age_time: u128,
    /// The greatest one-way delay, in tau.
    pub reach: u128,
}

impl HopNumbers {
    /// The error of the phase detector, in tau.
    pub fn detector_error(&self) -> u128
        requires { IsInRange self.now }
        ensures value { result ≡ spec.detector_error self.now }
        ensures size { result ≤ 2 ^ 30 }
    {
        (u128::from(self.beat) + 1) * self.clock.step().unsigned_abs()
    }

    /// How far offset and fibre move between two good samples, in tau.
    pub fn gap_motion(&self) -> u128
        requires { IsInRange self.now }
        ensures value { result ≡ spec.gap_motion self.now }
        ensures size { result ≤ 2 ^ 72 }
    {
        let rate = u128::from(self.own.rate) + u128::from(self.parent.rate) + FIBRE_RATE;
        motion(rate, self.gap_time)
    }

    /// How far the parent and the fibre move while a frame is on the fibre, in tau.
    pub fn reach_motion(&self) -> u128
        requires { IsInRange self.now }
        ensures value { result ≡ spec.reach_motion self.now }
        ensures size { result ≤ 2 ^ 72 }
    {
        motion(u128::from(self.parent.rate) + FIBRE_RATE, self.reach)
    }

    /// The error of what is measured on the way down, in tau.
    pub fn down_error(&self) -> u128
        requires { IsInRange self.now }
        ensures value { result ≡ spec.down_error self.now }
        ensures size { result ≤ 2 ^ 74 }
    {
        u128::from(self.parent.e_tx)
            + u128::from(self.own.e_tag)
            + self.reach_motion()
            + self.detector_error()
            + self.gap_motion()
    }

    /// The error of what is measured on the way up, in tau.
    pub fn up_error(&self) -> u128
        requires { IsInRange self.now }
        ensures value { result ≡ spec.up_error self.now }
        ensures size { result ≤ 2 ^ 74 }
    {
        u128::from(self.own.e_tx)
            + u128::from(self.parent.e_tag)
            + self.reach_motion()
            + self.detector_error()
            + self.gap_motion()
    }

    /// How far both ways of the fibre move until a measurement is used last, in tau.
    pub fn age_motion(&self) -> u128
        requires { IsInRange self.now }
        ensures value { result ≡ spec.age_motion self.now }
        ensures size { result ≤ 2 ^ 72 }
    {
        motion(2 * FIBRE_RATE, self.age_time)
    }

    // The error of both ways together.
    fn both_ways_error(&self) -> u128
        requires { IsInRange self.now }
        ensures value { result ≡ spec.both_ways_error self.now }
        ensures size { result ≤ 2 ^ 76 }
    {
        self.down_error() + self.up_error() + 4 * u128::from(self.e_db) + self.age_motion()
    }

    /// What of the error of both ways goes into the way down, in tau.
    pub fn scaled_error(&self) -> u128
        requires { IsInRange self.now }
        ensures value { result ≡ spec.scaled_error self.now }
        ensures size { result ≤ 2 ^ 77 }
    {
        rounded_up(share_down(self.kappa) * self.both_ways_error(), 1 << 40)
    }

    // How far the estimated offset from the parent may be from the true one.
    fn estimate_error(&self) -> u128
        requires { IsInRange self.now }
        ensures value { result ≡ spec.estimate_error self.now }
        ensures size { result ≤ 2 ^ 78 }
    {
        let phase = self.detector_error() + self.gap_motion();
        self.down_error()
            + phase
            + self.scaled_error()
            + 2 * u128::from(self.e_db)
            + u128::from(self.e_asym)
            + self.age_motion()
            + u128::from(self.law_err)
    }

    /// The bound of the hop, in tau.
    pub fn hop(&self) -> u128
        requires { IsInRange self.now }
        ensures value { result ≡ spec.hop_bound self.now }
        ensures size { result ≤ 2 ^ 79 }
    {
        u128::from(self.track_tau) + u128::from(self.loop_tau) + self.estimate_error()
    }
}

// The share of the way down in both ways, in `2^-40`.
fn share_down(kappa: i64) -> u128
    requires { unsigned_abs kappa ≤ 2 ^ 38 }
    ensures value { result ≡ spec.share_down kappa }
    ensures size { result ≤ 2 ^ 40 }
{
    u128::from(((1i64 << 39) + kappa).unsigned_abs())
}
