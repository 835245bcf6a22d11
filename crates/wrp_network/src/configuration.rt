//! The numbers of a whole network, as the table `[network]` of its file has them.
ghost use Rattle.std.specs.Prelude.{◌≡◌, option_map};
ghost use Rattle.wrp_network.specs.Network as spec;

use crate::network::{LinkCfg, Links, Nodes};
use wrp_base::Clock;

/// A network: one number for each key of `[network]`, then the nodes and the links, and what the
/// inequalities read of the listed modules. The ranges are this project's profile. `NetCfg::default()`
/// has zeros and no node: it is an empty place, and not what a network file without keys says.
#[derive(Debug, Default, Drop, PartialEq, Eq)]
pub struct NetCfg {
    /// The true time at which a world starts, in s: 1,000,000 to `2^35`.
    pub epoch: i64,
    /// domainNumber: 0 to 255.
    pub domain: i64,
    /// The least time from one tick of a node to the next, in ns: 1,000 to `10^9`.
    pub dmin_ns: i64,
    /// The greatest time from one tick of a node to the next, in ns: 1,000 to `10^9`.
    pub dmax_ns: i64,
    /// The life of a frame, in ns: 1 to `10^10`.
    pub life_ns: i64,
    /// The greatest one-way delay, in ns: 1 to `10^9`.
    pub reach_ns: i64,
    /// The quiet time, in ticks: 2 to `10^6`.
    pub quiet: i64,
    /// The length of HOLDOVER, in ticks: 2 to `10^6`.
    pub holdover: i64,
    /// The timer of most waiting states, in ticks: 1 to `10^6`.
    pub wait: i64,
    /// The timer of S_LOCK and M_LOCK, in ticks: 1 to `10^6`.
    pub lock_wait: i64,
    /// How long a slave ignores Announce after a failure, in ticks: 1 to `10^6`.
    pub holdoff: i64,
    /// The lease, in ticks: 1 to `10^6`.
    pub lease: i64,
    /// The greatest age of a measurement in TRACK, in ticks: 1 to `10^6`.
    pub age: i64,
    /// The ticks from one track report to the next: 1 to `10^6`.
    pub report: i64,
    /// The good samples within the loop's limit before TRACK: 1 to `10^6`.
    pub stable: i64,
    /// The count at which the lock detector is locked: 1 to `10^6`.
    pub lock_samples: i64,
    /// The resends of a waiting state: 0 to 100.
    pub retries: i64,
    /// The greatest gap between good samples, in ticks: 1 to 100.
    pub gap: i64,
    /// The ticks from one Announce to the next: 1 to 10,000.
    pub announce: i64,
    /// The ticks from one Sync to the next: 1 to 10,000.
    pub sync: i64,
    /// The ticks from one Delay_Req to the next: 1 to 10,000.
    pub delay: i64,
    /// How many good samples the exchange keeps: 1 to 4096.
    pub ring: i64,
    /// The limit on the residual in TRACK, in tau: 1 to `10^9`.
    pub track_tau: i64,
    /// The limit on the loop's error, in tau: 1 to `10^9`.
    pub loop_tau: i64,
    /// How far the setpoint moves at a sample, in tau: 1 to `10^9`.
    pub phase_step: i64,
    /// The loop's proportional gain: 0 to 65535.
    pub kp: i64,
    /// The loop's integral gain: 0 to 65535.
    pub ki: i64,
    /// The DAC value at rest: 0 to 65535.
    pub bias: i64,
    /// The lock detector's limit on the error, in 1,000 tau: 1 to `2^20`.
    pub threshold: i64,
    /// The count at which the lock detector is unlocked again: 0 to `10^6`.
    pub delock_samples: i64,
    /// The clock that the network runs on.
    pub clock: Clock,
    /// The nodes; a node is named by its place from 0.
    pub nodes: Nodes,
    /// The links; a link is named by its place from 0.
    pub links: Links,
    /// The greatest `err` of the listed modules, in tau: 0 to `10^9`, and 0 if none is listed.
    pub e_db: u64,
    /// The greatest `tx` of the listed modules, in tau: 0 to `10^12`, and 0 if none is listed.
    pub tx_max: u64,
    /// The greatest `rx` of the listed modules, in tau: 0 to `10^12`, and 0 if none is listed.
    pub rx_max: u64,
}

/// The first link that has this node as its lower end. `None` if and only if the node has no parent.
pub fn link_above<'a>(cfg: &'a NetCfg, n: u8) -> Option<&'a LinkCfg>
    ensures { option_map (λ link. link.now) result ≡ spec.link_above cfg.now n }
{
    cfg.links.iter().find(|link| link.lower == n)
}
