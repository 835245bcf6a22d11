//! The times of a network, in tau.
ghost use Rattle.std.specs.Prelude.{◌≡◌, ◌^◌, ◌≤◌, pos, unsigned_abs};
ghost use Rattle.wrp_network.specs.Network.{HasRanges};
ghost use Rattle.wrp_bounds.specs.Times as times;

use wrp_base::Tau;
use wrp_network::NetCfg;

/// One ns, in tau.
const TAU_OF_NS: u128 = 65_536_000;

// A time in ns, in tau.
fn tau_of_ns(ns: i64) -> Tau
    requires { unsigned_abs ns ≤ 10_000_000_000 }
    ensures value { result ≡ pos (times.tau_of_ns ns) }
    ensures size { unsigned_abs result ≤ 2 ^ 60 }
{
    (TAU_OF_NS * u128::from(ns.unsigned_abs())) as i128
}

/// The shortest time from one tick of a node to the next, in tau.
pub fn shortest_tick(cfg: &NetCfg) -> Tau
    requires { HasRanges cfg.now }
    ensures value { result ≡ pos (times.shortest_tick cfg.now) }
    ensures size { unsigned_abs result ≤ 2 ^ 60 }
{
    tau_of_ns(cfg.dmin_ns)
}

/// The longest time from one tick of a node to the next, in tau.
pub fn longest_tick(cfg: &NetCfg) -> Tau
    requires { HasRanges cfg.now }
    ensures value { result ≡ pos (times.longest_tick cfg.now) }
    ensures size { unsigned_abs result ≤ 2 ^ 60 }
{
    tau_of_ns(cfg.dmax_ns)
}

/// The life of a frame, in tau.
pub fn frame_life(cfg: &NetCfg) -> Tau
    requires { HasRanges cfg.now }
    ensures value { result ≡ pos (times.frame_life cfg.now) }
    ensures size { unsigned_abs result ≤ 2 ^ 60 }
{
    tau_of_ns(cfg.life_ns)
}

/// The greatest one-way delay, in tau.
pub fn reach(cfg: &NetCfg) -> Tau
    requires { HasRanges cfg.now }
    ensures value { result ≡ pos (times.reach cfg.now) }
    ensures size { unsigned_abs result ≤ 2 ^ 60 }
{
    tau_of_ns(cfg.reach_ns)
}
