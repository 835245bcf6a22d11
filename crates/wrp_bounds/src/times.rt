//! The times that bounds and inequalities speak of, in tau.
ghost use Rattle.std.specs.Prelude.{◌≡◌, ℕ, ◌+◌, ◌*◌, ◌^◌, ◌<◌, ◌≤◌, ◌≤ℤ◌, pos, unsigned_abs};
ghost use Rattle.wrp_network.specs.Network.{HasRanges};
ghost use Rattle.wrp_base.specs.Ranges.{IsFromTo};
ghost use Rattle.wrp_bounds.specs.Times as spec;

use wrp_network::NetCfg;

/// One ns, in tau.
const TAU_OF_NS: u128 = 65_536_000;

// A number of the network; none of the numbers meant here is negative.
pub fn count(number: i64) -> u64
    requires { IsFromTo 0 1_000_000_000 number }
    ensures value { result ≡ unsigned_abs number }
    ensures size { result ≤ 2 ^ 30 }
    ensures ticks { number ≤ℤ pos 1_000_000 → result ≤ 2 ^ 20 }
    ensures positive { pos 1 ≤ℤ number → 0 < result }
{
    number.unsigned_abs()
}

// A time in ns, in tau.
fn tau_of_ns(ns: i64) -> u128
    requires { IsFromTo 0 10_000_000_000 ns }
    ensures value { result ≡ spec.tau_of_ns ns }
    ensures size { result ≤ 2 ^ 60 }
{
    TAU_OF_NS * u128::from(ns.unsigned_abs())
}

// So many ticks, each of this length.
pub fn ticks_of(ticks: u64, tick: u128) -> u128
    requires ticks { ticks ≤ 2 ^ 36 }
    requires tick { tick ≤ 2 ^ 80 }
    ensures value { result ≡ ticks * tick }
    ensures size { result ≤ 2 ^ 116 }
    ensures short { ticks ≤ 2 ^ 21 → tick ≤ 2 ^ 56 → result ≤ 2 ^ 77 }
{
    u128::from(ticks) * tick
}

// The shortest time from one tick of a node to the next.
pub fn shortest_tick(cfg: &NetCfg) -> u128
    requires { HasRanges cfg.now }
    ensures value { result ≡ spec.shortest_tick cfg.now }
    ensures size { result ≤ 2 ^ 60 }
{
    tau_of_ns(cfg.dmin_ns)
}

// The longest time from one tick of a node to the next.
pub fn longest_tick(cfg: &NetCfg) -> u128
    requires { HasRanges cfg.now }
    ensures value { result ≡ spec.longest_tick cfg.now }
    ensures size { result ≤ 2 ^ 56 }
{
    tau_of_ns(cfg.dmax_ns)
}

// The life of a frame.
pub fn frame_life(cfg: &NetCfg) -> u128
    requires { HasRanges cfg.now }
    ensures value { result ≡ spec.frame_life cfg.now }
    ensures size { result ≤ 2 ^ 60 }
{
    tau_of_ns(cfg.life_ns)
}

// The greatest one-way delay.
pub fn reach(cfg: &NetCfg) -> u128
    requires { HasRanges cfg.now }
    ensures value { result ≡ spec.reach cfg.now }
    ensures size { result ≤ 2 ^ 60 }
{
    tau_of_ns(cfg.reach_ns)
}

// The longest time from one good sample to the next.
pub fn gap_time(cfg: &NetCfg) -> u128
    requires { HasRanges cfg.now }
    ensures value { result ≡ spec.gap_time cfg.now }
    ensures size { result ≤ 2 ^ 77 }
{
    ticks_of(count(cfg.gap) + 1, longest_tick(cfg))
}

// The longest time from a measurement's stamps to its last use.
pub fn age_time(cfg: &NetCfg) -> u128
    requires { HasRanges cfg.now }
    ensures value { result ≡ spec.age_time cfg.now }
    ensures size { result ≤ 2 ^ 78 }
{
    ticks_of(count(cfg.age) + 2, longest_tick(cfg)) + frame_life(cfg)
}

// The longest time that a node is in HOLDOVER.
pub fn held_time(cfg: &NetCfg) -> u128
    requires { HasRanges cfg.now }
    ensures value { result ≡ spec.held_time cfg.now }
    ensures size { result ≤ 2 ^ 78 }
{
    ticks_of(count(cfg.holdover) + 1, longest_tick(cfg))
}
