//! The nine inequalities of a network, and the first of them that it breaks.
ghost use Rattle.std.specs.Prelude.{◌≡◌, ◌^◌, ◌<◌, ◌≤◌, ◌↔◌, IsOk, find, option_map, option_to_list};
ghost use Rattle.wrp_network.specs.Network.{HasRanges, IsTree, node_count};
ghost use Rattle.wrp_bounds.specs.Hop.{IsInRange};
ghost use Rattle.wrp_bounds.specs.Inequalities as spec;
ghost use Rattle.wrp_bounds.specs.Inequalities.{is_broken, inequalities, phase_rooms, answer_of, KeepsInequalities};

use crate::inequality::{Clash, Inequality, Order};
use crate::network::{numbers_over, placed_above};
use crate::numbers::HopNumbers;
use crate::times::{count, frame_life, gap_time, longest_tick, reach, shortest_tick, ticks_of};
use wrp_network::NetCfg;

/// How many Syncs or Delay_Reqs a port may send before a sequenceId comes again: somewhat fewer
/// than there are sequenceIds.
const IDS: u64 = 65_000;

/// Tries the nine inequalities in their order. The error is the first that is broken, with both its
/// sides; the result is Ok if and only if all of them hold. The third is tried at each node that has a
/// parent, in file order.
pub fn check(cfg: &NetCfg) -> Result<(), Clash>
    requires ranges { HasRanges cfg.now }
    requires tree { IsTree cfg.now }
    ensures value { result ≡ answer_of (find is_broken (inequalities cfg.now)) }
    ensures kept { IsOk result ↔ KeepsInequalities cfg.now }
{
    match broken_inequality(cfg) {
        None => Ok(()),
        Some(inequality) => Err(inequality.clash()),
    }
}

// The first inequality that is broken.
fn broken_inequality(cfg: &NetCfg) -> Option<Inequality>
    requires ranges { HasRanges cfg.now }
    requires tree { IsTree cfg.now }
    ensures { result ≡ find is_broken (inequalities cfg.now) }
{
    let before = [quiet_time(cfg), holdover_time(cfg)];
    let after = [
        tick_times(cfg),
        holdoff_time(cfg),
        flight_time(cfg),
        lock_counts(cfg),
        id_reuse(cfg),
        port_delays(cfg),
    ];
    first_broken(&before)
        .copied()
        .or(broken_phase_room(cfg))
        .or(first_broken(&after).copied())
}

// The first of these inequalities that is broken.
fn first_broken<'a>(inequalities: &'a [Inequality]) -> Option<&'a Inequality>
    ensures { option_map (λ i. i.now) result ≡ find is_broken inequalities.now }
{
    inequalities.iter().find(
        |i|
            ensures { result ≡ is_broken i.now.now }
        { i.is_broken() },
    )
}

// The third inequality, at the first node that breaks it.
fn broken_phase_room(cfg: &NetCfg) -> Option<Inequality>
    requires ranges { HasRanges cfg.now }
    requires tree { IsTree cfg.now }
    ensures { result ≡ find is_broken (phase_rooms cfg.now) }
{
    for n in 0..cfg.nodes.len() {
        if let Some(room) = broken_phase_room_at(cfg, n as u8) {
            return Some(room);
        }
    }
    None
}

// The third inequality at a node, if it has a parent and breaks it.
fn broken_phase_room_at(cfg: &NetCfg, n: u8) -> Option<Inequality>
    requires ranges { HasRanges cfg.now }
    requires tree { IsTree cfg.now }
    ensures { result ≡ find is_broken (option_to_list (spec.phase_room_of cfg.now n)) }
{
    match phase_room_of(cfg, n) {
        Some(room) if room.is_broken() => Some(room),
        _ => None,
    }
}

// The third inequality at a node, if it has a parent.
#[tactic(auto, unfolding(crate::specs::Inequalities::phase_room_of))]
fn phase_room_of(cfg: &NetCfg, n: u8) -> Option<Inequality>
    requires ranges { HasRanges cfg.now }
    requires tree { IsTree cfg.now }
    ensures { result ≡ spec.phase_room_of cfg.now n }
{
    match placed_above(cfg, n) {
        Some(link) => Some(phase_room(cfg, &numbers_over(cfg, link))),
        None => None,
    }
}

// 3: the phase moves so little between two good samples that its whole periods are known.
#[tactic(auto, unfolding(crate::specs::Inequalities::phase_room))]
fn phase_room(cfg: &NetCfg, numbers: &HopNumbers) -> Inequality
    requires { IsInRange numbers.now }
    ensures { result ≡ spec.phase_room cfg.now numbers.now }
{
    let motion = 2 * numbers.gap_motion() + 4 * numbers.detector_error();
    let period = cfg.clock.period().unsigned_abs();
    Inequality::new(3, motion, Order::Less, period)
}

// 1: the quiet time outlasts the lives of two frames.
fn quiet_time(cfg: &NetCfg) -> Inequality
    requires { HasRanges cfg.now }
    ensures { result ≡ spec.quiet_time cfg.now }
{
    let quiet = ticks_of(count(cfg.quiet) - 1, shortest_tick(cfg));
    Inequality::new(1, quiet, Order::More, 2 * frame_life(cfg))
}

// 2: HOLDOVER outlasts the lease that a node below still has.
fn holdover_time(cfg: &NetCfg) -> Inequality
    requires { HasRanges cfg.now }
    ensures { result ≡ spec.holdover_time cfg.now }
{
    let holdover = ticks_of(count(cfg.holdover) - 1, shortest_tick(cfg));
    let lease = ticks_of(count(cfg.lease) + 1, longest_tick(cfg));
    Inequality::new(2, holdover, Order::More, lease + frame_life(cfg))
}

// 4: the shortest tick is no longer than the longest.
#[tactic(auto, unfolding(crate::specs::Inequalities::tick_times))]
fn tick_times(cfg: &NetCfg) -> Inequality
    requires { HasRanges cfg.now }
    ensures { result ≡ spec.tick_times cfg.now }
{
    Inequality::new(4, shortest_tick(cfg), Order::AtMost, longest_tick(cfg))
}

// 5: after a failure a slave waits at least for the quiet time.
fn holdoff_time(cfg: &NetCfg) -> Inequality
    requires { HasRanges cfg.now }
    ensures { result ≡ spec.holdoff_time cfg.now }
{
    let quiet = u128::from(count(cfg.quiet));
    let holdoff = u128::from(count(cfg.holdoff));
    Inequality::new(5, quiet, Order::AtMost, holdoff)
}

// 6: a frame lives at least until it has arrived.
#[tactic(auto, unfolding(crate::specs::Inequalities::flight_time))]
fn flight_time(cfg: &NetCfg) -> Inequality
    requires { HasRanges cfg.now }
    ensures { result ≡ spec.flight_time cfg.now }
{
    Inequality::new(6, reach(cfg), Order::AtMost, frame_life(cfg))
}

// 7: the lock detector unlocks below the count at which it locks.
fn lock_counts(cfg: &NetCfg) -> Inequality
    requires { HasRanges cfg.now }
    ensures { result ≡ spec.lock_counts cfg.now }
{
    let delock = u128::from(count(cfg.delock_samples));
    let lock = u128::from(count(cfg.lock_samples));
    Inequality::new(7, delock, Order::Less, lock)
}

// 8: a sequenceId does not come again while a frame of it, or a phase that goes with it, is about.
fn id_reuse(cfg: &NetCfg) -> Inequality
    requires { HasRanges cfg.now }
    ensures { result ≡ spec.id_reuse cfg.now }
{
    let every = count(cfg.sync).min(count(cfg.delay));
    let reuse = ticks_of(IDS * every, shortest_tick(cfg));
    let kept = ticks_of(count(cfg.ring), gap_time(cfg));
    Inequality::new(8, reuse, Order::More, kept + 4 * frame_life(cfg))
}

// 9: the delays of two ports leave room for a fibre.
#[tactic(auto, unfolding(crate::specs::Inequalities::port_delays))]
fn port_delays(cfg: &NetCfg) -> Inequality
    requires { HasRanges cfg.now }
    ensures { result ≡ spec.port_delays cfg.now }
{
    let delays = u128::from(cfg.tx_max) + u128::from(cfg.rx_max) + 2 * u128::from(cfg.e_db);
    Inequality::new(9, delays, Order::AtMost, reach(cfg))
}
