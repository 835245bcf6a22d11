//! Which events can come to a network of two or three nodes.
ghost use Rattle.std.specs.Prelude.{◌≡◌, IsTrue, true};
ghost use Rattle.std.specs.List.{AllByRecursion};
ghost use Rattle.wrp_base.specs.Ranges.{IsFromTo};
ghost use Rattle.wrp_caldb.specs.Name.{is_name};
ghost use Rattle.wrp_course.specs.EventAt.{AreSwaps, IsChange, IsEventOf, IsMove, IsRaw, IsSwap, IsTime};

use wrp_base::{Raw, Tau};
use wrp_caldb::is_name;
use wrp_network::{Name, NetCfg};
use wrp_world::{Event, Swap};

// The drifts of two or three nodes.
fn are_drifts(drifts: &[i64]) -> bool
    ensures { IsTrue result → AllByRecursion IsChange drifts.now }
{
    match drifts {
        [gm, sw1] => *gm != i64::MIN && *sw1 != i64::MIN,
        [gm, sw1, leaf] => *gm != i64::MIN && *sw1 != i64::MIN && *leaf != i64::MIN,
        _ => false,
    }
}

// Whether the moves of a link can come.
fn is_move(by: (i64, i64)) -> bool
    ensures { IsTrue result → IsMove by }
{
    by.0 != i64::MIN && by.1 != i64::MIN
}

// The moves of one link or two.
fn are_moves(moves: &[(i64, i64)]) -> bool
    ensures { IsTrue result → AllByRecursion IsMove moves.now }
{
    match moves {
        [by] => is_move(*by),
        [first, second] => is_move(*first) && is_move(*second),
        _ => false,
    }
}

fn is_time(stamp: Tau) -> bool
    ensures { IsTrue result → IsTime stamp }
{
    0 <= stamp && stamp.unsigned_abs() <= 1 << 92 && stamp.unsigned_abs() % 1000 == 0
}

fn is_raw(raw: &Raw) -> bool
    ensures { IsTrue result → IsRaw raw.now }
{
    let rising = 1 <= raw.rising && raw.rising < 1 << 63;
    let falling = 1 <= raw.falling && raw.falling < 1 << 63;
    rising && falling && raw.tag < 16_384
}

fn is_delay(delay: Tau) -> bool
    ensures { IsTrue result → IsFromTo 0 9_223_372_036_854_775_807 delay }
{
    0 <= delay && delay <= 9_223_372_036_854_775_807
}

fn is_named(name: &Name) -> bool
    ensures { IsTrue result → is_name name.now.bytes ≡ true }
{
    is_name(name.as_str())
}

fn is_swap(swap: &Swap) -> bool
    ensures { IsTrue result → IsSwap swap.now }
{
    let small = swap.tx <= 1_000_000_000_000 && swap.rx <= 1_000_000_000_000;
    is_named(&swap.name) && swap.port <= 65_535 && small
}

// No module, or one.
fn are_swaps(swaps: &[Swap]) -> bool
    ensures { IsTrue result → AreSwaps swaps.now }
{
    match swaps {
        [] => true,
        [swap] => is_swap(swap),
        _ => false,
    }
}

/// Whether an event can come to a network of two or three nodes; the answer is no also if it puts more
/// than one module in place.
pub fn can_come(cfg: &NetCfg, event: &Event) -> bool
    ensures { IsTrue result → IsEventOf cfg.now event.now }
{
    let nodes = cfg.nodes.len();
    let links = cfg.links.len();
    match event {
        Event::Pass { dt, drifts, fibres } => {
            let many = drifts.len() == nodes && fibres.len() == links;
            1 <= *dt && many && are_drifts(drifts.as_slice()) && are_moves(fibres.as_slice())
        }
        Event::Tick { node } => usize::from(*node) < nodes,
        Event::Sample { node, base, .. } => usize::from(*node) < nodes && *base < 16_384,
        Event::Depart { node, stamp, .. } => usize::from(*node) < nodes && is_time(*stamp),
        Event::Arrive { raw, .. } => is_raw(raw),
        Event::Deliver { .. } => true,
        Event::Noise { node, raw, .. } => usize::from(*node) < nodes && is_raw(raw),
        Event::Down { node } => usize::from(*node) < nodes,
        Event::Up { node, off, swaps } => {
            let off = off.unsigned_abs() <= 1 << 90;
            usize::from(*node) < nodes && off && are_swaps(swaps.as_slice())
        }
        Event::Cut { link } => usize::from(*link) < links,
        Event::Join { link, ms, sm } => usize::from(*link) < links
            && is_delay(*ms)
            && is_delay(*sm),
    }
}
