//! Fibres that change, are joined and are cut, and frames that are lost while they wait.
ghost use Rattle.std.specs.Prelude.{◌≡◌, ◌<◌, ℕ, pos, true, length, slice_get, Some};
ghost use Rattle.wrp_course.specs.Moved.{move_of};
ghost use Rattle.wrp_changes.specs.Moves.{At, Cuts, Drops, DropsAt, Empties, Joins, Moves, EachBecame, Where, touches_in};
ghost use Rattle.wrp_plant.specs.Plant.{Each};
ghost use Rattle.wrp_plant.specs.Sizes.{IsDelay};

use wrp_base::Tau;
use wrp_course::FibreState;
use wrp_network::{LinkCfg, NetCfg};
use wrp_plant::{EndState, Span, down_at, is_still, move_by, up_at};

// Changes the delays of a link, down and up, by its entry in `moves`.
fn move_span(span: &mut Span, moves: &[(i64, i64)], k: usize)
    requires ms { IsDelay span.old.fibre.ms }
    requires sm { IsDelay span.old.fibre.sm }
    ensures { Moves moves.now k span.old span.new }
{
    move_by(&mut span.fibre, down_at(moves, k), up_at(moves, k));
}

// Whether neither delay of a fibre changes.
fn stays_at(moves: &[(i64, i64)], k: usize) -> bool
    ensures { result ≡ true → move_of moves.now k ≡ (pos 0, pos 0) }
{
    match moves.get(k) {
        Some(by) => is_still(by),
        None => true,
    }
}

// Changes the delays of a link by its entry in `moves`; quick for a fibre that does not change.
fn move_one(span: &mut Span, moves: &[(i64, i64)], k: usize)
    requires ms { IsDelay span.old.fibre.ms }
    requires sm { IsDelay span.old.fibre.sm }
    ensures { Moves moves.now k span.old span.new }
{
    if !stays_at(moves, k) {
        move_span(span, moves, k);
    }
}

// The bits of the moves so far and of one more, down and up.
fn gathered(bits: (i64, i64), by: &(i64, i64)) -> (i64, i64)
    ensures { result ≡ (pos 0, pos 0) → (bits ≡ (pos 0, pos 0)) × (by.now ≡ (pos 0, pos 0)) }
{
    (bits.0 | by.0, bits.1 | by.1)
}

/// Whether no fibre changes: the delays of all move by 0. The bits of all moves are gathered, and only they are
/// tested.
pub fn all_stay(moves: &[(i64, i64)]) -> bool
    ensures { result ≡ true → (k : ℕ) → move_of moves.now k ≡ (pos 0, pos 0) }
{
    let mut bits = (0, 0);
    for by in moves {
        bits = gathered(bits, by);
    }
    is_still(&bits)
}

// Changes the delays of each link by its entry in `moves`.
fn move_each(spans: &mut Vec<Span>, moves: &[(i64, i64)])
    requires { Each (λ k span. IsDelay span.fibre.ms × IsDelay span.fibre.sm) spans.old.items }
    ensures { EachBecame (Moves moves.now) spans.old.items spans.new.items }
{
    for k in 0..spans.len() {
        move_one(&mut spans[k], moves, k);
    }
}

/// Changes the delays of each link by its entry in `moves`. If none changes, no link is looked at.
pub fn move_fibres(spans: &mut Vec<Span>, moves: &[(i64, i64)])
    requires { Each (λ k span. IsDelay span.fibre.ms × IsDelay span.fibre.sm) spans.old.items }
    ensures { EachBecame (Moves moves.now) spans.old.items spans.new.items }
{
    if !all_stay(moves) {
        move_each(spans, moves);
    }
}

/// A link is joined with these delays, in tau.
pub fn join(spans: &mut Vec<Span>, k: u8, ms: Tau, sm: Tau)
    requires { k < length spans.old.items }
    ensures { EachBecame (At k (Joins ms sm)) spans.old.items spans.new.items }
{
    spans[usize::from(k)].fibre = FibreState {
        joined: true,
        ms,
        sm,
    };
}

// The frames that wait at an end are lost.
fn empty(end: &mut EndState)
    ensures { Empties end.old end.new }
{
    end.waiting.clear();
}

// The frames that wait at both ends of a link are lost.
fn drop_waiting(span: &mut Span)
    ensures { Drops span.old span.new }
{
    empty(&mut span.master);
    empty(&mut span.slave);
}

// A link is cut.
fn cut_span(span: &mut Span)
    ensures { Cuts span.old span.new }
{
    drop_waiting(span);
    span.fibre.joined = false;
}

/// A link is cut, and the frames that wait at its ends are lost.
pub fn cut(spans: &mut Vec<Span>, k: u8)
    requires { k < length spans.old.items }
    ensures { EachBecame (At k Cuts) spans.old.items spans.new.items }
{
    cut_span(&mut spans[usize::from(k)]);
}

/// Whether an end of a link belongs to this node.
pub fn is_end_of(link: &LinkCfg, n: u8) -> bool
    ensures { result ≡ touches_in n (Some link.now) }
{
    link.upper == n || link.lower == n
}

/// Whether an end of the link with this number belongs to this node.
pub fn touches(cfg: &NetCfg, k: usize, n: u8) -> bool
    ensures { result ≡ touches_in n (slice_get cfg.now.links.items k) }
{
    match cfg.links.get(k) {
        Some(link) => is_end_of(link, n),
        None => false,
    }
}

// The frames that wait at both ends of a link are lost, if `lost` is true.
fn drop_where(span: &mut Span, lost: bool)
    ensures { Where lost Drops span.old span.new }
{
    if lost {
        drop_waiting(span);
    }
}

/// The frames that wait at the ends of a node's links are lost.
pub fn drop_at(spans: &mut Vec<Span>, cfg: &NetCfg, n: u8)
    ensures { EachBecame (DropsAt n cfg.now.links.items) spans.old.items spans.new.items }
{
    for k in 0..spans.len() {
        drop_where(&mut spans[k], touches(cfg, k, n));
    }
}
