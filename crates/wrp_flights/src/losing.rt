//! Frames on fibres are lost.
ghost use Rattle.std.specs.Prelude.{◌≡◌, ℕ, cond, filter, false, option_map, slice_get};
ghost use Rattle.std.specs.BTreeMap.{is_at};
ghost use Rattle.std.specs.Option.{option_map_or};
ghost use Rattle.std.specs.Ordering.{nat_cmp};
ghost use Rattle.wrp_flights.specs.Departed.{is_on, turn_in};
ghost use Rattle.wrp_flights.specs.Frames.{at, on_at};
ghost use Rattle.wrp_flights.specs.Listing.{Lists, Settled, is_other};
ghost use Rattle.wrp_flights.specs.Losing as spec;

use crate::departed::{Departed, OnFibre};
use crate::puts::forget_old;
use std::collections::BTreeMap;
use wrp_base::{Role, Tau};
use wrp_network::LinkCfg;

/// Which frames on fibres are lost.
#[derive(Clone, Copy)]
pub enum Loss {
    /// The frames on the fibre of this link.
    Link(u8),
    /// The frames on the fibres of this node's links.
    Node(u8),
    /// The frames that departed before the one with this number, over this link and from this end.
    Older(u32, u8, Role),
}

fn is_role(a: Role, b: Role) -> bool
    ensures { result ≡ spec.is_role a b }
{
    a == b
}

// Whether an end of a link is this node's.
fn is_end_of(link: &LinkCfg, node: u8) -> bool
    ensures { result ≡ spec.touches node link.now }
{
    link.upper == node || link.lower == node
}

// The same for the link with a number.
fn touches(links: &[LinkCfg], k: u8, node: u8) -> bool
    ensures { result ≡ option_map_or (spec.touches node) (slice_get links.now k) false }
{
    match links.get(usize::from(k)) {
        Some(link) => is_end_of(link, node),
        None => false,
    }
}

// Whether the frame with a number is one of those.
fn meets(loss: Loss, links: &[LinkCfg], number: u32, frame: &Departed) -> bool
    ensures { result ≡ spec.meets links.now loss number frame.now }
{
    match loss {
        Loss::Link(link) => frame.link == link,
        Loss::Node(node) => touches(links, frame.link, node),
        Loss::Older(than, link, by) => {
            number < than && (frame.link == link && is_role(frame.by, by))
        }
    }
}

// A frame is lost, if it is one of those and is on a fibre.
fn lose_frame(frame: &mut Departed, number: u32, loss: Loss, links: &[LinkCfg])
    ensures { frame.new ≡ spec.lost_by links.now loss number frame.old }
{
    let loses = meets(loss, links, number, frame);
    frame.gone = frame.gone || (loses && frame.is_on());
}

// The same for the frame with a number.
fn lose_at(kept: &mut BTreeMap<u32, Departed>, number: u32, loss: Loss, links: &[LinkCfg])
    ensures { (k : ℕ) → at k kept.new.entries
        ≡ cond (is_at (nat_cmp number) k) (option_map (spec.lost_by links.now loss number) (at k kept.old.entries))
        (at k kept.old.entries) }
{
    if let Some(frame) = kept.get_mut(&number) {
        lose_frame(frame, number, loss, links);
    }
}

// The same; then it is forgotten, if it is old.
fn lose_one(
    kept: &mut BTreeMap<u32, Departed>,
    number: u32,
    loss: Loss,
    links: &[LinkCfg],
    horizon: Tau,
)
    ensures { (k : ℕ) → at k kept.new.entries
        ≡ cond (is_at (nat_cmp number) k) (turn_in horizon (spec.lost_by links.now loss number) (at k kept.old.entries))
        (at k kept.old.entries) }
{
    lose_at(kept, number, loss, links);
    forget_old(kept, number, horizon);
}

// Whether a frame that is listed so is one of those that are lost.
fn hits(loss: Loss, links: &[LinkCfg], it: OnFibre) -> bool
    ensures { result ≡ spec.hits links.now loss it }
{
    match loss {
        Loss::Link(link) => it.link == link,
        Loss::Node(node) => touches(links, it.link, node),
        Loss::Older(than, link, by) => {
            it.number < than && (it.link == link && is_role(it.by, by))
        }
    }
}

// Those of the listed frames are lost, and forgotten if they are then old. Each frame that is kept is on a
// fibre and listed, or young. The answer says whether one was lost; nothing depends on it.
fn lose_all(
    kept: &mut BTreeMap<u32, Departed>,
    listed: &[OnFibre],
    loss: Loss,
    links: &[LinkCfg],
    horizon: Tau,
) -> bool
    requires { Settled horizon kept.old.entries listed.now }
    ensures { (k : ℕ) → at k kept.new.entries ≡ turn_in horizon (spec.lost_by links.now loss k) (at k kept.old.entries) }
{
    let mut any = false;
    for it in listed {
        if hits(loss, links, *it) {
            lose_one(kept, it.number, loss, links, horizon);
            any = true;
        }
    }
    any
}

/// Whether the frame with a number is on a fibre.
pub fn is_on_at(kept: &BTreeMap<u32, Departed>, number: u32) -> bool
    ensures { result ≡ on_at kept.now.entries number }
{
    match kept.get(&number) {
        Some(frame) => frame.is_on(),
        None => false,
    }
}

// The frames that are on no fibre are left out of the list.
fn leave_out(kept: &BTreeMap<u32, Departed>, listed: &mut Vec<OnFibre>)
    requires { Lists kept.now.entries listed.old.items }
    ensures { Lists kept.now.entries listed.new.items }
{
    listed.retain(|it| is_on_at(kept, it.number));
}

/// A frame that is on no fibre is left out of the list.
pub fn land(listed: &mut Vec<OnFibre>, number: u32)
    ensures { listed.new.items ≡ filter (is_other number) listed.old.items }
{
    listed.retain(|it| it.number != number);
}

/// These frames are lost, and those that are then old are forgotten. Each frame on a fibre stays listed. Only
/// the list is searched for them: a frame is looked up if it is one of them.
pub fn lose(
    kept: &mut BTreeMap<u32, Departed>,
    listed: &mut Vec<OnFibre>,
    loss: Loss,
    links: &[LinkCfg],
    horizon: Tau,
)
    requires { Settled horizon kept.old.entries listed.old.items }
    ensures kept { (k : ℕ) → at k kept.new.entries ≡ turn_in horizon (spec.lost_by links.now loss k) (at k kept.old.entries) }
    ensures lists { Lists kept.new.entries listed.new.items }
{
    if lose_all(kept, listed, loss, links, horizon) {
        leave_out(kept, listed);
    }
}
