//! The ends of links where a node's frames wait and its link states are marked.
ghost use Rattle.std.specs.Prelude.{◌≡◌, ◌<◌, ◌≤◌, ◌+◌, ◌++◌, ◌∷◌, [], ℕ, length, map, slice_get, Some, vec_len, vec_capacity};
ghost use Rattle.wrp_node.specs.Sends.{frames_at};
ghost use Rattle.wrp_changes.specs.Moves.{EachBecame, Where};
ghost use Rattle.wrp_plant.specs.Plant.{Each};
ghost use Rattle.wrp_changes.specs.PlantTold.{SendsFew, TellsAt, TellsPort, TellsSpan, mark_of, put_at};
ghost use Rattle.wrp_plant.specs.EndRoom.{HasEndRoom, HasSpanRoom};

use super::News;
use super::reads::{is_same, state_in};
use crate::moves::spans::is_end_of;
use wrp_base::{Frame, LinkState, Mark, Tau, WrMsg};
use wrp_network::{LinkCfg, NetCfg};
use wrp_node::Output;
use wrp_plant::{EndState, PutOut, Span};

/// A copy of the octets.
pub fn copied(frame: &Frame) -> Frame
    ensures { result ≡ frame.now }
{
    let mut copy = Frame::new();
    let _fits = copy.try_extend_from_slice(frame);
    copy
}

// A frame waits after the others.
fn put_frame(waiting: &mut Vec<PutOut>, frame: &Frame, now: Tau)
    requires { vec_len waiting.old + 1 ≤ vec_capacity waiting.old }
    ensures items { waiting.new.items ≡ waiting.old.items ++ (put_at now frame.now.items ∷ []) }
    ensures len { vec_len waiting.new ≡ vec_len waiting.old + 1 }
    ensures room { vec_capacity waiting.new ≡ vec_capacity waiting.old }
{
    waiting.push_reserved(PutOut {
        octets: copied(frame),
        at: now,
    });
}

// An output waits after the others, if it is a frame of this port.
fn put_one(waiting: &mut Vec<PutOut>, out: &Output, port: u16, now: Tau)
    requires { vec_len waiting.old + length (frames_at port (out.now ∷ [])) ≤ vec_capacity waiting.old }
    ensures items { waiting.new.items ≡ waiting.old.items ++ map (put_at now) (frames_at port (out.now ∷ [])) }
    ensures len { vec_len waiting.new ≡ vec_len waiting.old + length (frames_at port (out.now ∷ [])) }
    ensures room { vec_capacity waiting.new ≡ vec_capacity waiting.old }
{
    match out {
        Output::Send { port: by, frame } => {
            if *by == port {
                put_frame(waiting, frame, now);
            }
        }
        _ => {}
    }
}

// The frames of a port among these outputs wait after the others, in order.
fn put_all(waiting: &mut Vec<PutOut>, outs: &[Output], port: u16, now: Tau)
    requires { vec_len waiting.old + length (frames_at port outs.now) ≤ vec_capacity waiting.old }
    ensures items { waiting.new.items ≡ waiting.old.items ++ map (put_at now) (frames_at port outs.now) }
    ensures len { vec_len waiting.new ≡ vec_len waiting.old + length (frames_at port outs.now) }
    ensures room { vec_capacity waiting.new ≡ vec_capacity waiting.old }
{
    for out in outs {
        put_one(waiting, out, port, now);
    }
}

// Marks a state if it changed.
fn mark(marks: &mut Vec<Mark>, now: Tau, from: LinkState, to: LinkState, by: Option<(WrMsg, Tau)>)
    requires { vec_len marks.old + 1 ≤ vec_capacity marks.old }
    ensures items { marks.new.items ≡ marks.old.items ++ mark_of now from to by }
    ensures len { vec_len marks.new ≤ vec_len marks.old + 1 }
    ensures room { vec_capacity marks.new ≡ vec_capacity marks.old }
{
    if !is_same(from, to) {
        marks.push_reserved(Mark {
            at: now,
            from,
            to,
            by,
        });
    }
}

// Reports a node's step to the end of one of its ports.
fn tell_end(end: &mut EndState, port: u16, now: Tau, news: &News<'_>, outs: &[Output])
    requires few { length (frames_at port outs.now) ≤ 4 }
    requires room { HasEndRoom 1 end.old }
    ensures told { TellsPort now news.now outs.now port end.old end.new }
    ensures room { (k : ℕ) → HasEndRoom (k + 1) end.old → HasEndRoom k end.new }
{
    let from = state_in(news.before.as_slice(), port);
    let to = state_in(news.after.as_slice(), port);
    put_all(&mut end.waiting, outs, port, now);
    mark(&mut end.marks, now, from, to, news.by);
}

// The same, if the end belongs to the node.
fn tell_where(
    end: &mut EndState,
    is_its: bool,
    port: u16,
    now: Tau,
    news: &News<'_>,
    outs: &[Output],
)
    requires few { length (frames_at port outs.now) ≤ 4 }
    requires room { HasEndRoom 1 end.old }
    ensures told { Where is_its (TellsPort now news.now outs.now port) end.old end.new }
    ensures room { (k : ℕ) → HasEndRoom (k + 1) end.old → HasEndRoom k end.new }
{
    if is_its {
        tell_end(end, port, now, news, outs);
    }
}

// Reports a node's step to the ends of a link that belong to the node.
fn tell_both(span: &mut Span, link: &LinkCfg, now: Tau, news: &News<'_>, outs: &[Output])
    requires few { SendsFew outs.now }
    requires room { HasSpanRoom 1 span.old }
    ensures told { TellsSpan now news.now outs.now link.now span.old span.new }
    ensures room { (k : ℕ) → HasSpanRoom (k + 1) span.old → HasSpanRoom k span.new }
{
    tell_where(
        &mut span.master,
        link.upper == news.node,
        link.upper_port,
        now,
        news,
        outs,
    );
    tell_where(
        &mut span.slave,
        link.lower == news.node,
        link.lower_port,
        now,
        news,
        outs,
    );
}

// The same, but quick for a link none of whose ends belongs to the node.
fn tell_link(span: &mut Span, link: &LinkCfg, now: Tau, news: &News<'_>, outs: &[Output])
    requires few { SendsFew outs.now }
    requires room { HasSpanRoom 1 span.old }
    ensures told { TellsSpan now news.now outs.now link.now span.old span.new }
    ensures room { (k : ℕ) → HasSpanRoom (k + 1) span.old → HasSpanRoom k span.new }
{
    if is_end_of(link, news.node) {
        tell_both(span, link, now, news, outs);
    }
}

// The same for the link with this number.
fn tell_number(span: &mut Span, cfg: &NetCfg, k: usize, now: Tau, news: &News<'_>, outs: &[Output])
    requires few { SendsFew outs.now }
    requires room { HasSpanRoom 1 span.old }
    ensures told { TellsAt now news.now outs.now cfg.now.links.items k span.old span.new }
    ensures room { (j : ℕ) → HasSpanRoom (j + 1) span.old → HasSpanRoom j span.new }
{
    match cfg.links.get(k) {
        Some(link) => tell_link(span, link, now, news, outs),
        None => {}
    }
}

/// Reports a node's step to the ends of all links that belong to the node.
pub fn tell(spans: &mut Vec<Span>, cfg: &NetCfg, now: Tau, news: &News<'_>, outs: &[Output])
    requires few { SendsFew outs.now }
    requires room { Each (λ k. HasSpanRoom 1) spans.old.items }
    ensures told { EachBecame (TellsAt now news.now outs.now cfg.now.links.items) spans.old.items spans.new.items }
    ensures room { (k : ℕ) → Each (λ i. HasSpanRoom (k + 1)) spans.old.items
        → Each (λ i. HasSpanRoom k) spans.new.items }
{
    for k in 0..spans.len() {
        tell_number(&mut spans[k], cfg, k, now, news, outs);
    }
}
