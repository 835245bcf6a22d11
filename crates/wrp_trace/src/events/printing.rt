//! Event lines, printed: what happens in a world, as a line that reads back as the same.
ghost use Rattle.std.specs.Prelude.{◌≡◌, ◌<◌, ◌++◌, ◌∷◌, [], ◌^◌, ◌≤◌, ◌==◌, ◌&&◌, unsigned_abs, IfOk, OnOk, Ok, length, map, codes};
ghost use Rattle.std.specs.Fmt.{decimal, signed_decimal};
ghost use Rattle.std.specs.String.{string_bytes};
ghost use Rattle.hex.specs.Hex.{encode_lower};
ghost use Rattle.wrp_network.specs.Network.{name_at, node_count};
ghost use Rattle.wrp_base.specs.Octets.{AreOctets};
ghost use Rattle.wrp_config.specs.Accepted.{IsAccepted};
ghost use Rattle.wrp_trace.specs.EventPrinting.{link_text, drift_words, drift_piece, drift_texts, move_words, move_piece, move_texts, swap_text, pass_texts, raw_texts, event_texts, event_text, further};
ghost use Rattle.wrp_trace.specs.Events.{event_read, bare};
ghost use Rattle.wrp_trace.specs.Printing.{bits_text, joined};
ghost use Rattle.wrp_course.specs.EventAt.{link_count, IsEventOf, FitsEvent};

use super::swaps::Swaps;
use crate::printing::{bits_text, octets_of, octets_text};
use std::alloc::{AllocError, Global};
use wrp_base::{Frame, Raw, Tau};
use wrp_config::Network;
use wrp_course::{Event, Swap};
use wrp_network::{LinkCfg, NetCfg, NodeCfg};

/// The line of an event, without LF. `AllocError` if memory runs out.
pub fn event_line(alloc: Global, e: &Event, net: &Network) -> Result<Vec<u8>, AllocError>
    requires accepted { IsAccepted net.now.cfg net.now.db }
    requires printable { IsEventOf net.now.cfg e.now }
    ensures text { IfOk result (λ line. line.items ≡ event_text net.now.cfg e.now) }
    ensures reads_back { IfOk result (λ line.
        event_read net.now.cfg line.items ≡ Ok (bare e.now)) }
{
    let text = text_of(alloc, e, &net.cfg)?;
    Ok(octets_of(text))
}

// The same as text.
fn text_of(alloc: Global, e: &Event, cfg: &NetCfg) -> Result<String, AllocError>
    requires printable { IsEventOf cfg.now e.now }
    ensures text { IfOk result (λ text. string_bytes text ≡ event_text cfg.now e.now) }
    ensures fits { FitsEvent e.now }
{
    match e {
        Event::Pass { dt, drifts, fibres } => pass_text(alloc, cfg, *dt, drifts, fibres),
        Event::Tick { node } => named_text(alloc, "tick", node_name(cfg, *node)),
        Event::Sample { node, base, bits } => {
            sample_text(alloc, node_name(cfg, *node), *base, *bits)
        }
        Event::Depart { node, port, stamp } => {
            depart_text(alloc, node_name(cfg, *node), *port, *stamp)
        }
        Event::Arrive { frame, raw } => arrive_text(alloc, *frame, *raw),
        Event::Deliver { frame } => deliver_text(alloc, *frame),
        Event::Noise {
            node,
            port,
            bytes,
            raw,
        } => noise_text(alloc, node_name(cfg, *node), *port, bytes, *raw),
        Event::Down { node } => named_text(alloc, "down", node_name(cfg, *node)),
        Event::Up { node, off, swaps } => up_text(alloc, node_name(cfg, *node), *off, swaps),
        Event::Cut { link } => named_text(alloc, "cut", link_name(cfg, *link)),
        Event::Join { link, ms, sm } => join_text(alloc, link_name(cfg, *link), *ms, *sm),
    }
}

// The name of a node.
fn node_name(cfg: &NetCfg, n: u8) -> &str
    requires { n < node_count cfg.now }
    ensures { result.now ≡ name_at cfg.now n }
{
    cfg.nodes[usize::from(n)].name.as_str()
}

// The name of a link.
fn link_name(cfg: &NetCfg, l: u8) -> &str
    requires { l < link_count cfg.now }
    ensures { result.now ≡ link_text cfg.now l }
{
    cfg.links[usize::from(l)].name.as_str()
}

// A word and a name.
fn named_text(alloc: Global, word: &str, name: &str) -> Result<String, AllocError>
    ensures { IfOk result (λ text. string_bytes text ≡ joined (word.now ∷ name.now ∷ [])) }
{
    format!(in alloc; "{word},{name}")
}

// The line of a sample.
fn sample_text(alloc: Global, name: &str, base: u16, bits: u64) -> Result<String, AllocError>
    ensures text { IfOk result (λ text. string_bytes text
        ≡ joined (codes "sample" ∷ name.now ∷ decimal base ∷ bits_text bits ∷ [])) }
    ensures fits { bits < 2 ^ 64 }
{
    let digits = bits_text(alloc, bits)?;
    let digits = digits.as_str();
    format!(in alloc; "sample,{name},{base},{digits}")
}

// The line of a departure.
fn depart_text(alloc: Global, name: &str, port: u16, stamp: Tau) -> Result<String, AllocError>
    ensures text { IfOk result (λ text. string_bytes text
        ≡ joined (codes "depart" ∷ name.now ∷ decimal port ∷ signed_decimal stamp ∷ [])) }
    ensures fits { port < 2 ^ 16 }
{
    format!(in alloc; "depart,{name},{port},{stamp}")
}

// The line of an arrival.
fn arrive_text(alloc: Global, frame: u32, raw: Raw) -> Result<String, AllocError>
    ensures text { IfOk result (λ text. string_bytes text
        ≡ joined (codes "arrive" ∷ decimal frame ∷ raw_texts raw)) }
    ensures fits { frame < 2 ^ 32 }
{
    let rising = raw.rising;
    let falling = raw.falling;
    let tag = raw.tag;
    format!(in alloc; "arrive,{frame},{rising},{falling},{tag}")
}

// The line of a delivery.
fn deliver_text(alloc: Global, frame: u32) -> Result<String, AllocError>
    ensures text { IfOk result (λ text. string_bytes text
        ≡ joined (codes "deliver" ∷ decimal frame ∷ [])) }
    ensures fits { frame < 2 ^ 32 }
{
    format!(in alloc; "deliver,{frame}")
}

// The line of octets that the peer did not send.
fn noise_text(
    alloc: Global,
    name: &str,
    port: u16,
    bytes: &Frame,
    raw: Raw,
) -> Result<String, AllocError>
    ensures text { IfOk result (λ text. string_bytes text
        ≡ joined (codes "noise" ∷ name.now ∷ decimal port ∷ encode_lower bytes.now.items ∷ raw_texts raw)) }
    ensures port { port < 2 ^ 16 }
    ensures octets { AreOctets bytes.now.items × (length bytes.now.items ≤ 256) }
{
    let digits = octets_text(alloc, bytes.as_slice())?;
    let digits = digits.as_str();
    let rising = raw.rising;
    let falling = raw.falling;
    let tag = raw.tag;
    format!(in alloc; "noise,{name},{port},{digits},{rising},{falling},{tag}")
}

// The line of a link that is joined.
fn join_text(alloc: Global, name: &str, ms: Tau, sm: Tau) -> Result<String, AllocError>
    ensures text { IfOk result (λ text. string_bytes text
        ≡ joined (codes "join" ∷ name.now ∷ signed_decimal ms ∷ signed_decimal sm ∷ [])) }
{
    format!(in alloc; "join,{name},{ms},{sm}")
}

// The line of a `pass`.
#[tactic(auto, using(crate::proofs::FurtherLemmas::pass_joined))]
fn pass_text(
    alloc: Global,
    cfg: &NetCfg,
    dt: i64,
    drifts: &[i64],
    fibres: &[(i64, i64)],
) -> Result<String, AllocError>
    requires nodes { length drifts.now ≡ node_count cfg.now }
    requires links { length fibres.now ≡ link_count cfg.now }
    ensures { IfOk result (λ text.
        string_bytes text ≡ joined (pass_texts cfg.now dt drifts.now fibres.now)) }
{
    let mut text = format!(in alloc; "pass,{dt}")?;
    add_drifts(alloc, &cfg.nodes, drifts, &mut text)?;
    add_moves(alloc, &cfg.links, fibres, &mut text)?;
    Ok(text)
}

// Whether a change is none.
fn is_zero(change: i64) -> bool
    ensures { result ≡ (unsigned_abs change == 0) }
{
    change.unsigned_abs() == 0
}

// NODE=DRIFT after a comma.
fn drift_part(alloc: Global, node: &NodeCfg, drift: i64) -> Result<String, AllocError>
    ensures { IfOk result (λ text. string_bytes text ≡ 44 ∷ drift_words node.now drift) }
{
    let name = node.name.as_str();
    format!(in alloc; ",{name}={drift}")
}

// The same, if the drift is not 0.
fn drift_text(alloc: Global, node: &NodeCfg, drift: i64) -> Result<String, AllocError>
    ensures { IfOk result (λ text. string_bytes text ≡ drift_piece node.now drift) }
{
    if is_zero(drift) {
        return Ok(String::new(alloc));
    }
    let text = drift_part(alloc, node, drift)?;
    Ok(text)
}

// The drifts that are not 0, each after a comma.
#[tactic(auto, using(crate::proofs::FurtherLemmas::drift_step))]
fn add_drifts(
    alloc: Global,
    nodes: &[NodeCfg],
    drifts: &[i64],
    text: &mut String,
) -> Result<(), AllocError>
    requires { length drifts.now ≡ length nodes.now }
    ensures { OnOk result (string_bytes text.new
        ≡ string_bytes text.old ++ further (drift_texts nodes.now drifts.now)) }
{
    for n in 0..nodes.len() {
        let part = drift_text(alloc, &nodes[n], drifts[n])?;
        text.push_str(part.as_str())?;
    }
    Ok(())
}

// Whether a move is none.
fn is_still(moving: (i64, i64)) -> bool
    ensures { result ≡ ((unsigned_abs moving.0 == 0) && (unsigned_abs moving.1 == 0)) }
{
    is_zero(moving.0) && is_zero(moving.1)
}

// LINK=MS/SM after a comma.
fn move_part(alloc: Global, link: &LinkCfg, moving: (i64, i64)) -> Result<String, AllocError>
    ensures { IfOk result (λ text. string_bytes text ≡ 44 ∷ move_words link.now moving) }
{
    let name = link.name.as_str();
    let (ms, sm) = moving;
    format!(in alloc; ",{name}={ms}/{sm}")
}

// The same, if the moves are not both 0.
fn move_text(alloc: Global, link: &LinkCfg, moving: (i64, i64)) -> Result<String, AllocError>
    ensures { IfOk result (λ text. string_bytes text ≡ move_piece link.now moving) }
{
    if is_still(moving) {
        return Ok(String::new(alloc));
    }
    let text = move_part(alloc, link, moving)?;
    Ok(text)
}

// The moves that are not both 0, each after a comma.
#[tactic(auto, using(crate::proofs::FurtherLemmas::move_step))]
fn add_moves(
    alloc: Global,
    links: &[LinkCfg],
    moves: &[(i64, i64)],
    text: &mut String,
) -> Result<(), AllocError>
    requires { length moves.now ≡ length links.now }
    ensures { OnOk result (string_bytes text.new
        ≡ string_bytes text.old ++ further (move_texts links.now moves.now)) }
{
    for l in 0..links.len() {
        let part = move_text(alloc, &links[l], moves[l])?;
        text.push_str(part.as_str())?;
    }
    Ok(())
}

// The line of an `up`.
#[tactic(auto, using(crate::proofs::FurtherLemmas::up_joined))]
fn up_text(alloc: Global, name: &str, off: Tau, swaps: &Swaps) -> Result<String, AllocError>
    ensures text { IfOk result (λ text. string_bytes text
        ≡ joined (codes "up" ∷ name.now ∷ signed_decimal off ∷ map swap_text swaps.now.items)) }
    ensures fits { length swaps.now.items ≤ 18 }
{
    let _count = swaps.len();
    let mut text = format!(in alloc; "up,{name},{off}")?;
    add_swaps(alloc, swaps, &mut text)?;
    Ok(text)
}

// PORT:MODULE:TX:RX after a comma.
fn swap_text(alloc: Global, swap: &Swap) -> Result<String, AllocError>
    ensures { IfOk result (λ text. string_bytes text ≡ 44 ∷ swap_text swap.now) }
{
    let port = swap.port;
    let name = swap.name.as_str();
    let tx = swap.tx;
    let rx = swap.rx;
    format!(in alloc; ",{port}:{name}:{tx}:{rx}")
}

// The swaps, each after a comma.
fn add_swaps(alloc: Global, swaps: &[Swap], text: &mut String) -> Result<(), AllocError>
    ensures { OnOk result (string_bytes text.new
        ≡ string_bytes text.old ++ further (map swap_text swaps.now)) }
{
    for swap in swaps {
        let part = swap_text(alloc, swap)?;
        text.push_str(part.as_str())?;
    }
    Ok(())
}
