//! Modules that are installed.
ghost use Rattle.std.specs.Prelude.{◌≡◌, true};
ghost use Rattle.wrp_changes.specs.Giving.{name_with as name_by};
ghost use Rattle.wrp_course.specs.Moved.{swap_at};
ghost use Rattle.wrp_changes.specs.Moves.{Put, Swapped, SwapsAt, SwapsSpan, EachBecame, Where};

use wrp_course::Swap;
use wrp_network::{LinkCfg, Name, NetCfg};
use wrp_plant::{EndState, Span, swap_for};

// A copy of the name.
fn copied(name: &Name) -> Name
    ensures { result.bytes ≡ name.now.bytes }
{
    let mut copy = Name::new();
    let _fits = copy.try_push_str(name.as_str());
    copy
}

// Installs a module.
fn put_module(end: &mut EndState, swap: &Swap)
    ensures { Put swap.now end.old end.new }
{
    end.name = copied(&swap.name);
    end.tx = swap.tx;
    end.rx = swap.rx;
}

// Installs the module for a port, if there is one.
fn put_swap(end: &mut EndState, port: u16, swaps: &[Swap])
    ensures { Swapped (swap_at port swaps.now) end.old end.new }
{
    match swap_for(swaps, port) {
        Some(swap) => put_module(end, swap),
        None => {}
    }
}

// The same, if the end belongs to the node.
fn put_where(end: &mut EndState, is_its: bool, port: u16, swaps: &[Swap])
    ensures { Where is_its (Swapped (swap_at port swaps.now)) end.old end.new }
{
    if is_its {
        put_swap(end, port, swaps);
    }
}

// Installs the modules at the ends of a link that belong to the node.
fn put_at_link(span: &mut Span, link: &LinkCfg, n: u8, swaps: &[Swap])
    ensures { SwapsSpan n link.now swaps.now span.old span.new }
{
    put_where(&mut span.master, link.upper == n, link.upper_port, swaps);
    put_where(&mut span.slave, link.lower == n, link.lower_port, swaps);
}

// The same for the link of this number.
fn put_at_number(span: &mut Span, cfg: &NetCfg, k: usize, n: u8, swaps: &[Swap])
    ensures { SwapsAt n swaps.now cfg.now.links.items k span.old span.new }
{
    match cfg.links.get(k) {
        Some(link) => put_at_link(span, link, n, swaps),
        None => {}
    }
}

/// Installs the modules for the ports of a node.
pub fn put_modules(spans: &mut Vec<Span>, cfg: &NetCfg, n: u8, swaps: &[Swap])
    ensures { EachBecame (SwapsAt n swaps.now cfg.now.links.items) spans.old.items spans.new.items }
{
    for k in 0..spans.len() {
        put_at_number(&mut spans[k], cfg, k, n, swaps);
    }
}

// The name of the module for a port, or this name if there is none.
fn name_for<'a>(name: &'a Name, port: u16, swaps: &'a [Swap]) -> &'a Name
    ensures { result.now.bytes ≡ name_by true port swaps.now name.now.bytes }
{
    match swap_for(swaps, port) {
        Some(swap) => &swap.name,
        None => name,
    }
}

/// The name of the module at an end after these swaps at a node, if the end belongs to the node.
pub fn name_with<'a>(name: &'a Name, is_its: bool, port: u16, swaps: &'a [Swap]) -> &'a Name
    ensures { result.now.bytes ≡ name_by is_its port swaps.now name.now.bytes }
{
    if is_its {
        name_for(name, port, swaps)
    } else {
        name
    }
}
