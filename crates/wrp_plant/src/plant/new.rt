//! A plant before any event.
ghost use Rattle.std.specs.Prelude.{◌≡◌, ◌*ℤ◌, ◌-ℤ◌, IfOk, length, pos};
ghost use Rattle.std.specs.Option.{option_map_or};
ghost use Rattle.wrp_network.specs.Network.{HasRanges};
ghost use Rattle.wrp_base.specs.Clock.{second};
ghost use Rattle.wrp_bounds.specs.Times.{frame_life};
ghost use Rattle.wrp_config.specs.Accepted.{IsAccepted};
ghost use Rattle.wrp_plant.specs.New.{IsNewEnd, IsNewSpan, IsSpanOf, new_clock};
ghost use Rattle.wrp_plant.specs.Plant.{Each, FitsPlant, PlantIs};
ghost use Rattle.wrp_course.specs.Setting.{Setting};
ghost use Rattle.wrp_plant.specs.Sizes.{IsHorizonBy, IsTimeBy};
ghost use Rattle.wrp_course.specs.WorldAt.{new_world};

use super::Plant;
use super::tops::top_of;
use crate::ends::{EndState, Span};
use crate::times::frame_life as life;
use std::alloc::{AllocError, Global};
use wrp_base::{Module, Tau, difference, product};
use wrp_caldb::CalDb;
use wrp_config::Network;
use wrp_course::{ClockState, FibreState};
use wrp_flights::Frames;
use wrp_network::{LinkCfg, Name, NetCfg};

/// One second, in tau.
const SECOND: i128 = 65_536_000_000_000_000;

impl Plant {
    /// The plant before any event: all nodes are down, all links are cut, and true time is the
    /// epoch. `AllocError` if there is not enough memory; then there is no plant.
    #[inline(never)]
    pub fn new(alloc: Global, net: Network) -> Result<Plant, AllocError>
        requires { IsAccepted net.cfg net.db }
        ensures stands { IfOk result (λ plant. (s : Setting) → net.cfg ≡ s.cfg → net.db ≡ s.db
            → PlantIs s (new_world s) plant) }
        ensures fits { IfOk result FitsPlant }
        ensures net { IfOk result (λ plant. plant.net ≡ net) }
    {
        let start = start_of(&net.cfg);
        let horizon = horizon_of(&net.cfg, start);
        let top = top_of(&net.cfg);
        let clocks = new_clocks(alloc, net.cfg.nodes.len(), start)?;
        let spans = new_spans(alloc, &net.db, net.cfg.links.as_slice())?;
        Ok(Plant {
            net,
            time: start,
            events: 0,
            clocks,
            spans,
            frames: Frames::new(alloc, horizon),
            spare: 0,
            last_put: start,
            top,
        })
    }
}

/// The first moment of a world, in tau: the epoch of its network, which is given in seconds.
pub fn start_of(cfg: &NetCfg) -> Tau
    requires { HasRanges cfg.now }
    ensures value { result ≡ cfg.now.epoch *ℤ second }
    ensures size { IsTimeBy 0 result }
{
    product(i128::from(cfg.epoch), SECOND)
}

// The horizon at the epoch: a frame that was put out at this time or later is young.
fn horizon_of(cfg: &NetCfg, start: Tau) -> Tau
    requires ranges { HasRanges cfg.now }
    requires start { IsTimeBy 0 start }
    ensures value { result ≡ start -ℤ pos (frame_life cfg.now) }
    ensures size { IsHorizonBy 0 result }
{
    difference(start, life(cfg))
}

// This many new clocks. `AllocError` if there is not enough memory.
fn new_clocks(alloc: Global, count: usize, start: Tau) -> Result<Vec<ClockState>, AllocError>
    ensures count { IfOk result (λ clocks. length clocks.items ≡ count) }
    ensures each { IfOk result (λ clocks. Each (λ n clock. clock ≡ new_clock start) clocks.items) }
{
    let clock = ClockState {
        up: false,
        off: 0,
        ticked: start,
        samples: 0,
    };
    let mut clocks = Vec::new(alloc);
    for _i in 0..count {
        clocks.push(clock)?;
    }
    Ok(clocks)
}

// The new links. `AllocError` if there is not enough memory.
fn new_spans(alloc: Global, db: &CalDb, links: &[LinkCfg]) -> Result<Vec<Span>, AllocError>
    ensures count { IfOk result (λ spans. length spans.items ≡ length links.now) }
    ensures each { IfOk result (λ spans. Each (IsSpanOf db.now links.now) spans.items) }
{
    let mut spans = Vec::new(alloc);
    for link in links {
        spans.push(new_span(alloc, db, link))?;
    }
    Ok(spans)
}

// One new link.
fn new_span(alloc: Global, db: &CalDb, link: &LinkCfg) -> Span
    ensures { IsNewSpan db.now link.now result }
{
    let upper = db.module_at(link.upper_module.as_str(), link.down_nm, link.up_nm);
    let lower = db.module_at(link.lower_module.as_str(), link.up_nm, link.down_nm);
    Span {
        fibre: FibreState {
            joined: false,
            ms: 0,
            sm: 0,
        },
        master: new_end(alloc, &link.upper_module, upper),
        slave: new_end(alloc, &link.lower_module, lower),
    }
}

// An end with this module installed.
fn new_end(alloc: Global, name: &Name, entry: Option<Module>) -> EndState
    ensures { IsNewEnd name.now.bytes entry result }
{
    EndState {
        name: copied(name),
        tx: tx_of(entry),
        rx: rx_of(entry),
        waiting: Vec::new(alloc),
        marks: Vec::new(alloc),
    }
}

fn tx_of(entry: Option<Module>) -> u64
    ensures { result ≡ option_map_or (λ m. m.tx) entry 0 }
{
    match entry {
        Some(entry) => entry.tx,
        None => 0,
    }
}

fn rx_of(entry: Option<Module>) -> u64
    ensures { result ≡ option_map_or (λ m. m.rx) entry 0 }
{
    match entry {
        Some(entry) => entry.rx,
        None => 0,
    }
}

// A copy of the name.
fn copied(name: &Name) -> Name
    ensures { result.bytes ≡ name.now.bytes }
{
    let mut copy = Name::new();
    let _fits = copy.try_push_str(name.as_str());
    copy
}
