//! A place that event lines are read into, one after another.
ghost use Rattle.std.specs.Prelude.{◌≡◌, OnOk, true, false, length, map};
ghost use Rattle.csv.specs.Records.{fields_of};
ghost use Rattle.wrp_course.specs.EventAt.{IsEventOf};
ghost use Rattle.wrp_trace.specs.EventKinds.{may_have};
ghost use Rattle.wrp_trace.specs.Events.{event_of, fields_of_kind, pass_of, told_in};
ghost use Rattle.wrp_trace.specs.Places.{AsPass, FindsEach, IsPassing, IsPlaceOf, drifts_in, event_in, moves_in, span_in};

use super::fields::span_at;
use super::kinds::{EventKind, kind_of};
use super::marks::{Marks, changes_into, still_clocks, still_fibres};
use super::{arrive, cut, deliver, depart, down, join, noise, sample, tick, up};
use csv::ByteRecord;
use wrp_base::TraceFault;
use wrp_config::Network;
use wrp_course::Event;
use wrp_fields::field;
use wrp_network::NetCfg;

// The place of the first field.
const KIND: u32 = 1;

/// The part of a place that has an event.
#[derive(Clone, Copy, Debug)]
pub enum Part {
    /// The part for each `pass`.
    Passing,
    /// The part for each `tick`.
    Ticking,
    /// The part for each `sample`.
    Sampling,
    /// The part for any other event.
    Other,
}

/// A place for the events of a network's lines, which serves line after line: an event has room for the changes
/// of 64 nodes and 63 links. For a `pass`, only what it names and what the previous one named is written. The
/// other two kinds that come often have a part of their own, so that only a few numbers are written.
#[derive(Debug, Drop)]
pub struct EventPlace {
    // The last `pass`.
    passing: Event,
    // The last `tick`.
    ticking: Event,
    // The last `sample`.
    sampling: Event,
    // The last event of another kind.
    other: Event,
    // The part that was read into last.
    last: Part,
    // What the last `pass` names.
    marks: Marks,
}

// Time passes, and nothing moves.
fn still(cfg: &NetCfg, marks: &Marks) -> Event
    requires nodes { marks.now.nodes.items ≡ map (λ node. false) cfg.now.nodes.items }
    requires links { marks.now.links.items ≡ map (λ link. false) cfg.now.links.items }
    requires found { marks.now.apart ≡ true → FindsEach cfg.now }
    ensures { IsPassing cfg.now marks.now result }
{
    let _none = marks;
    let drifts = still_clocks(&cfg.nodes);
    let fibres = still_fibres(&cfg.links);
    Event::Pass {
        dt: 1,
        drifts,
        fibres,
    }
}

impl EventPlace {
    /// A place for the events of a network, before the first is read.
    pub fn new(cfg: &NetCfg) -> EventPlace
        ensures { IsPlaceOf cfg.now result }
    {
        let marks = Marks::new(cfg);
        let passing = still(cfg, &marks);
        EventPlace {
            passing,
            ticking: Event::Tick { node: 0 },
            sampling: Event::Tick { node: 0 },
            other: Event::Tick { node: 0 },
            last: Part::Other,
            marks,
        }
    }

    /// The event that was read last.
    pub fn event(&self) -> &Event
        ensures { result.now ≡ event_in self.now }
    {
        match self.last {
            Part::Passing => &self.passing,
            Part::Ticking => &self.ticking,
            Part::Sampling => &self.sampling,
            Part::Other => &self.other,
        }
    }

    /// The event that was read last, alone.
    pub fn into_event(self) -> Event
        ensures { result ≡ event_in self }
    {
        match self.last {
            Part::Passing => self.passing,
            Part::Ticking => self.ticking,
            Part::Sampling => self.sampling,
            Part::Other => self.other,
        }
    }
}

// This much time passes.
#[tactic(auto, using(crate::proofs::PlaceParts::no_pass_there))]
fn write_span(event: &mut Event, span: i64)
    requires pass { AsPass event.old }
    ensures pass { AsPass event.new }
    ensures span { span_in event.new ≡ span }
    ensures drifts { drifts_in event.new ≡ drifts_in event.old }
    ensures moves { moves_in event.new ≡ moves_in event.old }
{
    match event {
        Event::Pass { dt, .. } => *dt = span,
        _ => {}
    }
}

// `pass,DT[,NODE=DRIFT][,LINK=MS/SM]`, into a `pass` whose marks are these.
fn pass_into(
    row: &ByteRecord,
    cfg: &NetCfg,
    event: &mut Event,
    marks: &mut Marks,
) -> Result<(), TraceFault>
    requires passing { IsPassing cfg.now marks.old event.old }
    ensures value { told_in result event.new ≡ pass_of cfg.now (fields_of row.now) }
    ensures event { OnOk result (IsEventOf cfg.now event.new) }
    ensures passing { IsPassing cfg.now marks.new event.new }
{
    let span = span_at(row, 2)?;
    write_span(event, span);
    changes_into(row, cfg, marks, event)
}

// Puts what the fields of a line of a kind say into a place.
fn read_kind_into(
    kind: EventKind,
    row: &ByteRecord,
    cfg: &NetCfg,
    place: &mut EventPlace,
) -> Result<(), TraceFault>
    requires count { may_have kind (length (fields_of row.now)) ≡ true }
    requires place { IsPlaceOf cfg.now place.old }
    ensures value { told_in result (event_in place.new) ≡ fields_of_kind cfg.now kind (fields_of row.now) }
    ensures event { OnOk result (IsEventOf cfg.now (event_in place.new)) }
    ensures place { IsPlaceOf cfg.now place.new }
{
    place.last = Part::Other;
    match kind {
        EventKind::Pass => {
            place.last = Part::Passing;
            pass_into(row, cfg, &mut place.passing, &mut place.marks)
        }
        EventKind::Tick => {
            place.last = Part::Ticking;
            tick(row, cfg, &mut place.ticking)
        }
        EventKind::Sample => {
            place.last = Part::Sampling;
            sample(row, cfg, &mut place.sampling)
        }
        EventKind::Depart => depart(row, cfg, &mut place.other),
        EventKind::Arrive => arrive(row, cfg, &mut place.other),
        EventKind::Deliver => deliver(row, cfg, &mut place.other),
        EventKind::Noise => noise(row, cfg, &mut place.other),
        EventKind::Down => down(row, cfg, &mut place.other),
        EventKind::Up => up(row, cfg, &mut place.other),
        EventKind::Cut => cut(row, cfg, &mut place.other),
        EventKind::Join => join(row, cfg, &mut place.other),
    }
}

/// Puts what the fields of a line say into a place. If they say no event, nothing is known of the
/// place's event. `Kind` if the first field is no kind, otherwise `Fields` if there is another
/// number of fields, otherwise `Number` or `Name` with the place of the first field that says
/// nothing.
pub fn read_event_into(
    row: &ByteRecord,
    net: &Network,
    place: &mut EventPlace,
) -> Result<(), TraceFault>
    requires place { IsPlaceOf net.now.cfg place.old }
    ensures value { told_in result (event_in place.new) ≡ event_of net.now.cfg (fields_of row.now) }
    ensures event { OnOk result (IsEventOf net.now.cfg (event_in place.new)) }
    ensures place { IsPlaceOf net.now.cfg place.new }
{
    match kind_of(field(row, KIND)) {
        Some(kind) if kind.may_have(row.len()) => read_kind_into(kind, row, &net.cfg, place),
        Some(_) => Err(TraceFault::Fields),
        None => Err(TraceFault::Kind),
    }
}
