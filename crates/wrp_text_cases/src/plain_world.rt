//! Cases on `PlainWorld`: the input is a line with the servo's settings (`plain_settings`), a line `offset OFF` with
//! the true offset at the start, and then a line for each event: `pass DT DRIFT`, `tick`, or
//! `exch SPAN DMS DSM O2 O3 T1 T2 T3 T4`. A line is expected for each event:
//! `report est EST bound BOUND command N true OFF`, or `nothing command N true OFF` if there is no report, or
//! `broken PREMISE SHOWN BOUND`.
ghost use Rattle.std.specs.Prelude.{◌≤◌, ◌^◌, IfOk, unsigned_abs};
ghost use Rattle.wrp_plain.specs.Event.{HasFields, IsShort};

use crate::machines::{Machine, answer_of};
use crate::plain_settings::{servo_setting_of, stamp_of};
use crate::words::{first_line, from_to, sized, text_of, wide, words_of};
use std::alloc::{AllocError, Global};
use wrp_plain::{PlainBroken, PlainEvent, PlainReport, PlainSeen, PlainWorld};
use wrp_suite::{Answer, Case, Fault};

// The true offset at the start.
fn offset_of(words: &[&str]) -> Result<i64, Fault>
    ensures { IfOk result (λ n. unsigned_abs n ≤ 2 ^ 62) }
{
    match *words {
        ["offset", off] => sized(off, 1 << 62),
        _ => Err(Fault::Input),
    }
}

// A time of an exchange.
fn time_of(word: &str) -> Result<i64, Fault>
    ensures { IfOk result IsShort }
{
    from_to(word, 0, 1 << 60)
}

// A true offset at a stamp.
fn true_offset_of(word: &str) -> Result<i128, Fault>
    ensures { IfOk result (λ n. unsigned_abs n ≤ 2 ^ 94) }
{
    wide(word, 1 << 94)
}

// Time that passes.
fn pass_of(dt: &str, drift: &str) -> Result<PlainEvent, Fault>
    ensures { IfOk result HasFields }
{
    let dt = from_to(dt, 1, 1_000_000_000_000_000_000)?;
    let drift = sized(drift, 1 << 60)?;
    Ok(PlainEvent::Pass { dt, drift })
}

// An exchange.
fn exchange_of(times: [&str; 3], offs: [&str; 2], stamps: [&str; 4]) -> Result<PlainEvent, Fault>
    ensures { IfOk result HasFields }
{
    let span = time_of(times[0])?;
    let dms = time_of(times[1])?;
    let dsm = time_of(times[2])?;
    let o2 = true_offset_of(offs[0])?;
    let o3 = true_offset_of(offs[1])?;
    let t1 = stamp_of(stamps[0])?;
    let t2 = stamp_of(stamps[1])?;
    let t3 = stamp_of(stamps[2])?;
    let t4 = stamp_of(stamps[3])?;
    let t = [t1, t2, t3, t4];
    Ok(PlainEvent::Exch {
        span,
        dms,
        dsm,
        o2,
        o3,
        t,
    })
}

// The event of a line.
fn event_of(words: &[&str]) -> Result<PlainEvent, Fault>
    ensures { IfOk result HasFields }
{
    match *words {
        ["pass", dt, drift] => pass_of(dt, drift),
        ["tick"] => Ok(PlainEvent::Tick),
        ["exch", span, dms, dsm, o2, o3, t1, t2, t3, t4] => {
            exchange_of([span, dms, dsm], [o2, o3], [t1, t2, t3, t4])
        }
        _ => Err(Fault::Input),
    }
}

// Appends the line of what an event gives.
fn tell(text: &mut String, seen: PlainSeen) -> Result<(), AllocError> {
    let PlainSeen {
        report,
        command,
        off,
    } = seen;
    match report {
        Some(PlainReport { est, bound }) => {
            write!(
                text,
                "report est {est} bound {bound} command {command} true {off}\n"
            )
        }
        None => write!(text, "nothing command {command} true {off}\n"),
    }
}

// Appends the line of a premise that is broken.
fn tell_broken(text: &mut String, broken: PlainBroken) -> Result<(), AllocError> {
    let PlainBroken {
        premise,
        shown,
        bound,
    } = broken;
    write!(text, "broken {premise} {shown} {bound}\n")
}

// Gives the world an event, and appends its line.
fn step(text: &mut String, world: &mut PlainWorld, event: &PlainEvent) -> Result<(), Fault>
    requires { HasFields event.now }
{
    if world.events() == u32::MAX {
        return Err(Fault::Condition);
    }
    let told = match world.step(event) {
        Ok(seen) => tell(text, seen),
        Err(broken) => tell_broken(text, broken),
    };
    told.map_err(Fault::from)
}

impl Machine for PlainWorld {
    // Takes the event of a line.
    fn take(&mut self, text: &mut String, words: &[&str]) -> Result<(), Fault> {
        step(text, self, &event_of(words)?)
    }
}

// A world with the settings of a line and the true offset of another.
fn world_of(alloc: Global, first: &str, second: &str) -> Result<PlainWorld, Fault> {
    let set = servo_setting_of(&words_of(alloc, first)?)?;
    let off = offset_of(&words_of(alloc, second)?)?;
    PlainWorld::new(alloc, set, off).map_err(Fault::from)
}

/// What a world with a plain servo answers, event by event.
pub fn answer(alloc: Global, case: &Case) -> Result<Answer, Fault> {
    let (first, rest) = first_line(text_of(case)?);
    let (second, events) = first_line(rest);
    answer_of(alloc, &mut world_of(alloc, first, second)?, events)
}
