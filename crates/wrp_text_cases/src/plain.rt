//! Cases on `Plain`: the input is a line with its settings (`plain_settings`), and then a line for each call:
//! `measured T1 T2 T3 T4` or `tick`. A line is expected for each call: `taken EST BOUND COMMAND`, `short ROUND LEAST`,
//! or of a tick `report EST BOUND`, or `nothing`.
use crate::machines::{Machine, answer_of};
use crate::plain_settings::{servo_setting_of, stamp_of};
use crate::words::{first_line, text_of, words_of};
use std::alloc::{AllocError, Global};
use wrp_plain::{Plain, PlainOut, PlainReport};
use wrp_suite::{Answer, Case, Fault};

// Appends what a tick reports.
fn tell_report(text: &mut String, report: Option<PlainReport>) -> Result<(), AllocError> {
    match report {
        Some(PlainReport { est, bound }) => write!(text, "report {est} {bound}\n"),
        None => text.push_str("nothing\n"),
    }
}

// Appends what a measurement gives.
fn tell_out(text: &mut String, out: PlainOut) -> Result<(), AllocError> {
    match out {
        PlainOut::Taken { report, command } => {
            let PlainReport { est, bound } = report;
            write!(text, "taken {est} {bound} {command}\n")
        }
        PlainOut::Short { round, least } => write!(text, "short {round} {least}\n"),
    }
}

// Ticks, and appends what that reports.
fn tick(text: &mut String, plain: &mut Plain) -> Result<(), Fault> {
    if plain.ticks() == u32::MAX {
        return Err(Fault::Condition);
    }
    tell_report(text, plain.tick()).map_err(Fault::from)
}

// Takes a measurement, and appends what it gives.
fn measured(text: &mut String, plain: &mut Plain, stamps: [&str; 4]) -> Result<(), Fault> {
    let [t1, t2, t3, t4] = stamps;
    let t1 = stamp_of(t1)?;
    let t2 = stamp_of(t2)?;
    let t3 = stamp_of(t3)?;
    let t4 = stamp_of(t4)?;
    tell_out(text, plain.measured(t1, t2, t3, t4)).map_err(Fault::from)
}

impl Machine for Plain {
    // Makes the call of a line.
    fn take(&mut self, text: &mut String, words: &[&str]) -> Result<(), Fault> {
        match *words {
            ["tick"] => tick(text, self),
            ["measured", t1, t2, t3, t4] => measured(text, self, [t1, t2, t3, t4]),
            _ => Err(Fault::Input),
        }
    }
}

// A servo with the settings of a line.
fn servo_of(alloc: Global, line: &str) -> Result<Plain, Fault> {
    let set = servo_setting_of(&words_of(alloc, line)?)?;
    Plain::new(alloc, set).map_err(Fault::from)
}

/// What a plain servo answers, call by call.
pub fn answer(alloc: Global, case: &Case) -> Result<Answer, Fault> {
    let (first, calls) = first_line(text_of(case)?);
    answer_of(alloc, &mut servo_of(alloc, first)?, calls)
}
