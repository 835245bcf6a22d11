//! The lines that are written for the events of a plain servo.
ghost use Rattle.std.specs.Prelude.{◌≡◌, ◌++◌, IfOk};
ghost use Rattle.std.specs.String.{string_bytes};
ghost use Rattle.wrp_plain.specs.LineText.{report_line, step_line, report_text, step_text, seen_text};

use crate::event::PlainSeen;
use crate::settings::PlainReport;
use std::alloc::{AllocError, Global};

/// Appends the lines of what an event gave, at this tick count: the line of its report, if it has one,
/// and after it the line of its command, if that is not 0. `AllocError` if memory runs out: then
/// nothing is known of `text`.
pub fn append_seen(
    alloc: Global,
    tick: u32,
    seen: PlainSeen,
    text: &mut Vec<u8>,
) -> Result<(), AllocError>
    ensures { IfOk result (λ _. text.new.items ≡ text.old.items ++ seen_text tick seen) }
{
    append_report(alloc, tick, seen.report, seen.off, text)?;
    append_step(alloc, tick, seen.command, text)
}

// Appends the line of a report, if there is one.
fn append_report(
    alloc: Global,
    tick: u32,
    report: Option<PlainReport>,
    off: i128,
    text: &mut Vec<u8>,
) -> Result<(), AllocError>
    ensures { IfOk result (λ _. text.new.items ≡ text.old.items ++ report_text tick report off) }
{
    match report {
        Some(report) => {
            let line = report_line(alloc, tick, report, off)?;
            text.extend_from_slice(line.as_bytes())
        }
        None => Ok(()),
    }
}

// The line of a report.
fn report_line(
    alloc: Global,
    tick: u32,
    report: PlainReport,
    off: i128,
) -> Result<String, AllocError>
    ensures { IfOk result (λ line. string_bytes line ≡ report_line tick report off) }
{
    let est = report.est;
    let bound = report.bound;
    format!(in alloc; "{tick} plain {est} {bound} true {off}\n")
}

// Appends the line of a command, if it is not 0.
fn append_step(alloc: Global, tick: u32, by: i64, text: &mut Vec<u8>) -> Result<(), AllocError>
    ensures { IfOk result (λ _. text.new.items ≡ text.old.items ++ step_text tick by) }
{
    if by == 0 {
        return Ok(());
    }
    let line = step_line(alloc, tick, by)?;
    text.extend_from_slice(line.as_bytes())
}

// The line of a command.
fn step_line(alloc: Global, tick: u32, by: i64) -> Result<String, AllocError>
    ensures { IfOk result (λ line. string_bytes line ≡ step_line tick by) }
{
    format!(in alloc; "{tick} step {by}\n")
}
