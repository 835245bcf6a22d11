//! The lines that a calibration writes: its answer, or why there is none.
ghost use Rattle.std.specs.Prelude.{◌≡◌, ◌++◌, [], IfOk};
ghost use Rattle.std.specs.Fmt.{signed_decimal};
ghost use Rattle.std.specs.String.{string_bytes};
ghost use Rattle.wrp_calib.specs.LinesStand.{IsTold};
ghost use Rattle.wrp_calib.specs.Printing.{answer_lines, conflict_line, fault_line, interval_line, missing_line, name_of, short_line};
ghost use Rattle.wrp_calib.specs.Recorded.{ending_by};

use super::words::word_of;
use crate::calibration::{CalibFault, CalibOut, Unknown};
use crate::span::Span;
use std::alloc::{AllocError, Global};
use wrp_records::Closing;

// The name of a delay.
fn name_of(name: Unknown) -> &'static str
    ensures { result.now ≡ name_of name }
{
    match name {
        Unknown::P => "p",
        Unknown::Q => "q",
        Unknown::X => "x",
        Unknown::Y => "y",
    }
}

// A number in decimal.
fn decimal(alloc: Global, number: i128) -> Result<String, AllocError>
    ensures { IfOk result (λ text. string_bytes text ≡ signed_decimal number) }
{
    format!(in alloc; "{number}")
}

// The line of an interval.
fn interval(alloc: Global, name: &str, span: Span) -> Result<String, AllocError>
    ensures { IfOk result (λ line. string_bytes line ≡ interval_line name.now span) }
{
    let lo = decimal(alloc, span.lo)?;
    let lo = lo.as_str();
    let hi = decimal(alloc, span.hi)?;
    let hi = hi.as_str();
    format!(in alloc; "{name} {lo} {hi}\n")
}

// Appends the line of an interval.
fn append_interval(
    alloc: Global,
    name: &str,
    span: Span,
    text: &mut Vec<u8>,
) -> Result<(), AllocError>
    ensures { IfOk result (λ _. text.new.items ≡ text.old.items ++ interval_line name.now span) }
{
    let line = interval(alloc, name, span)?;
    text.extend_from_slice(line.as_bytes())
}

// Appends the five lines of an answer.
fn append_answer(alloc: Global, out: &CalibOut, text: &mut Vec<u8>) -> Result<(), AllocError>
    ensures { IfOk result (λ _. text.new.items ≡ text.old.items ++ answer_lines out.now) }
{
    append_interval(alloc, "p", out.p, text)?;
    append_interval(alloc, "q", out.q, text)?;
    append_interval(alloc, "x", out.x, text)?;
    append_interval(alloc, "y", out.y, text)?;
    append_interval(alloc, "kappa", out.kappa, text)
}

// The line of a record that did not come, by its word.
fn missing(alloc: Global, word: &str) -> Result<String, AllocError>
    ensures { IfOk result (λ line. string_bytes line ≡ missing_line word.now) }
{
    format!(in alloc; "bad-calib 1 Missing {word}\n")
}

// The line of an empty interval.
fn conflict(alloc: Global, name: Unknown, lo: i128, hi: i128) -> Result<String, AllocError>
    ensures { IfOk result (λ line. string_bytes line ≡ conflict_line name lo hi) }
{
    let name = name_of(name);
    let lo = decimal(alloc, lo)?;
    let lo = lo.as_str();
    let hi = decimal(alloc, hi)?;
    let hi = hi.as_str();
    format!(in alloc; "bad-calib 2 Conflict {name} {lo} {hi}\n")
}

// The line of a strand that may be too short.
fn short(alloc: Global, name: Unknown, lo: i128) -> Result<String, AllocError>
    ensures { IfOk result (λ line. string_bytes line ≡ short_line name lo) }
{
    let name = name_of(name);
    let lo = decimal(alloc, lo)?;
    let lo = lo.as_str();
    format!(in alloc; "bad-calib 3 Short {name} {lo}\n")
}

// The line of a refusal.
fn line_of_fault(alloc: Global, fault: CalibFault) -> Result<String, AllocError>
    ensures { IfOk result (λ line. string_bytes line ≡ fault_line fault) }
{
    match fault {
        CalibFault::Missing { kind } => missing(alloc, word_of(kind)),
        CalibFault::Conflict { name, lo, hi } => conflict(alloc, name, lo, hi),
        CalibFault::Short { name, lo } => short(alloc, name, lo),
    }
}

// Appends the line of a refusal.
fn append_fault(alloc: Global, fault: CalibFault, text: &mut Vec<u8>) -> Result<(), AllocError>
    ensures { IfOk result (λ _. text.new.items ≡ text.old.items ++ fault_line fault) }
{
    let line = line_of_fault(alloc, fault)?;
    text.extend_from_slice(line.as_bytes())
}

/// Appends the line of a record that did not come, by its word. `AllocError` if memory runs out: then
/// nothing is known of `text`.
pub fn append_missing(alloc: Global, word: &str, text: &mut Vec<u8>) -> Result<(), AllocError>
    ensures { IfOk result (λ _. text.new.items ≡ text.old.items ++ missing_line word.now) }
{
    let line = missing(alloc, word)?;
    text.extend_from_slice(line.as_bytes())
}

/// Appends an answer, or the line that says why there is none. `AllocError` if memory runs out: then
/// nothing is known of `text`.
pub fn append_told(
    alloc: Global,
    told: Result<CalibOut, CalibFault>,
    text: &mut Vec<u8>,
) -> Result<Closing, AllocError>
    requires { text.old.items ≡ [] }
    ensures { IfOk result (λ closing. IsTold (ending_by told) closing text.new.items) }
{
    match told {
        Ok(out) => {
            append_answer(alloc, &out, text)?;
            Ok(Closing::Closed)
        }
        Err(fault) => {
            append_fault(alloc, fault, text)?;
            Ok(Closing::BadCalib)
        }
    }
}
