//! The lines that name what is refused.
ghost use Rattle.std.specs.Prelude.{◌≡◌, ◌++◌, IfOk};
ghost use Rattle.std.specs.Fmt.{signed_decimal};
ghost use Rattle.std.specs.String.{string_bytes};
ghost use Rattle.wrp_records.specs.Refusals.{RefusesLine, bad_network_line, bad_trace_line, broken_words, code_name, code_of, field_of, name_of};

use crate::machine::{Refusal, Taken};
use std::alloc::{AllocError, Global};
use wrp_base::{Tau, TraceFault};

/// The only line of output if a text in front of all records is too large.
pub const TOO_LARGE_LINE: &str = "too-large 0\n";

// The name of a fault of a network or calibration text, by its code.
#[tactic(auto, unfolding(crate::specs::Refusals::code_name))]
fn network_fault(code: u8) -> &'static str
    ensures { result.now ≡ code_name code }
{
    match code {
        1 => "Syntax",
        2 => "UnknownKey",
        3 => "Missing",
        4 => "Range",
        5 => "Twice",
        7 => "NotATree",
        8 => "TwoSlaves",
        9 => "TooDeep",
        10 => "Clash",
        _ => "",
    }
}

/// The line of a network or calibration text that is refused. `AllocError` if memory runs out.
pub fn bad_network(alloc: Global, code: u8, place: &str) -> Result<String, AllocError>
    ensures { IfOk result (λ line. string_bytes line ≡ bad_network_line code place.now) }
{
    let name = network_fault(code);
    format!(in alloc; "bad-network {code} {name} {place}\n")
}

// The code of a line's fault.
fn code_of(fault: &TraceFault) -> u8
    ensures { result ≡ code_of fault.now }
{
    match fault {
        TraceFault::Fields => 1,
        TraceFault::Kind => 2,
        TraceFault::Number { .. } => 3,
        TraceFault::Name { .. } => 4,
        TraceFault::Memory(_) => 0,
    }
}

// The name of a line's fault.
fn name_of(fault: &TraceFault) -> &'static str
    ensures { result.now ≡ name_of fault.now }
{
    match fault {
        TraceFault::Fields => "Fields",
        TraceFault::Kind => "Kind",
        TraceFault::Number { .. } => "Number",
        TraceFault::Name { .. } => "Name",
        TraceFault::Memory(_) => "",
    }
}

// The field at fault, counted from 1; 0 if the whole line is at fault.
fn field_of(fault: &TraceFault) -> u32
    ensures { result ≡ field_of fault.now }
{
    match fault {
        TraceFault::Number { field } => *field,
        TraceFault::Name { field } => *field,
        _ => 0,
    }
}

// The line of a record that is refused.
fn bad_trace(alloc: Global, number: u32, fault: &TraceFault) -> Result<String, AllocError>
    ensures { IfOk result (λ line. string_bytes line ≡ bad_trace_line number fault.now) }
{
    let code = code_of(fault);
    let name = name_of(fault);
    let field = field_of(fault);
    format!(in alloc; "bad-trace {number} {code} {name} {field}\n")
}

// Appends the line of a record that is refused.
fn append_bad_trace(
    alloc: Global,
    text: &mut Vec<u8>,
    number: u32,
    fault: &TraceFault,
) -> Result<(), AllocError>
    ensures { IfOk result (λ _. text.new.items ≡ text.old.items ++ bad_trace_line number fault.now) }
{
    let line = bad_trace(alloc, number, fault)?;
    text.extend_from_slice(line.as_bytes())
}

/// Refuses a record for a fault of its line, and appends the line that names the fault.
/// `AllocError` if the fault is lack of memory, or if memory runs out for the line: then nothing is
/// known of `text`.
pub fn refuse(
    alloc: Global,
    number: u32,
    fault: &TraceFault,
    text: &mut Vec<u8>,
) -> Result<Taken, AllocError>
    ensures { IfOk result (RefusesLine fault.now number text.old.items text.new.items) }
{
    match fault {
        TraceFault::Memory(_) => return Err(AllocError),
        _ => {}
    }
    append_bad_trace(alloc, text, number, fault)?;
    Ok(Taken::Refused(Refusal::BadTrace))
}

// A side of a comparison in decimal, in the unit of its premise.
fn side(alloc: Global, value: Tau) -> Result<String, AllocError>
    ensures { IfOk result (λ text. string_bytes text ≡ signed_decimal value) }
{
    format!(in alloc; "{value}")
}

// The line of a record that breaks the premise with this number and name.
fn broken(
    alloc: Global,
    number: u32,
    premise: u8,
    name: &str,
    shown: Tau,
    bound: Tau,
) -> Result<String, AllocError>
    ensures { IfOk result (λ line. string_bytes line
        ≡ broken_words number premise name.now shown bound) }
{
    let shown = side(alloc, shown)?;
    let shown = shown.as_str();
    let bound = side(alloc, bound)?;
    let bound = bound.as_str();
    format!(in alloc; "broken {number} {premise} {name} {shown} {bound}\n")
}

/// Appends the line of a record that breaks the premise with this number and name, with both sides of
/// the comparison that fails. `AllocError` if memory runs out: then nothing is known of `text`.
pub fn append_broken_words(
    alloc: Global,
    text: &mut Vec<u8>,
    number: u32,
    premise: u8,
    name: &str,
    shown: Tau,
    bound: Tau,
) -> Result<(), AllocError>
    ensures { IfOk result (λ _. text.new.items ≡ text.old.items
        ++ broken_words number premise name.now shown bound) }
{
    let line = broken(alloc, number, premise, name, shown, bound)?;
    text.extend_from_slice(line.as_bytes())
}
