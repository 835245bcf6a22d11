//! Cases on `Calib`: the input is a line `errors E D EP`, and then the runs, each `ref`, `straight` or `swapped` with
//! T1 to T4 and SKEW. The intervals of p, q, x, y and kappa are expected, a line each with both ends. Otherwise the
//! number is 1, 2 or 3, and the line `missing KIND`, `conflict NAME LO HI` or `short NAME LO`.
ghost use Rattle.std.specs.Prelude.{◌≤◌, ◌^◌};

use crate::machines::{Machine, take_all};
use crate::words::{first_line, from_to, natural, text_of, words_of};
use std::alloc::{AllocError, Global};
use wrp_calib::{Calib, CalibFault, CalibOut, RunKind, Span, Unknown};
use wrp_suite::{Answer, Case, Fault};

// A calibration with the errors of a line.
fn calibration_of(words: &[&str]) -> Result<Calib, Fault> {
    match *words {
        ["errors", e, d, ep] => Ok(Calib::new(
            natural(e, 0, 1_000_000_000)?,
            natural(d, 0, 1_000_000_000_000_000)?,
            natural(ep, 0, 1_000_000_000)?,
        )),
        _ => Err(Fault::Input),
    }
}

// How a run was wired.
fn kind_of(word: &str) -> Result<RunKind, Fault> {
    match word {
        "ref" => Ok(RunKind::Ref),
        "straight" => Ok(RunKind::Straight),
        "swapped" => Ok(RunKind::Swapped),
        _ => Err(Fault::Input),
    }
}

// A number of a run.
fn number_of(word: &str) -> Result<i64, Fault> {
    from_to(word, i64::MIN, i64::MAX)
}

// The numbers of a run.
fn numbers_of(words: [&str; 5]) -> Result<[i64; 5], Fault> {
    let [t1, t2, t3, t4, skew] = words;
    Ok([
        number_of(t1)?,
        number_of(t2)?,
        number_of(t3)?,
        number_of(t4)?,
        number_of(skew)?,
    ])
}

// Adds the run that words give.
fn add(calib: &mut Calib, words: &[&str]) -> Result<(), Fault> {
    let [kind, t1, t2, t3, t4, skew] = *words else {
        return Err(Fault::Input);
    };
    let numbers = numbers_of([t1, t2, t3, t4, skew])?;
    if !numbers.iter().all(|n| n.unsigned_abs() <= 1 << 60) {
        return Err(Fault::Condition);
    }
    calib.add(kind_of(kind)?, &numbers);
    Ok(())
}

impl Machine for Calib {
    // Adds a run. Nothing is printed of it.
    fn take(&mut self, _text: &mut String, words: &[&str]) -> Result<(), Fault> {
        add(self, words)
    }
}

// The word of a kind of runs.
fn word_of_kind(kind: RunKind) -> &'static str {
    match kind {
        RunKind::Ref => "ref",
        RunKind::Straight => "straight",
        RunKind::Swapped => "swapped",
    }
}

// The word of a delay.
fn word_of_name(name: Unknown) -> &'static str {
    match name {
        Unknown::P => "p",
        Unknown::Q => "q",
        Unknown::X => "x",
        Unknown::Y => "y",
    }
}

// Appends the line of an interval.
fn push_span(text: &mut String, name: &str, span: Span) -> Result<(), AllocError> {
    let Span { lo, hi } = span;
    write!(text, "{name} {lo} {hi}\n")
}

// Appends the lines of an answer.
fn tell_spans(text: &mut String, out: &CalibOut) -> Result<(), AllocError> {
    push_span(text, "p", out.p)?;
    push_span(text, "q", out.q)?;
    push_span(text, "x", out.x)?;
    push_span(text, "y", out.y)?;
    push_span(text, "kappa", out.kappa)
}

// Appends the line of a refusal.
fn tell_fault(text: &mut String, fault: CalibFault) -> Result<(), AllocError> {
    match fault {
        CalibFault::Missing { kind } => {
            let kind = word_of_kind(kind);
            write!(text, "missing {kind}\n")
        }
        CalibFault::Conflict { name, lo, hi } => {
            let name = word_of_name(name);
            write!(text, "conflict {name} {lo} {hi}\n")
        }
        CalibFault::Short { name, lo } => {
            let name = word_of_name(name);
            write!(text, "short {name} {lo}\n")
        }
    }
}

// The number of a refusal.
fn number_of_fault(fault: CalibFault) -> u8 {
    match fault {
        CalibFault::Missing { .. } => 1,
        CalibFault::Conflict { .. } => 2,
        CalibFault::Short { .. } => 3,
    }
}

// Appends what a calibration answers, and returns its number.
fn tell(text: &mut String, told: Result<CalibOut, CalibFault>) -> Result<u8, AllocError> {
    match told {
        Ok(out) => tell_spans(text, &out).map(|()| 0),
        Err(fault) => tell_fault(text, fault).map(|()| number_of_fault(fault)),
    }
}

/// What a calibration answers after its runs.
pub fn answer(alloc: Global, case: &Case) -> Result<Answer, Fault> {
    let (first, runs) = first_line(text_of(case)?);
    let mut calib = calibration_of(&words_of(alloc, first)?)?;
    let mut text = String::new(alloc);
    take_all(alloc, &mut text, &mut calib, runs)?;
    let status = tell(&mut text, calib.answer())?;
    Ok(Answer::of(status, text))
}
