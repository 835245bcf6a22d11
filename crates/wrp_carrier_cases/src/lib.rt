//! `wrp_carrier_cases`: cases of kind `carrier`, in which a simulated network of three nodes loses a carrier and has it
//! back half a second later, at many moments of its course. The words FROM, TO and STEP are these moments, in ms. For each
//! of them there are two runs up to a second after it: in one the upper fibre is cut and joined again, in the other the
//! switch goes down and comes up again. After every event each port in WR_LINK_ON is judged by the histories of both ends
//! of its link, and each node that is up and in TRACK or HOLDOVER is compared with its bound there.
//!
//! The events come to two worlds, side by side, whose nodes have to make the same steps. If one of them had no memory
//! for an event, it is as it was, and the event comes to it once more.
//!
//! What is expected is how many runs, events, steps, judged ports and compared nodes there were. Before it is a line
//! for each run that failed, with why it did. The number is 1 if a run failed, or if there was nothing of one sort to
//! test, else 0. The program `wrp_run_cases` has such a case, in `data/carriers.cases`.
#![tactic(auto)]

mod checking;
mod counts;
mod course;
mod failure;
mod plan;

use counts::Counts;
use course::run_plan;
use plan::{LOSSES, Plan, Span};
use std::alloc::{AllocError, Global};
use wrp_suite::{Answer, Case, Fault, Kinds};

/// Runs of a network that loses a carrier.
pub struct Carriers;

// The span that the words of a case say.
fn span_of(case: &Case) -> Result<Span, Fault> {
    let [from, to, step] = case.words.as_slice() else {
        return Err(Fault::Input);
    };
    Span::of(from.as_str(), to.as_str(), step.as_str()).ok_or(Fault::Number)
}

// Runs a plan, and appends why it failed.
fn try_plan(
    alloc: Global,
    text: &mut String,
    plan: Plan,
    counts: &mut Counts,
) -> Result<(), AllocError> {
    counts.run();
    match run_plan(alloc, plan, counts) {
        Ok(()) => Ok(()),
        Err(failure) => {
            counts.fail();
            text.push_str(format!(in alloc; "{plan}: {failure}\n")?.as_str())
        }
    }
}

// Runs all plans of a span.
fn try_span(alloc: Global, text: &mut String, span: Span) -> Result<Counts, AllocError> {
    let mut counts = Counts::new();
    for number in 0..span.count() {
        for loss in LOSSES {
            let plan = Plan {
                moment: span.moment(number),
                loss,
            };
            try_plan(alloc, text, plan, &mut counts)?;
        }
    }
    Ok(counts)
}

// What the runs of a span come to.
fn answer_of(alloc: Global, case: &Case) -> Result<Answer, Fault> {
    let span = span_of(case)?;
    let mut text = String::new(alloc);
    let counts = try_span(alloc, &mut text, span)?;
    text.push_str(format!(in alloc; "{counts}\n")?.as_str())?;
    let status = if counts.passed() { 0 } else { 1 };
    Ok(Answer::of(status, text))
}

impl Kinds for Carriers {
    fn answer(alloc: Global, case: &Case) -> Result<Answer, Fault> {
        match case.kind.as_str() {
            "carrier" => answer_of(alloc, case),
            _ => Err(Fault::Word),
        }
    }
}
