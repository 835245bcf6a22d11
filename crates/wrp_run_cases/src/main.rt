//! `wrp_run_cases`: the program that runs all cases. Its words name case files; docs/CASES.md says what is in one. It
//! reports each case that differs on standard error, and prints `N passed, M failed`; if one failed, the process ends
//! with 1.
//!
//! The kinds of this crate are nine, on the top call. A case `run` hands its words and its input to `run`, and what the
//! sink takes and the number of the status are expected; `reads` and `writes` do so with each call of the source and of
//! the sink failing in its turn; `cuts` audits the first octets of an input, however many they are; `migrated` says
//! what the calibration text says that a run writes; `tracks` gives the bounds of a run's `track` lines; a `projection`
//! replays what an audit gives each of its nodes; `carried` is a loop over a link that carries what the case says; and
//! `number` gives the number of a status. All other kinds are in `wrp_part_cases`, `wrp_text_cases`, `wrp_node_cases`,
//! `wrp_line_cases` and `wrp_carrier_cases`. They are libraries, since a library costs only its proof, and a program
//! two builds of all that is below it.
#![tactic(auto)]

mod calls;
mod carried;
mod cuts;
mod migrated;
mod projections;
mod running;
mod runs;
mod scripted;
mod slow_sink;
mod slow_source;
mod statuses;
mod texts;
mod tracks;

use std::alloc::Global;
use std::io;
use std::process::ExitCode;
use wrp_carrier_cases::Carriers;
use wrp_line_cases::Lines;
use wrp_node_cases::NodeParts;
use wrp_part_cases::Parts;
use wrp_suite::{Answer, Case, Fault, Kinds, run_files};
use wrp_text_cases::Texts;

// The top call.
struct TopCall;

impl Kinds for TopCall {
    fn answer(alloc: Global, case: &Case) -> Result<Answer, Fault> {
        match case.kind.as_str() {
            "run" => Ok(runs::answer(alloc, case)?),
            "reads" => Ok(calls::reads(alloc, case)?),
            "writes" => Ok(calls::writes(alloc, case)?),
            "cuts" => cuts::answer(alloc, case),
            "migrated" => migrated::answer(alloc, case),
            "tracks" => Ok(tracks::answer(alloc, case)?),
            "projection" => projections::answer(alloc, case),
            "carried" => carried::answer(alloc, case),
            "number" => statuses::answer(alloc, case),
            _ => Err(Fault::Word),
        }
    }
}

// The calls of all crates.
struct AllCalls;

// What the calls of a crate answer, if the calls before them have no case of this kind.
fn or_else<K: Kinds>(
    before: Result<Answer, Fault>,
    alloc: Global,
    case: &Case,
) -> Result<Answer, Fault> {
    match before {
        Err(Fault::Word) => K::answer(alloc, case),
        known => known,
    }
}

impl Kinds for AllCalls {
    fn answer(alloc: Global, case: &Case) -> Result<Answer, Fault> {
        let top_call = TopCall::answer(alloc, case);
        let part = or_else::<Parts>(top_call, alloc, case);
        let text = or_else::<Texts>(part, alloc, case);
        let node = or_else::<NodeParts>(text, alloc, case);
        let line = or_else::<Lines>(node, alloc, case);
        or_else::<Carriers>(line, alloc, case)
    }
}

fn main(rt: HostRuntime) -> io::Result<ExitCode> {
    let passed = run_files::<AllCalls, HostRuntime>(&rt)?;
    Ok(ExitCode::from(if passed { 0 } else { 1 }))
}
