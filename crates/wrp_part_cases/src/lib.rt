//! `wrp_part_cases`: cases on the calls of the crates below a port: frames, TLVs, numbers, laws, phases, a loop and its
//! lock detector, a link, verdicts on handshakes and exchanges. Each module describes the cases of its kind. The
//! program `wrp_run_cases` has the cases, in `data/part/`.
#![tactic(auto)]

mod arithmetic;
mod controls;
mod exchanges;
mod frames;
mod links;
mod machines;
mod messages;
mod numbers;
mod printing;
mod states;
mod tables;
mod tlvs;
mod unwrapping;
mod verdicts;
mod words;

use std::alloc::Global;
use wrp_suite::{Answer, Case, Fault, Kinds};

/// The calls of the crates below a port.
pub struct Parts;

impl Kinds for Parts {
    fn answer(alloc: Global, case: &Case) -> Result<Answer, Fault> {
        match case.kind.as_str() {
            "frame" => frames::answer(alloc, case),
            "tlv" => tlvs::answer(alloc, case),
            "numbers" => numbers::answer(alloc, case),
            "table" => tables::answer(alloc, case),
            "unwrap" => unwrapping::answer(alloc, case),
            "pi" => controls::answer_of_loop(alloc, case),
            "lock" => controls::answer_of_lock(alloc, case),
            "link" => links::answer(alloc, case),
            "verdict" => verdicts::answer(alloc, case),
            "exchange" => exchanges::answer(alloc, case),
            _ => Err(Fault::Word),
        }
    }
}
