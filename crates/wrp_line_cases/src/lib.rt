//! `wrp_line_cases`: cases on lines and on the objects of the outside: what a line says to a node (`input`), what happens
//! in a network (`event`), what a run writes (`output`), and what a source, a sink and a link answer (`object`). The
//! program `wrp_run_cases` has the cases, in `data/line/`.
#![tactic(auto)]

mod carrying;
mod events;
mod inputs;
mod objects;
mod octets;
mod outputs;
mod parts;
mod scripted;
mod words;

use std::alloc::Global;
use wrp_suite::{Answer, Case, Fault, Kinds};

/// The calls that read and write lines, and the calls of the objects of the outside.
pub struct Lines;

impl Kinds for Lines {
    fn answer(alloc: Global, case: &Case) -> Result<Answer, Fault> {
        match case.kind.as_str() {
            "input" => inputs::answer(alloc, case),
            "event" => events::answer(alloc, case),
            "output" => outputs::answer(alloc, case),
            "object" => objects::answer(alloc, case),
            _ => Err(Fault::Word),
        }
    }
}
