//! `wrp_text_cases`: cases on the calls that read texts, and on the machines beside a node. Each module says which
//! cases its call takes. The program `wrp_run_cases` has the cases, in `data/text/`.
#![tactic(auto)]

mod calibration;
mod database;
mod l1_message;
mod l1_pair;
mod l1_port;
mod lines;
mod machines;
mod modules;
mod network;
mod plain;
mod plain_settings;
mod plain_world;
mod refusal;
mod telling;
mod words;

use std::alloc::Global;
use wrp_suite::{Answer, Case, Fault, Kinds};

/// The calls that read texts, and the calls of the machines beside a node.
pub struct Texts;

impl Kinds for Texts {
    fn answer(alloc: Global, case: &Case) -> Result<Answer, Fault> {
        match case.kind.as_str() {
            "network" => network::answer(alloc, case),
            "database" => database::answer(alloc, case),
            "database_in" => database::answer_in(alloc, case),
            "calibration" => calibration::answer(alloc, case),
            "plain" => plain::answer(alloc, case),
            "plain_world" => plain_world::answer(alloc, case),
            "l1_message" => l1_message::answer(alloc, case),
            "l1_port" => l1_port::answer(alloc, case),
            "l1_pair" => l1_pair::answer(alloc, case),
            "block" => lines::answer_of_block(alloc, case),
            "line" => lines::answer_of_line(alloc, case),
            _ => Err(Fault::Word),
        }
    }
}
