//! `wrp_node_cases`: cases on a node, and on a port and a servo by themselves. For each line of a case's input, what
//! follows from it is expected, a line each (`told`). The program `wrp_run_cases` has the cases, in `data/node/`.
#![tactic(auto)]

mod names;
mod node;
mod port;
mod servo;
mod told;

use std::alloc::Global;
use wrp_suite::{Answer, Case, Fault, Kinds};

/// A node, a port and a servo.
pub struct NodeParts;

impl Kinds for NodeParts {
    fn answer(alloc: Global, case: &Case) -> Result<Answer, Fault> {
        match case.kind.as_str() {
            "node" => node::answer(alloc, case),
            "port" => port::answer(alloc, case),
            "servo" => servo::answer(alloc, case),
            _ => Err(Fault::Word),
        }
    }
}
