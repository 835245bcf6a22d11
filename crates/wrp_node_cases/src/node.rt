//! Cases on a node. Its word names the node (`sets`); the law of its link, if it has a slave port, is that both ways
//! are equal. A line of the input is what happens at the node, as `replay` takes it, and what the node puts out is
//! printed; after all lines come the counters that are not 0 (`inputs` and `lines` have both).
ghost use Rattle.std.specs.Prelude.{◌≡◌, ◌≤◌, ◌^◌, unsigned_abs, IfOk};
ghost use Rattle.wrp_law.specs.Law.{KeepsFact};
ghost use Rattle.wrp_node.specs.Node.{IsValid};

mod inputs;
mod lines;
mod sets;

use crate::told::{Told, text_of};
use inputs::input_of;
use lines::{tell, tell_counts};
use sets::{gm_set, leaf_set, star_set, sw1_set};
use std::alloc::Global;
use wrp_law::{DelayLaw, LawKind, floor_of};
use wrp_node::{Input, Node, Outputs};
use wrp_suite::{Answer, Case, Fault};

// The node of a word, before any input.
fn node_of<F: Fn(i64) -> i64>(alloc: Global, word: &str, law: DelayLaw<F>) -> Result<Node<F>, Fault>
    requires { KeepsFact F.pre F.post law }
    ensures { IfOk result (IsValid F.pre F.post) }
{
    let node = match word {
        "gm" => Node::new(alloc, gm_set(), None)?,
        "sw1" => Node::new(alloc, sw1_set(), Some(law))?,
        "leaf" => Node::new(alloc, leaf_set(), Some(law))?,
        "star" => Node::new(alloc, star_set(), None)?,
        _ => return Err(Fault::Input),
    };
    Ok(node)
}

// One input, if it can come.
fn take<F: Fn(i64) -> i64>(
    node: &mut Node<F>,
    input: &Input,
    outs: &mut Outputs,
) -> Result<(), Fault>
    requires { IsValid F.pre F.post node.old }
    ensures { IsValid F.pre F.post node.new }
{
    if !node.fits(input) {
        return Err(Fault::Condition);
    }
    node.step_into(input, outs);
    Ok(())
}

// All lines.
fn take_lines<F: Fn(i64) -> i64>(
    alloc: Global,
    node: &mut Node<F>,
    lines: &str,
    told: &mut Told,
) -> Result<(), Fault>
    requires { IsValid F.pre F.post node.old }
{
    let mut outs = Outputs::new();
    for line in lines.lines() {
        take(node, &input_of(alloc, line)?, &mut outs)?;
        tell(alloc, &outs, told)?;
    }
    Ok(())
}

// What follows from the inputs of a node with this law.
fn answer_by<F: Fn(i64) -> i64>(
    alloc: Global,
    case: &Case,
    law: DelayLaw<F>,
) -> Result<Answer, Fault>
    requires { KeepsFact F.pre F.post law }
{
    let [word] = case.words.as_slice() else {
        return Err(Fault::Input);
    };
    let mut node = node_of(alloc, word.as_str(), law)?;
    let mut told = Told::new(alloc);
    take_lines(alloc, &mut node, text_of(case)?, &mut told)?;
    tell_counts(alloc, &node, &mut told)?;
    Ok(told.answer())
}

/// What follows from the inputs of a node.
pub fn answer(alloc: Global, case: &Case) -> Result<Answer, Fault> {
    let law = DelayLaw::new(
        |x: i64|
            requires { unsigned_abs x ≤ 2 ^ 53 }
        { floor_of(0, x) },
        LawKind::Linear { kappa: 0 },
        -(1 << 30),
        1 << 53,
        1,
    );
    answer_by(alloc, case, law)
}
