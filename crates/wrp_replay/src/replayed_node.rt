//! The replay of one node's recorded inputs.
ghost use Rattle.std.specs.Prelude.{pos, ◌≡◌, ◌<◌, ◌≤◌, ◌+◌, ◌++◌, [], ◌^◌, List, None, IfOk, OnOk};
ghost use Rattle.std.specs.List.{flat_map};
ghost use Rattle.wrp_network.specs.Network.{name_at, node_count};
ghost use Rattle.wrp_bounds.specs.Bounds.{path_of};
ghost use Rattle.wrp_config.specs.Accepted.{IsAccepted};
ghost use Rattle.wrp_lines.specs.Lines.{output_line_of};
ghost use Rattle.wrp_node.specs.NodeAt.{Taken as TakenInput};
ghost use Rattle.wrp_node.specs.StandsFor.{StandsFor};
ghost use Rattle.wrp_trace.specs.InputAt.{IsInputAt};
ghost use Rattle.wrp_trace.specs.Inputs.{read_of, IsReadInto};
ghost use Rattle.wrp_trace.specs.LineSetting.{line_setting_of};
ghost use Rattle.wrp_replay.specs.DownLaw.{IsLawAt, node_setting_at};
ghost use Rattle.wrp_records.specs.Split.{IsSplit};
ghost use Rattle.wrp_replay.specs.StandsFor.{HasTaken, IsReady, TookInput, line_setting_at};

use crate::counting::append_counts;
use crate::replayed::Replayed;
use csv::ByteRecord;
use std::alloc::{AllocError, Global};
use wrp_base::{Tau, TraceFault};
use wrp_bounds::path;
use wrp_law::DelayLaw;
use wrp_lines::append_line;
use wrp_node::{Input, Node, Output, Outputs, node_set, one_run};
use wrp_records::{Closing, Machine, Taken, refuse};
use wrp_trace::read_input_fields;

/// A node as far as it is replayed: the node, what its lines say of it, and two places that serve
/// record after record, one for an input and one for its outputs.
#[derive(Drop)]
pub struct ReplayedNode<'a, F: Fn(i64) -> i64> {
    replayed: Replayed<'a>,
    name: &'a str,
    bound: Tau,
    node: Node<F>,
    input: Input,
    outs: Outputs,
}

impl<'a, F: Fn(i64) -> i64> ReplayedNode<'a, F> {
    /// A node before its first record, with the law of the link above it. `AllocError` if memory
    /// runs out: no node is made.
    pub fn new(
        alloc: Global,
        replayed: Replayed<'a>,
        law: Option<DelayLaw<F>>,
    ) -> Result<ReplayedNode<'a, F>, AllocError>
        requires accepted { IsAccepted replayed.net.now.cfg replayed.net.now.db }
        requires node { replayed.node < node_count replayed.net.now.cfg }
        requires law { IsLawAt F.pre F.post (line_setting_at replayed) law }
        ensures ready { IfOk result (IsReady F.pre F.post) }
        ensures taken { IfOk result (λ held. HasTaken F.post held []) }
        ensures same { IfOk result (λ held. held.replayed ≡ replayed.entry) }
        ensures ticks { IfOk result (λ held. held.node.parts.ticks ≡ 0) }
    {
        let cfg = &replayed.net.cfg;
        let node = Node::new(alloc, node_set(cfg, replayed.node), law)?;
        Ok(ReplayedNode {
            replayed,
            name: name_of(replayed),
            bound: bound_of(replayed),
            node,
            input: Input::Tick,
            outs: Outputs::new(),
        })
    }

    // Takes the input at hand, and appends the lines that it writes.
    fn write(&mut self, alloc: Global, text: &mut Vec<u8>) -> Result<(), AllocError>
        requires ready { IsReady F.pre F.post self.old }
        requires input { IsInputAt (line_setting_of self.old.replayed.net.now self.old.replayed.node)
            self.old.input }
        requires room { self.old.node.parts.ticks + 1 < 2 ^ 32 }
        requires none { text.old.items ≡ [] }
        ensures ready { IsReady F.pre F.post self.new }
        ensures same { self.new.replayed ≡ self.old.replayed }
        ensures count { self.new.node.parts.ticks ≤ self.old.node.parts.ticks + 1 }
        ensures took { IfOk result (λ _. (inputs : List TakenInput)
            → StandsFor F.post (node_setting_at (line_setting_at self.old.replayed)) self.old.node inputs
            → TookInput F.post self.old self.new.node self.old.input inputs text.new.items) }
    {
        self.node.step_into(&self.input, &mut self.outs);
        let ticks = self.node.ticks();
        append_outputs(alloc, self.name, ticks, self.bound, &self.outs, text)
    }
}

impl<'a, F: Fn(i64) -> i64> Machine for ReplayedNode<'a, F> {
    ghost use Rattle.wrp_records.specs.LineMeaning.{bars_none};
    ghost use Rattle.wrp_replay.specs.Replays.{Accepts, Closes, Refuses};
    ghost use Rattle.wrp_replay.specs.StandsFor.{HasTaken, IsReady, line_setting_at};

    type Setting = Replayed<'a>;

    ghost setting = { λ s. s.replayed };

    ghost count = { λ s. s.node.parts.ticks };

    ghost is_ready = { IsReady F.pre F.post };

    ghost has_taken = { HasTaken F.post };

    ghost accepts = { λ replayed. Accepts (line_setting_at replayed) };

    ghost refuses = { λ replayed. Refuses (line_setting_at replayed) };

    ghost closes = { λ replayed. Closes (line_setting_at replayed) };

    ghost bars = { λ replayed. bars_none };

    fn take(
        &mut self,
        alloc: Global,
        line: &[u8],
        parts: Option<&ByteRecord>,
        number: u32,
        text: &mut Vec<u8>,
    ) -> Result<Taken, AllocError> {
        one_run();
        match read_parts(line, parts, self.replayed, &mut self.input) {
            Ok(()) => {
                self.write(alloc, text)?;
                Ok(Taken::Accepted)
            }
            Err(fault) => refuse(alloc, number, &fault, text),
        }
    }

    fn close(&self, _alloc: Global, text: &mut Vec<u8>) -> Result<Closing, AllocError> {
        append_counts(self.replayed, self.name, &self.node, text)?;
        Ok(Closing::Closed)
    }
}

// Puts what a line says to the node, by its parts, into `input`.
fn read_parts(
    line: &[u8],
    parts: Option<&ByteRecord>,
    replayed: Replayed<'_>,
    input: &mut Input,
) -> Result<(), TraceFault>
    requires { IsSplit line.now parts }
    ensures value { IsReadInto
        (read_of (line_setting_of replayed.entry.net.now replayed.entry.node) line.now) result
        input.old input.new }
    ensures input { OnOk result
        (IsInputAt (line_setting_of replayed.entry.net.now replayed.entry.node) input.new) }
{
    let _line = line;
    match parts {
        Some(row) => read_input_fields(row, replayed.net, replayed.node, input),
        None => Err(TraceFault::Fields),
    }
}

/// The name of the node.
#[tactic(auto, using(crate::proofs::BareSetting::name_bare))]
pub fn name_of<'a>(replayed: Replayed<'a>) -> &'a str
    requires { replayed.node < node_count replayed.net.now.cfg }
    ensures { result.now ≡ name_at (line_setting_at replayed.entry).cfg replayed.entry.node }
{
    replayed.net.cfg.nodes[usize::from(replayed.node)]
        .name
        .as_str()
}

// The bound of the node in TRACK.
#[tactic(auto, using(crate::proofs::BareSetting::path_bare))]
fn bound_of(replayed: Replayed<'_>) -> Tau
    requires accepted { IsAccepted replayed.net.now.cfg replayed.net.now.db }
    requires node { replayed.node < node_count replayed.net.now.cfg }
    ensures { result ≡ pos (path_of (line_setting_at replayed.entry).cfg replayed.entry.node) }
{
    path(&replayed.net.cfg, replayed.node)
}

// Appends the lines of a node's outputs at a tick.
fn append_outputs(
    alloc: Global,
    name: &str,
    ticks: u32,
    bound: Tau,
    outs: &[Output],
    text: &mut Vec<u8>,
) -> Result<(), AllocError>
    ensures { IfOk result (λ _. text.new.items ≡ text.old.items
        ++ flat_map (λ o. output_line_of name.now ticks o bound None) outs.now) }
{
    for out in outs {
        append_line(alloc, name, ticks, out, bound, None, text)?;
    }
    Ok(())
}
