//! The node itself: its calls.
mod fits;
mod new;
mod puts;
mod states;
mod takes;

ghost use Rattle.std.specs.Prelude.{◌≡◌, ◌≤◌, length, true};
ghost use Rattle.wrp_node.specs.Control.{law_in};
ghost use Rattle.wrp_node.specs.Node.{IsValid, FitsInput, Tells, word_at, count_of, ticks_at, is_tick};
ghost use Rattle.wrp_node.specs.NodeAt.{state_of, locked_of, dac_of};
ghost use Rattle.wrp_node.specs.Parts.{is_among};
ghost use Rattle.wrp_node.specs.StandsFor.{Took};

use crate::control::Control;
use crate::parts::Parts;
use crate::{Input, Outputs};
use std::marker::Model;
use wrp_base::{LinkWord, ServoState};
use wrp_servo::told_last;

/// A whole node: what it is after a list of inputs, and what it puts out at each, is the node's run
/// (`StandsFor`).
#[derive(Drop)]
pub struct Node<F> {
    parts: Parts,
    control: Control<F>,
    report: u32,
}

impl<F> Model for Node<F> {
    ghost use Rattle.wrp_node.specs.StandsFor.{NodeOf};

    ghost Value = { NodeOf F };

    ghost view = { λ n. record { parts = n.parts; control = n.control; report = n.report } };
}

impl<F: Fn(i64) -> i64> Node<F> {
    /// Takes an input, and fills `outs` with what the node gives, in order: a step of the clock, a DAC
    /// value, the servo's state if it changed, for each port in ascending order its word if it
    /// changed and its frames, and a track report; at most 96. What `outs` had before is gone.
    pub fn step_into(&mut self, x: &Input, outs: &mut Outputs)
        requires valid { IsValid F.pre F.post self.old }
        requires input { FitsInput self.old x.now }
        ensures valid { IsValid F.pre F.post self.new }
        ensures law { law_in self.new.control ≡ law_in self.old.control }
        ensures took { Took F.post self.old self.new x.now outs.new.items }
        ensures room { length outs.new.items ≤ 96 }
    {
        told_last();
        self.parts.begin();
        let before = self.control.state();
        self.take(x);
        self.tell_lease();
        self.tell_link();
        self.put_out(before, is_tick(x), outs);
    }

    /// Takes an input, and returns what the node gives: as `step_into`, into outputs of its own.
    pub fn step(&mut self, x: &Input) -> Outputs
        requires valid { IsValid F.pre F.post self.old }
        requires input { FitsInput self.old x.now }
        ensures valid { IsValid F.pre F.post self.new }
        ensures law { law_in self.new.control ≡ law_in self.old.control }
        ensures took { Took F.post self.old self.new x.now result.items }
        ensures room { length result.items ≤ 96 }
    {
        let mut outs = Outputs::new();
        self.step_into(x, &mut outs);
        outs
    }

    /// The word of one of the node's ports.
    pub fn word(&self, port: u16) -> LinkWord
        requires { is_among port self.now.parts.ports ≡ true }
        ensures { Tells F.post (word_at port) self.now result }
    {
        self.parts.word(port)
    }

    /// The state of the servo: UNINIT for the grandmaster.
    pub fn servo(&self) -> ServoState
        ensures { Tells F.post state_of self.now result }
    {
        self.control.state()
    }

    /// Whether the lock detector is locked: false for the grandmaster.
    pub fn locked(&self) -> bool
        ensures { Tells F.post locked_of self.now result }
    {
        self.control.locked()
    }

    /// The last DAC value: the bias before any, and for the grandmaster.
    pub fn dac(&self) -> u16
        ensures { Tells F.post dac_of self.now result }
    {
        self.control.dac()
    }

    /// The ticks since the last reset.
    pub fn ticks(&self) -> u32
        ensures value { result ≡ self.now.parts.ticks }
        ensures run { Tells F.post ticks_at self.now result }
    {
        self.parts.ticks
    }

    /// How often one of the node's ports dropped something for the reason of this number, 1 to 15; held
    /// at the greatest u32. A reset leaves it as it is.
    pub fn count(&self, port: u16, reason: u8) -> u32
        requires port { is_among port self.now.parts.ports ≡ true }
        requires at_least { 1 ≤ reason }
        requires at_most { reason ≤ 15 }
        ensures { Tells F.post (count_of port reason) self.now result }
    {
        self.parts.times(port, reason)
    }
}

// Whether an input is a tick.
fn is_tick(x: &Input) -> bool
    ensures { result ≡ is_tick x.now }
{
    match x {
        Input::Tick => true,
        _ => false,
    }
}
