//! What a node puts out at the end of an input.
ghost use Rattle.std.specs.Prelude.{◌≡◌, ◌≤◌, ◌+◌, ◌++◌, ◌∷◌, [], length};
ghost use Rattle.std.specs.List.{AllByRecursion};
ghost use Rattle.wrp_base.specs.Message.{IsSound};
ghost use Rattle.wrp_node.specs.declared.interface.Output.TheVariants as out;
ghost use Rattle.wrp_node.specs.Node.{puts_out, track_in};
ghost use Rattle.wrp_node.specs.NodeRun.{step_out, dac_out, servo_out, est_out};
ghost use Rattle.wrp_node.specs.Spelled.{AllSpelled};

use super::Node;
use crate::place::push_report;
use crate::{Output, Outputs, Report};
use wrp_base::{ServoState, Tau};

impl<F: Fn(i64) -> i64> Node<F> {
    // Fills the outputs; `before` is the state of the servo before the input.
    pub(super) fn put_out(&self, before: ServoState, tick: bool, outs: &mut Outputs)
        requires sound { AllByRecursion (λ place. AllByRecursion IsSound place.sends.items) self.now.parts.ports }
        requires report { 1 ≤ self.now.report }
        ensures items { outs.new.items ≡ puts_out before tick self.now }
        ensures spelled { AllSpelled self.now.parts.ports }
        ensures room { length outs.new.items ≤ 96 }
    {
        outs.clear();
        put_step(self.parts.cycles, outs);
        put_dac(self.parts.dac, outs);
        put_state(before, self.control.state(), outs);
        self.parts.ports.put_out(outs);
        put_track(self.track(tick), outs);
    }

    // The offset to report.
    fn track(&self, tick: bool) -> Option<Tau>
        requires { 1 ≤ self.now.report }
        ensures { result ≡ track_in tick self.now }
    {
        if tick && self.parts.ticks % self.report == 0 {
            self.control.tracked()
        } else {
            None
        }
    }
}

// A step of the clock, if it is not 0.
fn put_step(cycles: i64, outs: &mut Outputs)
    requires room { length outs.old.items + 1 ≤ 96 }
    ensures items { outs.new.items ≡ outs.old.items ++ step_out cycles }
    ensures room { length outs.new.items ≤ length outs.old.items + 1 }
{
    if cycles.unsigned_abs() != 0 {
        push_step(cycles, outs);
    }
}

// A step of the clock. Each output is made in a call of its own, so that an input that has none of
// its kind fills no room for it.
fn push_step(cycles: i64, outs: &mut Outputs)
    requires room { length outs.old.items + 1 ≤ 96 }
    ensures items { outs.new.items ≡ outs.old.items ++ (out.Step cycles ∷ []) }
    ensures room { length outs.new.items ≡ length outs.old.items + 1 }
{
    outs.push(Output::Step { cycles });
}

// A DAC value, if there is a new one.
fn put_dac(dac: Option<u16>, outs: &mut Outputs)
    requires room { length outs.old.items + 1 ≤ 96 }
    ensures items { outs.new.items ≡ outs.old.items ++ dac_out dac }
    ensures room { length outs.new.items ≤ length outs.old.items + 1 }
{
    if let Some(value) = dac {
        push_dac(value, outs);
    }
}

// A DAC value.
fn push_dac(value: u16, outs: &mut Outputs)
    requires room { length outs.old.items + 1 ≤ 96 }
    ensures items { outs.new.items ≡ outs.old.items ++ (out.Dac value ∷ []) }
    ensures room { length outs.new.items ≡ length outs.old.items + 1 }
{
    outs.push(Output::Dac { value });
}

// The state of the servo, if it changed.
fn put_state(before: ServoState, after: ServoState, outs: &mut Outputs)
    requires room { length outs.old.items + 1 ≤ 96 }
    ensures items { outs.new.items ≡ outs.old.items ++ servo_out before after }
    ensures room { length outs.new.items ≤ length outs.old.items + 1 }
{
    if before != after {
        push_report(Report::Servo(after), outs);
    }
}

// A track report, if there is one.
fn put_track(est: Option<Tau>, outs: &mut Outputs)
    requires room { length outs.old.items + 1 ≤ 96 }
    ensures items { outs.new.items ≡ outs.old.items ++ est_out est }
    ensures room { length outs.new.items ≤ length outs.old.items + 1 }
{
    if let Some(est) = est {
        push_report(Report::Track { est }, outs);
    }
}
