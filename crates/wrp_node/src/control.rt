//! The servo of a node. A node has one if and only if it has a slave port.
ghost use Rattle.std.specs.Prelude.{◌≡◌, ◌<◌, ℤ, false, [], Some, is_some, IfSome};
ghost use Rattle.wrp_data.specs.Reason.{IsReason};
ghost use Rattle.wrp_law.specs.Law.{KeepsFact};
ghost use Rattle.wrp_node.specs.Control.{ControlStands, AddsCalls, KeepsLaw, HasTick, HasNothing, law_in, lease_call, link_call, carrier_call, state_in, locked_in, certain_in, dac_in, tracked_in};
ghost use Rattle.wrp_node.specs.Telling.{no_answer};
ghost use Rattle.wrp_servo.specs.Call.{CallSample, CallMeasured, CallTick, CallReset};
ghost use Rattle.wrp_node.specs.declared.interface.NodeSet.{NodeSet};
ghost use Rattle.wrp_node.specs.New.{node_setting_of};
ghost use Rattle.wrp_node.specs.NodeAt.{slave_of};
ghost use Rattle.wrp_servo.specs.Sizes.{FitsTimes, FitsServoSet};

use crate::told::Told;
use std::marker::Model;
use wrp_base::{ChainNews, Deltas, Four, ServoState, Tau};
use wrp_law::DelayLaw;
use wrp_servo::{ServoOut, ServoSet};

/// The servo, if the node has one.
#[derive(Drop)]
pub struct Control<F> {
    told: Option<Told<F>>,
    bias: u16,
}

impl<F> Model for Control<F> {
    ghost use Rattle.wrp_node.specs.Control.{ControlOf};

    ghost Value = { ControlOf F };

    ghost view = { λ c. record { told = c.told; bias = c.bias } };
}

// The servo is given nothing, and nothing follows from it.
fn no_answer() -> ServoOut
    ensures { result ≡ no_answer }
{
    ServoOut {
        cycles: 0,
        dac: None,
        unwrapped: None,
        chain: ChainNews::Same,
        refused: None,
    }
}

impl<F: Fn(i64) -> i64> Control<F> {
    /// The servo before any call, if there is a law for it.
    pub fn of(set: ServoSet, law: Option<DelayLaw<F>>) -> Control<F>
        requires set { FitsServoSet set }
        requires fact { IfSome law (KeepsFact F.pre F.post) }
        ensures law { KeepsLaw F.pre F.post result }
        ensures given { law_in result ≡ law }
        ensures stands { (cfg : NodeSet) → cfg.servo ≡ set → is_some law ≡ is_some (slave_of cfg) →
            ControlStands F.post (node_setting_of cfg law) [] result }
    {
        let told = match law {
            Some(law) => Some(Told::of(set, law)),
            None => None,
        };
        Control {
            told,
            bias: set.bias,
        }
    }

    /// A sample, with its number, its base below 16384 and its 64 beat bits.
    pub fn sample(&mut self, n: u32, base: u16, bits: u64) -> ServoOut
        requires base { base < 16384 }
        requires law { KeepsLaw F.pre F.post self.old }
        ensures law { KeepsLaw F.pre F.post self.new }
        ensures same_law { law_in self.new ≡ law_in self.old }
        ensures calls { AddsCalls F.post self.old self.new (λ _. Some (CallSample n base bits)) result }
        ensures reason { IsReason result.refused }
    {
        match &mut self.told {
            Some(told) => told.sample(n, base, bits),
            None => no_answer(),
        }
    }

    /// A tick.
    pub fn tick(&mut self) -> ServoOut
        requires room { HasTick self.old }
        requires law { KeepsLaw F.pre F.post self.old }
        ensures law { KeepsLaw F.pre F.post self.new }
        ensures same_law { law_in self.new ≡ law_in self.old }
        ensures calls { AddsCalls F.post self.old self.new (λ _. Some CallTick) result }
        ensures reason { IsReason result.refused }
    {
        match &mut self.told {
            Some(told) => told.tick(),
            None => no_answer(),
        }
    }

    /// Whether the lease differs from the one that the servo was last given. Most often it does not; then no answer is
    /// made.
    pub fn owes_lease(&self, fresh: bool) -> bool
        ensures { result ≡ false → HasNothing F.post self.now (lease_call fresh) }
    {
        match &self.told {
            Some(told) => told.lease != fresh,
            None => false,
        }
    }

    /// Gives the servo the lease, if it differs from the one last given.
    pub fn lease(&mut self, fresh: bool) -> ServoOut
        requires law { KeepsLaw F.pre F.post self.old }
        ensures law { KeepsLaw F.pre F.post self.new }
        ensures same_law { law_in self.new ≡ law_in self.old }
        ensures calls { AddsCalls F.post self.old self.new (lease_call fresh) result }
        ensures room { HasTick self.old → HasTick self.new }
        ensures reason { IsReason result.refused }
    {
        match &mut self.told {
            Some(told) if told.lease != fresh => told.lease(fresh),
            _ => no_answer(),
        }
    }

    /// Whether the link, on or off, differs from what the servo was last given.
    pub fn owes_link(&self, on: Option<Deltas>) -> bool
        ensures { result ≡ false → HasNothing F.post self.now (link_call on) }
    {
        match &self.told {
            Some(told) => told.link != on.is_some(),
            None => false,
        }
    }

    /// Gives the servo the link, on with its four delays or off, if this differs from what it was last given.
    pub fn link(&mut self, on: Option<Deltas>) -> ServoOut
        requires law { KeepsLaw F.pre F.post self.old }
        ensures law { KeepsLaw F.pre F.post self.new }
        ensures same_law { law_in self.new ≡ law_in self.old }
        ensures calls { AddsCalls F.post self.old self.new (link_call on) result }
        ensures reason { IsReason result.refused }
    {
        match &mut self.told {
            Some(told) if told.link != on.is_some() => told.link(on),
            _ => no_answer(),
        }
    }

    /// The carrier of the slave port came or went.
    pub fn carrier(&mut self, of_slave: bool, up: bool) -> ServoOut
        requires law { KeepsLaw F.pre F.post self.old }
        ensures law { KeepsLaw F.pre F.post self.new }
        ensures same_law { law_in self.new ≡ law_in self.old }
        ensures calls { AddsCalls F.post self.old self.new (λ _. carrier_call of_slave up) result }
        ensures reason { IsReason result.refused }
    {
        match &mut self.told {
            Some(told) if of_slave => told.carrier(up),
            _ => no_answer(),
        }
    }

    /// The node restarts.
    pub fn reset(&mut self) -> ServoOut
        requires law { KeepsLaw F.pre F.post self.old }
        ensures law { KeepsLaw F.pre F.post self.new }
        ensures same_law { law_in self.new ≡ law_in self.old }
        ensures calls { AddsCalls F.post self.old self.new (λ _. Some CallReset) result }
        ensures reason { IsReason result.refused }
    {
        match &mut self.told {
            Some(told) => told.reset(),
            None => no_answer(),
        }
    }

    /// A measurement.
    pub fn measured(&mut self, four: &Four) -> ServoOut
        requires law { KeepsLaw F.pre F.post self.old }
        requires four { FitsTimes four.now }
        ensures law { KeepsLaw F.pre F.post self.new }
        ensures same_law { law_in self.new ≡ law_in self.old }
        ensures calls { (y : ℤ) × AddsCalls F.post self.old self.new (λ _. Some (CallMeasured four.now y)) result }
        ensures reason { IsReason result.refused }
    {
        match &mut self.told {
            Some(told) => told.measured(four),
            None => no_answer(),
        }
    }

    /// The state of the servo; UNINIT if there is none.
    pub fn state(&self) -> ServoState
        ensures { result ≡ state_in self.now.told }
    {
        match &self.told {
            Some(told) => told.servo.state(),
            None => ServoState::Uninit,
        }
    }

    /// Whether the lock detector is locked; false if there is none.
    pub fn locked(&self) -> bool
        ensures { result ≡ locked_in self.now.told }
    {
        match &self.told {
            Some(told) => told.servo.locked(),
            None => false,
        }
    }

    /// Whether the node's time is certain: it has no servo, or one in TRACK.
    pub fn certain(&self) -> bool
        ensures { result ≡ certain_in self.now.told }
    {
        match &self.told {
            Some(told) => told.servo.tracking(),
            None => true,
        }
    }

    /// The last DAC value; the bias if there is no servo.
    pub fn dac(&self) -> u16
        ensures { result ≡ dac_in self.now.bias self.now.told }
    {
        match &self.told {
            Some(told) => told.servo.dac(),
            None => self.bias,
        }
    }

    /// The offset from the parent, in tau, in TRACK alone. None if the node has no servo, if its servo
    /// is in another state, or if it has no measurement to reckon from; nothing changes.
    pub fn tracked(&self) -> Option<Tau>
        ensures { result ≡ tracked_in self.now.told }
    {
        match &self.told {
            Some(told) if told.servo.tracking() => told.servo.est(),
            _ => None,
        }
    }
}
