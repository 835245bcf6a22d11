//! What a node does with each kind of input.
ghost use Rattle.std.specs.Prelude.{◌≡◌, ◌<◌, ◌+◌, ◌^◌, true};
ghost use Rattle.wrp_base.specs.Message.{IsSound};
ghost use Rattle.wrp_node.specs.Control.{HasTick, KeepsLaw, law_in};
ghost use Rattle.wrp_node.specs.Node.{FitsInput, HasTickFor, NodeLeads, NodeTakes, PortsTick, TakesFrame, TakesMessage, Takes, servo_has_tick, servo_has_sample, ticked, restarts, sent_at, carried_at};
ghost use Rattle.wrp_node.specs.Parts.{FitsRaw, is_among};
ghost use Rattle.wrp_node.specs.Telling.{with_lease, with_link};
ghost use Rattle.wrp_port.specs.PortAt.{IsStamp};

use super::Node;
use crate::Input;
use crate::ports::To;
use wrp_base::{Frame, Module, PtpMsg, Raw, Stamp};
use wrp_frame::decode;
use wrp_port::PortIn;

impl<F: Fn(i64) -> i64> Node<F> {
    // Takes an input, of whatever kind.
    pub(super) fn take(&mut self, x: &Input)
        requires law { KeepsLaw F.pre F.post self.old.control }
        requires input { FitsInput self.old x.now }
        requires ticks { HasTickFor self.old x.now }
        ensures law { KeepsLaw F.pre F.post self.new.control }
        ensures same_law { law_in self.new.control ≡ law_in self.old.control }
        ensures takes { Takes F.post x.now self.old self.new }
    {
        match x {
            Input::Tick => self.tick(),
            Input::Sample { n, base, bits } => self.sample(*n, *base, *bits),
            Input::Frame {
                port,
                bytes,
                raw,
                sample,
            } => self.frame(*port, bytes, raw, *sample),
            Input::Sent {
                port,
                seq,
                delay,
                stamp,
            } => self.sent(*port, *seq, *delay, *stamp),
            Input::Carrier { port, up, module } => self.carrier(*port, *up, *module),
            Input::Reset => self.reset(),
        }
    }

    // A tick. It is counted; then the lease has its turn, and the servo is given it if it changed; then
    // the servo has its tick, then the ports.
    fn tick(&mut self)
        requires law { KeepsLaw F.pre F.post self.old.control }
        requires room { self.old.parts.ticks + 1 < 2 ^ 32 }
        requires ticks { HasTick self.old.control }
        ensures law { KeepsLaw F.pre F.post self.new.control }
        ensures same_law { law_in self.new.control ≡ law_in self.old.control }
        ensures takes { NodeTakes F.post ticked self.old self.new }
    {
        self.parts.count_tick();
        self.tell_lease();
        self.servo_tick();
        self.ports_tick();
    }

    // Gives the servo the lease, if it changed.
    pub(super) fn tell_lease(&mut self)
        requires law { KeepsLaw F.pre F.post self.old.control }
        ensures law { KeepsLaw F.pre F.post self.new.control }
        ensures same_law { law_in self.new.control ≡ law_in self.old.control }
        ensures room { HasTick self.old.control → HasTick self.new.control }
        ensures lead { NodeLeads F.post with_lease self.old self.new }
    {
        let fresh = self.parts.lease();
        if self.control.owes_lease(fresh) {
            let out = self.control.lease(fresh);
            self.parts.take_answer(&out, 0);
        }
    }

    // Gives the servo WR_LINK_ON, if it changed.
    pub(super) fn tell_link(&mut self)
        requires law { KeepsLaw F.pre F.post self.old.control }
        ensures law { KeepsLaw F.pre F.post self.new.control }
        ensures same_law { law_in self.new.control ≡ law_in self.old.control }
        ensures lead { NodeLeads F.post with_link self.old self.new }
    {
        let on = self.parts.deltas();
        if self.control.owes_link(on) {
            let out = self.control.link(on);
            self.parts.take_answer(&out, 0);
        }
    }

    // The servo has its tick.
    fn servo_tick(&mut self)
        requires law { KeepsLaw F.pre F.post self.old.control }
        requires ticks { HasTick self.old.control }
        ensures law { KeepsLaw F.pre F.post self.new.control }
        ensures same_law { law_in self.new.control ≡ law_in self.old.control }
        ensures lead { NodeLeads F.post servo_has_tick self.old self.new }
    {
        let out = self.control.tick();
        self.parts.take_answer(&out, 0);
    }

    // The ports have their tick.
    fn ports_tick(&mut self)
        ensures control { self.new.control ≡ self.old.control }
        ensures lead { PortsTick F.post self.old self.new }
    {
        let locked = self.control.locked();
        let certain = self.control.certain();
        self.parts
            .give(To::Every, &PortIn::Tick { locked, certain });
    }

    // A sample.
    fn sample(&mut self, n: u32, base: u16, bits: u64)
        requires law { KeepsLaw F.pre F.post self.old.control }
        requires base { base < 16384 }
        ensures law { KeepsLaw F.pre F.post self.new.control }
        ensures same_law { law_in self.new.control ≡ law_in self.old.control }
        ensures takes { NodeTakes F.post (servo_has_sample n base bits) self.old self.new }
    {
        let out = self.control.sample(n, base, bits);
        self.parts.take_answer(&out, n);
    }

    // A frame of the node was sent: its port is given this.
    fn sent(&mut self, port: u16, seq: u16, delay: bool, stamp: Stamp)
        requires { IsStamp stamp }
        ensures control { self.new.control ≡ self.old.control }
        ensures takes { NodeTakes F.post (sent_at port seq delay stamp) self.old self.new }
    {
        let tick = self.parts.ticks;
        self.parts.give(
            To::One(port),
            &PortIn::Sent {
                delay,
                seq,
                stamp,
                tick,
            },
        );
    }

    // A carrier comes or goes.
    fn carrier(&mut self, port: u16, up: bool, own_module: Option<Module>)
        requires law { KeepsLaw F.pre F.post self.old.control }
        ensures law { KeepsLaw F.pre F.post self.new.control }
        ensures same_law { law_in self.new.control ≡ law_in self.old.control }
        ensures takes { NodeTakes F.post (carried_at port up own_module) self.old self.new }
    {
        self.parts.give(
            To::One(port),
            &PortIn::Carrier {
                up,
                module: own_module,
            },
        );
        let out = self.control.carrier(self.parts.is_slave(port), up);
        self.parts.take_answer(&out, 0);
    }

    // The node restarts.
    fn reset(&mut self)
        requires law { KeepsLaw F.pre F.post self.old.control }
        ensures law { KeepsLaw F.pre F.post self.new.control }
        ensures same_law { law_in self.new.control ≡ law_in self.old.control }
        ensures takes { NodeTakes F.post restarts self.old self.new }
    {
        self.parts.reset();
        let _out = self.control.reset();
    }

    // A frame: its first fault is counted, or its message reaches the port.
    fn frame(&mut self, port: u16, bytes: &Frame, raw: &Raw, sample: u32)
        requires law { KeepsLaw F.pre F.post self.old.control }
        requires port { is_among port self.old.parts.ports ≡ true }
        requires raw { FitsRaw raw.now }
        ensures law { KeepsLaw F.pre F.post self.new.control }
        ensures same_law { law_in self.new.control ≡ law_in self.old.control }
        ensures takes { TakesFrame F.post port bytes.now.items raw.now sample self.old self.new }
    {
        match decode(bytes.as_slice()) {
            Ok(message) => self.message(port, &message, raw, sample),
            Err(fault) => self.parts.count(port, Some(fault.number())),
        }
    }

    // A message: if it makes a measurement, the servo is given this.
    fn message(&mut self, port: u16, message: &PtpMsg, raw: &Raw, sample: u32)
        requires law { KeepsLaw F.pre F.post self.old.control }
        requires port { is_among port self.old.parts.ports ≡ true }
        requires sound { IsSound message.now }
        requires raw { FitsRaw raw.now }
        ensures law { KeepsLaw F.pre F.post self.new.control }
        ensures same_law { law_in self.new.control ≡ law_in self.old.control }
        ensures takes { TakesMessage F.post port message.now raw.now sample self.old self.new }
    {
        let four = self.parts.hear(port, message, raw, sample);
        if let Some(four) = four {
            let out = self.control.measured(&four);
            self.parts.take_answer(&out, 0);
        }
    }
}
