//! The inputs of a port that come most often, each by a call of its own: it copies less than `step`.
ghost use Rattle.std.specs.Prelude.{◌≡◌, List, IfSome, IsTrue};
ghost use Rattle.wrp_base.specs.Calls.{Adds};
ghost use Rattle.wrp_base.specs.Message.{IsSound};
ghost use Rattle.wrp_exch.specs.Call.{Call};
ghost use Rattle.wrp_exch.specs.Exchange.{StandsFor as ExchangeStandsFor, HasTimes};
ghost use Rattle.wrp_link.specs.Table.{word_of};
ghost use Rattle.wrp_port.specs.declared.interface.PortIn.{PortIn};
ghost use Rattle.wrp_port.specs.Outputs.{sends_of, drop_of, measured_by, changed_word, is_dropped_early, IsPortReason};
ghost use Rattle.wrp_port.specs.PortAt.{IsStamp, StandsFor};

use super::{Port, change};
use crate::PortOut;
use arrayvec::ArrayVec;
use wrp_base::{PtpMsg, Stamp};

impl Port {
    /// Takes a tick of the node as `step` does, and fills `sends` with what the port sends. What
    /// `sends` had before is gone.
    pub fn tick_into(&mut self, locked: bool, certain: bool, sends: &mut ArrayVec<PtpMsg, 4>)
        ensures set { self.new.set ≡ self.old.set }
        ensures sends { sends.new.items
            ≡ sends_of self.old.set self.old.line (PortIn.Tick locked certain) }

        // The port stands for the list of its inputs.
        ensures stands { Adds StandsFor self.old self.new (PortIn.Tick locked certain) }
    {
        sends.clear();
        self.tick(locked, certain, sends);
    }

    /// Takes a turn of the lease as `step` does; the port sends nothing.
    pub fn turn_lease(&mut self)
        ensures set { self.new.set ≡ self.old.set }

        // The port stands for the list of its inputs.
        ensures stands { Adds StandsFor self.old self.new PortIn.Lease }
    {
        self.lease_turn();
    }

    /// Takes a good phase sample as `step` does, with its number and its unwrapped phase in tau; the
    /// port sends nothing.
    pub fn take_sample(&mut self, n: u32, u: i64)
        ensures set { self.new.set ≡ self.old.set }

        // The port stands for the list of its inputs.
        ensures stands { Adds StandsFor self.old self.new (PortIn.Sample n u) }
    {
        self.sample(n, u);
    }

    /// Takes a message as `step` does, and fills `out` with what `step` returns. What `out` had before
    /// is gone. What a None says, and what a dropped message leaves, is as for `step`.
    pub fn hear_into(&mut self, message: &PtpMsg, stamp: Stamp, tick: u32, out: &mut PortOut)
        requires sound { IsSound message.now }
        requires stamp { IsStamp stamp }
        ensures set { self.new.set ≡ self.old.set }
        ensures word { out.new.word
            ≡ changed_word (word_of self.old.line.link) (word_of self.new.line.link) }
        ensures sends { out.new.sends.items
            ≡ sends_of self.old.set self.old.line (PortIn.Msg message.now stamp tick) }
        ensures drop { (calls : List Call) → ExchangeStandsFor self.old.set.ring self.old.exchange calls →
            out.new.drop
            ≡ drop_of self.old.set self.old.line calls (PortIn.Msg message.now stamp tick) }
        ensures measured { (calls : List Call) → ExchangeStandsFor self.old.set.ring self.old.exchange calls →
            out.new.measured
            ≡ measured_by self.old.set self.old.line calls (PortIn.Msg message.now stamp tick) }

        // The port stands for the list of its inputs.
        ensures stands { Adds StandsFor self.old self.new (PortIn.Msg message.now stamp tick) }

        // A message of another domain, of a stranger, for another port, or in quiet time leaves no
        // trace.
        ensures silent { IsTrue (is_dropped_early self.old.set self.old.line (PortIn.Msg message.now stamp tick))
            → self.new ≡ self.old }
        ensures times { IfSome out.new.measured HasTimes }
        ensures reason { IsPortReason out.new.drop }
    {
        let before = self.line.link.word();
        out.sends.clear();
        let answer = self.hear(message, stamp, tick, &mut out.sends);
        out.word = change(before, self.line.link.word());
        out.drop = answer.drop;
        out.measured = answer.measured;
    }
}
