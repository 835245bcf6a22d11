//! The port itself: its calls.
mod hears;
mod takes;
mod tells;

ghost use Rattle.std.specs.Prelude.{◌≡◌, ◌≤◌, nat_lt, ℕ, List, [], IfOk, IfSome, IsTrue};
ghost use Rattle.wrp_base.specs.Calls.{Adds};
ghost use Rattle.wrp_exch.specs.Call.{Call};
ghost use Rattle.wrp_exch.specs.Exchange.{StandsFor as ExchangeStandsFor, HasTimes};
ghost use Rattle.wrp_link.specs.LinkAt.{new_link};
ghost use Rattle.wrp_link.specs.Order.{Told};
ghost use Rattle.wrp_link.specs.Table.{word_of};
ghost use Rattle.wrp_port.specs.declared.interface.PortIn.{PortIn};
ghost use Rattle.wrp_port.specs.History.{link_inputs, is_fresh};
ghost use Rattle.wrp_port.specs.Outputs.{sends_of, drop_of, measured_by, changed_word, is_dropped_early, IsPortReason};
ghost use Rattle.wrp_port.specs.PortAt.{IsFit, StandsFor, deltas_of};

use crate::line::Rest;
use crate::setting::Setting;
use crate::{PortIn, PortOut, Sched};
use std::alloc::{AllocError, Global};
use std::marker::Model;
use wrp_base::{Deltas, Four, LinkState, LinkWord, Module, Role};
use wrp_data::{DefaultDs, PortDs, Reason};
use wrp_exch::Exchange;
use wrp_link::LinkSet;

/// One port of a node.
#[derive(Debug, Drop)]
pub struct Port {
    set: Setting,
    line: Rest,
    exchange: Exchange,
}

impl Model for Port {
    ghost use Rattle.wrp_port.specs.PortAt.{PortAt, IsSetting};

    ghost Value = { PortAt };

    ghost view = { λ p. record { set = p.set; line = p.line; exchange = p.exchange } };

    ghost invariant = { λ p. IsSetting p.set };
}

// What a port answers, except its word and what it sends.
#[derive(Drop)]
struct Answer {
    // The number of the reason for which a message was dropped.
    drop: Option<u8>,
    // A new measurement.
    measured: Option<Four>,
}

impl Port {
    /// A port without carrier, whose exchange knows the last `ring` good samples: 1 to 4096. It takes
    /// all the memory that it will need. `default` is what its node knows of itself. AllocError where
    /// the memory of the exchange is not to be had: then there is no port.
    pub fn new(
        alloc: Global,
        ds: PortDs,
        default: DefaultDs,
        set: LinkSet,
        sched: Sched,
        ring: usize,
    ) -> Result<Port, AllocError>
        requires quiet { 1 ≤ set.quiet }
        requires wait { 1 ≤ set.wait }
        requires lock_wait { 1 ≤ set.lock_wait }
        requires announce { 1 ≤ sched.announce }
        requires sync { 1 ≤ sched.sync }
        requires delay { 1 ≤ sched.delay }
        requires lease { 1 ≤ sched.lease }
        requires least { 1 ≤ ring }
        requires greatest { ring ≤ 4096 }
        ensures set { IfOk result (λ port.
            port.set ≡ record { own = default; ds = ds; link = set; sched = sched; ring = ring }) }
        ensures stands { IfOk result (λ port. StandsFor port []) }
    {
        let exchange = Exchange::new(alloc, ring)?;
        let set = Setting {
            own: default,
            ds,
            link: set,
            sched,
            ring,
        };
        Ok(Port {
            line: Rest::new(&set),
            set,
            exchange,
        })
    }

    /// Takes one input, and returns the new word, what the port sends, why a message was dropped, and a
    /// new measurement. A stamp's value is 0 to `2^93`.
    /// `word` is None if the word stays, `drop` if no message was dropped, `measured` if the input made
    /// no pair or the other pair is missing. A message that is dropped for the reasons 9 to 12 leaves
    /// the port as it was. One that is dropped for 13, as of no use, leaves link, lease, schedule,
    /// sequenceIds and both pairs as they were; but a Follow_Up removes the Sync of its sequenceId that
    /// waits for it, if the sample of that Sync is no longer known.
    pub fn step(&mut self, input: PortIn) -> PortOut
        requires { IsFit input }
        ensures set { self.new.set ≡ self.old.set }
        ensures word { result.word
            ≡ changed_word (word_of self.old.line.link) (word_of self.new.line.link) }
        ensures sends { result.sends.items ≡ sends_of self.old.set self.old.line input }
        ensures drop { (calls : List Call) → ExchangeStandsFor self.old.set.ring self.old.exchange calls →
            result.drop ≡ drop_of self.old.set self.old.line calls input }
        ensures measured { (calls : List Call) → ExchangeStandsFor self.old.set.ring self.old.exchange calls →
            result.measured ≡ measured_by self.old.set self.old.line calls input }

        // The port stands for the list of its inputs.
        ensures stands { Adds StandsFor self.old self.new input }

        // A message of another domain, of a stranger, for another port, or in quiet time leaves no
        // trace.
        ensures silent { IsTrue (is_dropped_early self.old.set self.old.line input) → self.new ≡ self.old }
        ensures times { IfSome result.measured HasTimes }
        ensures reason { IsPortReason result.drop }
    {
        let mut out = PortOut::new();
        self.step_into(input, &mut out);
        out
    }

    /// Takes one input, and fills `out` with what `step` returns. What `out` had before is gone. What a
    /// None says, and what a dropped message leaves, is as for `step`.
    pub fn step_into(&mut self, input: PortIn, out: &mut PortOut)
        requires { IsFit input }
        ensures set { self.new.set ≡ self.old.set }
        ensures word { out.new.word
            ≡ changed_word (word_of self.old.line.link) (word_of self.new.line.link) }
        ensures sends { out.new.sends.items ≡ sends_of self.old.set self.old.line input }
        ensures drop { (calls : List Call) → ExchangeStandsFor self.old.set.ring self.old.exchange calls →
            out.new.drop ≡ drop_of self.old.set self.old.line calls input }
        ensures measured { (calls : List Call) → ExchangeStandsFor self.old.set.ring self.old.exchange calls →
            out.new.measured ≡ measured_by self.old.set self.old.line calls input }

        // The port stands for the list of its inputs.
        ensures stands { Adds StandsFor self.old self.new input }

        // A message of another domain, of a stranger, for another port, or in quiet time leaves no
        // trace.
        ensures silent { IsTrue (is_dropped_early self.old.set self.old.line input) → self.new ≡ self.old }
        ensures times { IfSome out.new.measured HasTimes }
        ensures reason { IsPortReason out.new.drop }
    {
        let before = self.line.link.word();
        out.sends.clear();
        let answer = self.take(input, &mut out.sends);
        out.word = change(before, self.line.link.word());
        out.drop = answer.drop;
        out.measured = answer.measured;
    }

    /// Whether the lease of the parent's time is fresh: an Announce without synchronizationUncertain
    /// came fewer turns of the lease ago than it has, with no loss of the carrier and no reset since.
    pub fn lease(&self) -> bool
        ensures value { result ≡ nat_lt 0 self.now.line.lease }
        ensures fresh { (inputs : List PortIn) → StandsFor self.now inputs → result ≡ is_fresh self.now.set inputs }
    {
        self.line.lease > 0
    }

    /// The four delays of the link, each in tau: Some if and only if this is a slave port in WR_LINK_ON.
    /// The master's delays are the ones that it reported in this handshake. None at a master, and in
    /// each other state of the link. The port stays as it is.
    pub fn deltas(&self) -> Option<Deltas>
        ensures value { result ≡ deltas_of self.now.set.ds.role self.now.line.link }
        ensures told { (inputs : List PortIn) → StandsFor self.now inputs →
            IfSome result (λ deltas.
            Told (new_link self.now.set.ds.role self.now.set.link) (link_inputs self.now.set inputs)
            deltas.txm deltas.rxm) }
    {
        self.link_deltas()
    }

    /// What the port reports of its link.
    pub fn word(&self) -> LinkWord
        ensures { result ≡ word_of self.now.line.link }
    {
        self.line.link.word()
    }

    /// The state of the port's link.
    pub fn state(&self) -> LinkState
        ensures { result ≡ self.now.line.link.state }
    {
        self.line.link.state()
    }

    /// The port's module. None without a carrier, or if the calibration database does not list it. The
    /// port stays as it is.
    pub fn own_module(&self) -> Option<Module>
        ensures { result ≡ self.now.line.link.own_module }
    {
        self.line.link.own_module()
    }

    // The four delays of the link of a slave port in WR_LINK_ON.
    fn link_deltas(&self) -> Option<Deltas>
        ensures { result ≡ deltas_of self.now.set.ds.role self.now.line.link }
    {
        if self.set.ds.role == Role::Master || self.line.link.state() != LinkState::LinkOn {
            return None;
        }
        let (txm, rxm) = self.line.link.peer_deltas().unwrap_or((0, 0));
        let (txs, rxs) = match self.line.link.own_module() {
            Some(own_module) => (own_module.tx, own_module.rx),
            None => (0, 0),
        };
        Some(Deltas { txm, rxm, txs, rxs })
    }
}

impl Answer {
    ghost use Rattle.std.specs.Prelude.{◌≡◌, None, Some};
    ghost use Rattle.wrp_data.specs.Reason.{number_of};
    ghost use Rattle.wrp_port.specs.Outputs.{number_by, reason_by, IsPortReason};

    // No message is dropped, and nothing measured.
    fn none() -> Answer
        ensures { result ≡ record { drop = None; measured = None } }
    {
        Answer {
            drop: None,
            measured: None,
        }
    }

    // A message is dropped for this reason, one of a port's.
    fn dropping(reason: Reason) -> Answer
        requires { IsPortReason (Some (number_of reason)) }
        ensures drop { result.drop ≡ Some (number_of reason) }
        ensures measured { result.measured ≡ None }
        ensures reason { IsPortReason result.drop }
    {
        Answer {
            drop: Some(reason.number()),
            measured: None,
        }
    }

    // A message was of use or not.
    fn using(used: bool, measured: Option<Four>) -> Answer
        ensures drop { result.drop ≡ number_by (reason_by None used) }
        ensures measured { result.measured ≡ measured }
        ensures reason { IsPortReason result.drop }
    {
        Answer {
            drop: if used {
                None
            } else {
                Some(Reason::Unmatched.number())
            },
            measured,
        }
    }
}

// The second word, if it differs from the first.
fn change(from: LinkWord, to: LinkWord) -> Option<LinkWord>
    ensures { result ≡ changed_word from to }
{
    if from == to { None } else { Some(to) }
}
