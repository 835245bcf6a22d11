//! A port at its place in a node: with its number, its counters, and what it is about to put out.
ghost use Rattle.std.specs.Prelude.{◌≡◌, ◌≤◌, ◌<◌, ◌+◌, ◌++◌, ◌∷◌, length, map, [], Some};
ghost use Rattle.std.specs.List.{AllByRecursion};
ghost use Rattle.wrp_base.specs.Message.{IsSound};
ghost use Rattle.wrp_data.specs.Counters.{no_counts};
ghost use Rattle.wrp_node.specs.Inputs.{stamp_in, transition_in};
ghost use Rattle.wrp_node.specs.Parts.{FitsRaw};
ghost use Rattle.wrp_node.specs.declared.interface.Output.TheVariants as out;
ghost use Rattle.wrp_node.specs.Place.{newest_sends, Gives, Begins, place_out};
ghost use Rattle.wrp_node.specs.Spelled.{AreSpelled, IsSpelled};
ghost use Rattle.wrp_link.specs.Table.{word_of};
ghost use Rattle.wrp_node.specs.NodeRun.{word_out, frame_out};
ghost use Rattle.wrp_node.specs.Telling.{counted};
ghost use Rattle.wrp_port.specs.declared.interface.PortIn.TheVariants as port;
ghost use Rattle.wrp_port.specs.Outputs.{IsPortReason};
ghost use Rattle.wrp_port.specs.PortAt.{IsFit, IsStamp};

use crate::{Output, Outputs, Report};
use arrayvec::ArrayVec;
use wrp_base::{Clock, LinkWord, PtpMsg, Raw, STEPS_OF_PERIOD, Stamp, Tau};
use wrp_data::Counters;
use wrp_frame::encode;
use wrp_port::{Port, PortIn, PortOut};
use wrp_stamp::{merge, transition_of};

/// A port of a node.
#[derive(Drop)]
pub struct PortPlace {
    /// Its number.
    pub number: u16,
    /// The port.
    pub port: Port,
    /// How often it dropped something, by reason.
    pub counters: Counters,
    /// Its word before the input.
    pub word: LinkWord,
    /// What the input makes it send.
    pub sends: ArrayVec<PtpMsg, 4>,
    /// What it lends to the port for its answer; the measurement that a message made is read from there.
    pub lent: PortOut,
}

impl PortPlace {
    /// A port that was given no input, and counted nothing.
    pub fn new(number: u16, port: Port) -> PortPlace
        ensures number { result.number ≡ number }
        ensures port { result.port ≡ port }
        ensures counters { result.counters ≡ no_counts }
    {
        let word = port.word();
        PortPlace {
            number,
            port,
            counters: Counters::new(),
            word,
            sends: ArrayVec::new(),
            lent: PortOut::new(),
        }
    }

    /// Before an input: notes the word, and sends nothing yet.
    pub fn begin(&mut self)
        ensures { Begins self.old self.new }
    {
        self.word = self.port.word();
        self.sends.clear();
    }

    /// Gives the port an input. The most frequent inputs have a call of their own, which copies less.
    pub fn tell(&mut self, input: &PortIn)
        requires { IsFit input.now }
        ensures { Gives input.now self.old self.new }
    {
        match input {
            PortIn::Tick { locked, certain } => self.tick(*locked, *certain),
            PortIn::Lease => self.turn_lease(),
            PortIn::Sample { n, u } => self.take_sample(*n, *u),
            _ => self.tell_other(input),
        }
    }

    // Gives the port an input of any kind.
    fn tell_other(&mut self, input: &PortIn)
        requires { IsFit input.now }
        ensures { Gives input.now self.old self.new }
    {
        self.port.step_into(*input, &mut self.lent);
        self.count_drop();
        self.keep();
    }

    // Gives the port a tick.
    fn tick(&mut self, locked: bool, certain: bool)
        ensures { Gives (port.Tick locked certain) self.old self.new }
    {
        self.port.tick_into(locked, certain, &mut self.lent.sends);
        self.keep();
    }

    // Gives the lease of the port its turn.
    fn turn_lease(&mut self)
        ensures { Gives port.Lease self.old self.new }
    {
        self.port.turn_lease();
    }

    // Gives the port a good sample.
    fn take_sample(&mut self, n: u32, u: i64)
        ensures { Gives (port.Sample n u) self.old self.new }
    {
        self.port.take_sample(n, u);
    }

    /// Hands the port a message.
    pub fn hear(&mut self, message: &PtpMsg, stamp: Stamp, tick: u32)
        requires sound { IsSound message.now }
        requires stamp { IsStamp stamp }
        ensures { Gives (port.Msg message.now stamp tick) self.old self.new }
    {
        self.port.hear_into(message, stamp, tick, &mut self.lent);
        self.count_drop();
        self.keep();
    }

    // Counts why the port dropped a message, if it did.
    fn count_drop(&mut self)
        requires { IsPortReason self.old.lent.drop }
        ensures { self.new ≡ record self.old {
          counters = counted self.old.lent.drop self.old.counters;
        } }
    {
        if let Some(reason) = self.lent.drop {
            self.counters.count(reason);
        }
    }

    // Keeps what is to be sent, if there is something.
    fn keep(&mut self)
        ensures { self.new ≡ record self.old {
          sends = record { items = newest_sends self.old.lent.sends.items self.old.sends.items };
        } }
    {
        if !self.lent.sends.is_empty() {
            self.sends.clear();
            let _fits = self.sends.try_extend_from_slice(self.lent.sends.as_slice());
        }
    }

    /// The stamp of a reception: merged with the transition of the port's module, with the number of
    /// the last sample.
    pub fn stamp(&self, raw: &Raw, sample: u32, clock: Clock) -> Stamp
        requires { FitsRaw raw.now }
        ensures value { result ≡ stamp_in clock raw.now sample (Some self.now) }
        ensures fits { IsStamp result }
    {
        stamp_of(merge(raw, self.transition(), clock), sample)
    }

    // The transition of its module, round the period; 0 if the module is not listed.
    fn transition(&self) -> u16
        ensures value { result ≡ transition_in (Some self.now) }
        ensures below { result < 16384 }
    {
        transition_of(self.port.own_module()) % STEPS_OF_PERIOD
    }

    /// Counts a reason, 1 to 15.
    pub fn count(&mut self, reason: u8)
        requires at_least { 1 ≤ reason }
        requires at_most { reason ≤ 15 }
        ensures { self.new
            ≡ record self.old { counters = counted (Some reason) self.old.counters } }
    {
        self.counters.count(reason);
    }

    /// Puts out its word, if it changed, and its frames.
    pub fn put_out(&self, outs: &mut Outputs)
        requires sound { AllByRecursion IsSound self.now.sends.items }
        requires room { length outs.old.items + 5 ≤ 96 }
        ensures items { outs.new.items ≡ outs.old.items ++ place_out self.now }
        ensures spelled { AreSpelled self.now.sends.items }
        ensures room { length outs.new.items ≤ length outs.old.items + 5 }
    {
        self.put_word(outs);
        self.put_frames(outs);
    }

    // Puts out its word, if it changed.
    fn put_word(&self, outs: &mut Outputs)
        requires room { length outs.old.items + 1 ≤ 96 }
        ensures items { outs.new.items ≡ outs.old.items
            ++ word_out self.now.number self.now.word (word_of self.now.port.line.link) }
        ensures room { length outs.new.items ≤ length outs.old.items + 1 }
    {
        let word = self.port.word();
        if word != self.word {
            push_report(
                Report::Link {
                    port: self.number,
                    word,
                },
                outs,
            );
        }
    }

    // Puts out its frames.
    fn put_frames(&self, outs: &mut Outputs)
        requires sound { AllByRecursion IsSound self.now.sends.items }
        requires room { length outs.old.items + 4 ≤ 96 }
        ensures items { outs.new.items ≡ outs.old.items ++ map (frame_out self.now.number) self.now.sends.items }
        ensures spelled { AreSpelled self.now.sends.items }
        ensures room { length outs.new.items ≤ length outs.old.items + 4 }
    {
        for message in self.sends.as_slice() {
            self.put_frame(message, outs);
        }
    }

    // Puts out a frame.
    fn put_frame(&self, message: &PtpMsg, outs: &mut Outputs)
        requires sound { IsSound message.now }
        requires room { length outs.old.items + 1 ≤ 96 }
        ensures items { outs.new.items ≡ outs.old.items ++ (frame_out self.now.number message.now ∷ []) }
        ensures spelled { IsSpelled message.now }
        ensures room { length outs.new.items ≡ length outs.old.items + 1 }
    {
        outs.push(self.frame(message));
    }

    // A frame of the port.
    fn frame(&self, message: &PtpMsg) -> Output
        requires { IsSound message.now }
        ensures value { result ≡ frame_out self.now.number message.now }
        ensures spelled { IsSpelled message.now }
    {
        Output::Send {
            port: self.number,
            frame: encode(message),
        }
    }
}

/// Puts out a report.
pub fn push_report(report: Report, outs: &mut Outputs)
    requires room { length outs.old.items + 1 ≤ 96 }
    ensures items { outs.new.items ≡ outs.old.items ++ (out.Report report ∷ []) }
    ensures room { length outs.new.items ≡ length outs.old.items + 1 }
{
    outs.push(Output::Report(report));
}

// A stamp of this reading.
fn stamp_of(value: Tau, sample: u32) -> Stamp
    ensures { result ≡ record { value = value; sample = sample } }
{
    Stamp { value, sample }
}
