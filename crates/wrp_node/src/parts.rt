//! A node without its servo: the ports, the tick count, and what the present input commands.
ghost use Rattle.std.specs.Prelude.{◌≡◌, map};
ghost use Rattle.wrp_data.specs.Reason.{IsReason};
ghost use Rattle.wrp_node.specs.Parts.{Begun, Leads, AnswerTaken, given, told_only, slave_told, reason_counted, commanded};
ghost use Rattle.wrp_node.specs.Telling.{newest_step, with_news, with_sample};
ghost use Rattle.wrp_node.specs.declared.ports.To.TheVariants.{One};
ghost use Rattle.wrp_port.specs.declared.interface.PortIn.TheVariants.{Chain, Sample};
ghost use Rattle.wrp_port.specs.PortAt.{IsFit};

use crate::ports::{Ports, To};
use wrp_base::{ChainNews, Clock};
use wrp_port::PortIn;
use wrp_servo::ServoOut;

/// A node but its servo.
#[derive(Drop)]
pub struct Parts {
    /// Its ports.
    pub ports: Ports,
    /// The number of its slave port.
    pub slave: Option<u16>,
    /// The clock of its network.
    pub clock: Clock,
    /// The ticks since the last reset.
    pub ticks: u32,
    /// The step of the clock, in periods; 0 for none.
    pub cycles: i64,
    /// The DAC value, if there is a new one.
    pub dac: Option<u16>,
}

impl Parts {
    /// Before an input: nothing is commanded, and nothing sent yet.
    pub fn begin(&mut self)
        ensures begun { Begun self.old self.new }
        ensures numbers { map (λ place. place.number) self.new.ports ≡ map (λ place. place.number) self.old.ports }
        ensures ticks { self.new.ticks ≡ self.old.ticks }
    {
        self.ports.begin();
        self.cycles = 0;
        self.dac = None;
    }

    /// Gives an input to some ports.
    pub fn give(&mut self, to: To, input: &PortIn)
        requires { IsFit input.now }
        ensures { Leads (given to input.now) self.old self.new }
    {
        self.ports.give(to, input);
    }

    /// Counts a reason at a port, if there is one.
    pub fn count(&mut self, port: u16, reason: Option<u8>)
        requires { IsReason reason }
        ensures { Leads (reason_counted port reason) self.old self.new }
    {
        if let Some(reason) = reason {
            self.ports.count(port, reason);
        }
    }

    /// Takes what the servo answered to a call: its news go to the slave port, its refusal to the
    /// counters. `number` is the number of the sample, if the call was a sample.
    pub fn take_answer(&mut self, out: &ServoOut, number: u32)
        requires { IsReason out.now.refused }
        ensures { AnswerTaken out.now number self.old self.new }
    {
        self.tell_slave(out, number);
        self.command(out);
    }

    // Gives the slave port its part of the answer.
    fn tell_slave(&mut self, out: &ServoOut, number: u32)
        requires { IsReason out.now.refused }
        ensures { Leads (slave_told out.now number) self.old self.new }
    {
        if let Some(slave) = self.slave {
            self.give_news(slave, out.chain);
            self.give_sample(slave, number, out.unwrapped);
            self.count(slave, out.refused);
        }
    }

    // What became of the chain.
    fn give_news(&mut self, slave: u16, news: ChainNews)
        ensures { Leads (told_only slave (with_news news)) self.old self.new }
    {
        match news {
            ChainNews::Same => {}
            ChainNews::Started(n) => self.give_chain(slave, ChainNews::Started(n)),
            ChainNews::Ended => self.give_chain(slave, ChainNews::Ended),
        }
    }

    // News of the chain.
    fn give_chain(&mut self, slave: u16, news: ChainNews)
        ensures { Leads (given (One slave) (Chain news)) self.old self.new }
    {
        self.give(To::One(slave), &PortIn::Chain(news));
    }

    // A good sample.
    fn give_sample(&mut self, slave: u16, number: u32, phase: Option<i64>)
        ensures { Leads (told_only slave (with_sample phase number)) self.old self.new }
    {
        if let Some(u) = phase {
            self.give_phase(slave, number, u);
        }
    }

    // The phase at a good sample, in tau.
    fn give_phase(&mut self, slave: u16, number: u32, u: i64)
        ensures { Leads (given (One slave) (Sample number u)) self.old self.new }
    {
        self.give(To::One(slave), &PortIn::Sample { n: number, u });
    }

    // What the answer commands.
    fn command(&mut self, out: &ServoOut)
        ensures { Leads (commanded out.now) self.old self.new }
    {
        self.cycles = newest_step(out.cycles, self.cycles);
        self.dac = out.dac.or(self.dac);
    }
}

// The newest step that is not 0.
fn newest_step(new: i64, old: i64) -> i64
    ensures { result ≡ newest_step new old }
{
    if new.unsigned_abs() == 0 { old } else { new }
}
