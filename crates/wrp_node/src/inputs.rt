//! What the inputs of a node make of its ports.
ghost use Rattle.std.specs.Prelude.{◌≡◌, ◌≤◌, ◌+◌, ◌<◌, ◌^◌, IfSome};
ghost use Rattle.wrp_base.specs.Message.{IsSound};
ghost use Rattle.wrp_exch.specs.Exchange.{HasTimes};
ghost use Rattle.wrp_node.specs.Inputs.{lease_in, deltas_in, word_in, times_in};
ghost use Rattle.wrp_node.specs.NodeStep.{is_slave_port};
ghost use Rattle.wrp_node.specs.Parts.{Leads, tick_counted, parts_reset, TellsLease, TellsDeltas, Hears, FitsRaw, is_among};
ghost use Rattle.wrp_node.specs.Place.{place_of};

use crate::parts::Parts;
use crate::ports::To;
use wrp_base::{Deltas, Four, LinkWord, PtpMsg, Raw};
use wrp_port::PortIn;

impl Parts {
    /// Counts a tick, and gives the lease its turn.
    pub fn count_tick(&mut self)
        requires { self.old.ticks + 1 < 2 ^ 32 }
        ensures { Leads tick_counted self.old self.new }
    {
        self.ticks += 1;
        if let Some(slave) = self.slave {
            self.give(To::One(slave), &PortIn::Lease);
        }
    }

    /// Restarts; the counters stay.
    pub fn reset(&mut self)
        ensures { Leads parts_reset self.old self.new }
    {
        self.ticks = 0;
        self.give(To::Every, &PortIn::Reset);
    }

    /// Whether the slave port's lease is fresh.
    pub fn lease(&self) -> bool
        ensures { TellsLease self.now result }
    {
        match self.slave {
            Some(slave) => self.lease_of(slave),
            None => false,
        }
    }

    // Whether the lease of a port is fresh.
    fn lease_of(&self, port: u16) -> bool
        ensures { result ≡ lease_in (place_of port self.now.ports) }
    {
        match self.ports.place(port) {
            Some(place) => place.port.lease(),
            None => false,
        }
    }

    /// The four delays of the slave port's link, if it is in WR_LINK_ON. None if the link is in another
    /// state, or if the node has no slave port; nothing changes.
    pub fn deltas(&self) -> Option<Deltas>
        ensures { TellsDeltas self.now result }
    {
        match self.slave {
            Some(slave) => self.deltas_of(slave),
            None => None,
        }
    }

    // The four delays of the link of a port.
    fn deltas_of(&self, port: u16) -> Option<Deltas>
        ensures { result ≡ deltas_in (place_of port self.now.ports) }
    {
        match self.ports.place(port) {
            Some(place) => place.port.deltas(),
            None => None,
        }
    }

    /// Whether a port is the slave port.
    pub fn is_slave(&self, port: u16) -> bool
        ensures { result ≡ is_slave_port self.now.slave port }
    {
        match self.slave {
            Some(slave) => slave == port,
            None => false,
        }
    }

    /// Whether one of the ports has this number.
    pub fn has_port(&self, port: u16) -> bool
        ensures { result ≡ is_among port self.now.ports }
    {
        self.ports.place(port).is_some()
    }

    /// The word of a port.
    pub fn word(&self, port: u16) -> LinkWord
        ensures { result ≡ word_in (place_of port self.now.ports) }
    {
        match self.ports.place(port) {
            Some(place) => place.port.word(),
            None => LinkWord::Down,
        }
    }

    /// How often a port dropped something for a reason.
    pub fn times(&self, port: u16, reason: u8) -> u32
        requires at_least { 1 ≤ reason }
        requires at_most { reason ≤ 15 }
        ensures { result ≡ times_in reason (place_of port self.now.ports) }
    {
        match self.ports.place(port) {
            Some(place) => place.counters.get(reason),
            None => 0,
        }
    }

    /// Hands a message to the port at which it arrived. It is dropped and counted, or taken. Returns the
    /// four stamps of the measurement that it makes, if it makes one. Returns None if it is dropped
    /// whatever its kind (reasons 9 to 12): then the port counts it, and nothing else changes. Returns
    /// None if it is taken and makes no measurement: then the port was given it, and counts it if it was
    /// of no use there. Returns None if no port has the number: then nothing changes.
    pub fn hear(&mut self, port: u16, message: &PtpMsg, raw: &Raw, sample: u32) -> Option<Four>
        requires sound { IsSound message.now }
        requires raw { FitsRaw raw.now }
        ensures hears { Hears port message.now raw.now sample self.old self.new result }
        ensures times { IfSome result HasTimes }
    {
        self.ports
            .hear(port, message, raw, sample, self.clock, self.ticks)
    }
}
