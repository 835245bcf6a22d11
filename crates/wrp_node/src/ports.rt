//! The ports of a node, in ascending order, and the inputs that each was given.
mod index;
mod states;

ghost use Rattle.std.specs.Prelude.{◌≡◌, ◌≤◌, ◌+◌, ◌*◌, ◌++◌, length, flat_map, IfSome, Some};
ghost use Rattle.std.specs.List.{AllByRecursion, AllZip};
ghost use Rattle.std.specs.Option.{option_map};
ghost use Rattle.wrp_base.specs.Message.{IsSound};
ghost use Rattle.wrp_node.specs.declared.ports.To.TheVariants.{Every, One};
ghost use Rattle.wrp_node.specs.Index.{numbers_in, AreDifferent, IsWhere};
ghost use Rattle.wrp_node.specs.Inputs.{stamp_in, measured_in};
ghost use Rattle.wrp_node.specs.Parts.{FitsRaw};
ghost use Rattle.wrp_node.specs.Place.{GivesTo, Begins, Counts, place_of, place_out};
ghost use Rattle.wrp_node.specs.Spelled.{AllSpelled};
ghost use Rattle.wrp_port.specs.declared.interface.PortIn.TheVariants.{Msg};
ghost use Rattle.wrp_port.specs.PortAt.{IsFit, IsStamp};

use crate::Outputs;
use crate::place::PortPlace;
use index::{Index, index_of, look_for};
pub use states::{PortState, PortStates};
use std::marker::Model;
use wrp_base::{Clock, Four, PtpMsg, Raw};
use wrp_port::PortIn;

/// Whom an input is for.
#[derive(Clone, Copy)]
pub enum To {
    /// Every port.
    Every,
    /// The port of this number.
    One(u16),
}

/// The ports of a node.
#[derive(Drop)]
pub struct Ports {
    places: Vec<PortPlace>,
    index: Index,
}

impl Model for Ports {
    ghost use Rattle.std.specs.Prelude.{List};
    ghost use Rattle.wrp_node.specs.declared.place.PortPlace.{PortPlace};
    ghost use Rattle.wrp_node.specs.Index.{AreIndexed};

    ghost Value = { List PortPlace };

    ghost view = { λ p. p.places.items };

    ghost invariant = { λ p. AreIndexed p.places.items p.index };
}

impl Ports {
    /// These ports, of different numbers.
    pub fn of(places: Vec<PortPlace>) -> Ports
        requires few { length places.items ≤ 18 }
        requires different { AreDifferent (numbers_in places.items) }
        ensures { result ≡ places.items }
    {
        let index = index_of(places.as_slice());
        Ports { places, index }
    }

    /// Before an input: each notes its word, and sends nothing yet.
    pub fn begin(&mut self)
        ensures { AllZip Begins self.old self.new }
    {
        for place in self.places.iter_mut() {
            place.begin();
        }
    }

    /// Gives an input to some ports.
    pub fn give(&mut self, to: To, input: &PortIn)
        requires { IsFit input.now }
        ensures { AllZip (GivesTo to input.now) self.old self.new }
    {
        match to {
            To::Every => self.give_every(input),
            To::One(number) => self.give_one(number, input),
        }
    }

    // Gives an input to every port.
    fn give_every(&mut self, input: &PortIn)
        requires { IsFit input.now }
        ensures { AllZip (GivesTo Every input.now) self.old self.new }
    {
        for place in self.places.iter_mut() {
            place.tell(input);
        }
    }

    // Gives an input to the port with a number.
    fn give_one(&mut self, number: u16, input: &PortIn)
        requires { IsFit input.now }
        ensures { AllZip (GivesTo (One number) input.now) self.old self.new }
    {
        if let Some(at) = self.at(number) {
            self.places[usize::from(at)].tell(input);
        }
    }

    /// Hands a message to the port with this number, at which it arrived. The port is looked up once.
    /// The message comes with the stamp of its reception there and the node's tick count. Returns the
    /// measurement that it makes, if it makes one. Returns None if no port has the number: then nothing
    /// changes. Returns None also if the message makes no measurement: then the port was given it, and
    /// counts it if it drops it.
    pub fn hear(
        &mut self,
        number: u16,
        message: &PtpMsg,
        raw: &Raw,
        sample: u32,
        clock: Clock,
        tick: u32,
    ) -> Option<Four>
        requires sound { IsSound message.now }
        requires raw { FitsRaw raw.now }
        ensures given { let stamp = stamp_in clock raw.now sample (place_of number self.old) in
            AllZip (GivesTo (One number) (Msg message.now stamp tick)) self.old self.new }
        ensures fits { IfSome (place_of number self.old)
            (λ place. IsStamp (stamp_in clock raw.now sample (Some place))) }
        ensures measured { result ≡ measured_in (place_of number self.new) }
    {
        let at = usize::from(self.at(number)?);
        let stamp = self.places[at].stamp(raw, sample, clock);
        self.places[at].hear(message, stamp, tick);
        self.places[at].lent.measured
    }

    /// Counts a reason, 1 to 15, at the port of a number.
    pub fn count(&mut self, number: u16, reason: u8)
        requires at_least { 1 ≤ reason }
        requires at_most { reason ≤ 15 }
        ensures { AllZip (Counts number reason) self.old self.new }
    {
        if let Some(at) = self.at(number) {
            self.places[usize::from(at)].count(reason);
        }
    }

    /// The port of a number; None if no port has it.
    pub fn place(&self, number: u16) -> Option<&PortPlace>
        ensures { option_map (λ place. place.now) result ≡ place_of number self.now }
    {
        match self.at(number) {
            Some(at) => Some(&self.places[usize::from(at)]),
            None => None,
        }
    }

    // The place of the port with a number: by the index, which knows the numbers from 1 to 18.
    fn at(&self, number: u16) -> Option<u8>
        ensures { IsWhere number (numbers_in self.now) result }
    {
        if 1 <= number && number <= 18 {
            self.index[usize::from(number) - 1]
        } else {
            look_for(number, self.places.as_slice())
        }
    }

    /// Puts out what each port has to put out, in ascending order of the ports.
    pub fn put_out(&self, outs: &mut Outputs)
        requires sound { AllByRecursion (λ place. AllByRecursion IsSound place.sends.items) self.now }
        requires room { length outs.old.items ≤ 5 }
        ensures items { outs.new.items ≡ outs.old.items ++ flat_map place_out self.now }
        ensures spelled { AllSpelled self.now }
        ensures room { length outs.new.items ≤ 95 }
    {
        for place in &self.places {
            place.put_out(outs);
        }
    }
}
