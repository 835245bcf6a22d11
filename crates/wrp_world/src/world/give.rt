//! The nodes take the inputs of an event, one after another.
ghost use Rattle.std.specs.Prelude.{◌≡◌, ◌+◌, ℕ, Result, length};
ghost use Rattle.std.specs.List.{AllByRecursion};
ghost use Rattle.wrp_base.specs.declared.message.PtpMsg.{PtpMsg};
ghost use Rattle.wrp_frame.specs.declared.fault.FrameFault.{FrameFault};
ghost use Rattle.wrp_node.specs.Control.{law_in};
ghost use Rattle.wrp_node.specs.Node.{FitsInput, IsValid as NodeIsValid, is_tick};
ghost use Rattle.wrp_frame.specs.Saying.{Says};
ghost use Rattle.wrp_node.specs.StandsFor.{Took};
ghost use Rattle.wrp_changes.specs.FitsGifts.{FitsGift};
ghost use Rattle.wrp_changes.specs.Gifts.{IsRead};
ghost use Rattle.wrp_course.specs.Given.{Given, in_body, in_frame, mover_of};
ghost use Rattle.wrp_world.specs.Taking.{AreOfNodes, Asks, FirstAsks, Gave, GaveAll};
ghost use Rattle.wrp_world.specs.Taking.{is_signaling, laws_of};
ghost use Rattle.wrp_changes.specs.Room.{HasRoom};
ghost use Rattle.wrp_world.specs.StandsFor.{IsValid};

use super::World;
use wrp_base::{Body, Tau, WrMsg};
use wrp_changes::{News, told};
use wrp_course::NodeOut;
use wrp_frame::decode;
use wrp_node::{Input, Node, PortStates};

impl<F: Fn(i64) -> i64> World<F> {
    // The nodes take their inputs, in order. If one is a frame, it was put out at the true time
    // `put`. The memory was taken before.
    pub(super) fn give_all(&mut self, put: Tau, outs: &mut Vec<NodeOut>)
        requires valid { IsValid F.pre F.post self.old }
        requires gifts { AllByRecursion (FitsGift self.old.plant.net.cfg) outs.old.items }
        requires asks { FirstAsks self.old outs.old.items }
        requires room { HasRoom (length outs.old.items) self.old.plant }
        ensures valid { IsValid F.pre F.post self.new }
        ensures gave { GaveAll F.post put self.old self.new outs.old.items outs.new.items }
        ensures nodes { AreOfNodes self.new.plant.net.cfg outs.new.items }
        ensures net { self.new.plant.net ≡ self.old.plant.net }
        ensures events { self.new.plant.events ≡ self.old.plant.events }
        ensures laws { laws_of self.new ≡ laws_of self.old }
    {
        for k in 0..outs.len() {
            self.give_one(put, &mut outs[k]);
        }
    }

    // A node takes an input, and its step is reported to the rest of the world.
    fn give_one(&mut self, put: Tau, out: &mut NodeOut)
        requires valid { IsValid F.pre F.post self.old }
        requires gift { FitsGift self.old.plant.net.cfg out.old }
        requires asks { Asks self.old out.old.input }
        requires room { HasRoom 1 self.old.plant }
        ensures valid { IsValid F.pre F.post self.new }
        ensures gave { Gave F.post put self.old self.new out.old out.new }
        ensures node { out.new.node ≡ out.old.node }
        ensures room { (k : ℕ) → HasRoom (k + 1) self.old.plant → HasRoom k self.new.plant }
        ensures net { self.new.plant.net ≡ self.old.plant.net }
        ensures events { self.new.plant.events ≡ self.old.plant.events }
        ensures laws { laws_of self.new ≡ laws_of self.old }
    {
        let node = &mut self.nodes[usize::from(out.node)];
        let before = node.states();
        step_node(node, out);
        let after = node.states();
        let news = news_of(out, put, &before, &after);
        told(&mut self.plant, &news, out.outs.as_slice());
    }
}

// A node takes an input.
fn step_node<F: Fn(i64) -> i64>(node: &mut Node<F>, out: &mut NodeOut)
    requires valid { NodeIsValid F.pre F.post node.old }
    requires input { FitsInput node.old out.old.input }
    ensures valid { NodeIsValid F.pre F.post node.new }
    ensures law { law_in node.new.control ≡ law_in node.old.control }
    ensures node { out.new.node ≡ out.old.node }
    ensures input { out.new.input ≡ out.old.input }
    ensures took { Took F.post node.old node.new out.old.input out.new.outs.items }
{
    node.step_into(&out.input, &mut out.outs);
}

// What the rest of the world is to be told of a node's step: what the node was given, and the link
// states of its ports before and after.
fn news_of<'a>(out: &NodeOut, put: Tau, before: &'a PortStates, after: &'a PortStates) -> News<'a>
    ensures node { result.node ≡ out.now.node }
    ensures ticked { result.ticked ≡ is_tick out.now.input }
    ensures by { (g : Given) → IsRead put g.says g.at out.now.input
        → result.by ≡ mover_of g out.now.input }
    ensures before { result.before.now ≡ before.now }
    ensures after { result.after.now ≡ after.now }
{
    News {
        node: out.node,
        ticked: is_tick(&out.input),
        before,
        after,
        by: mover_of(&out.input, put),
    }
}

// Whether an input is a tick.
fn is_tick(input: &Input) -> bool
    ensures { result ≡ is_tick input.now }
{
    match input {
        Input::Tick => true,
        _ => false,
    }
}

// The White Rabbit message of an input, if it is a frame with one, and the true time at which it
// was put out.
fn mover_of(input: &Input, put: Tau) -> Option<(WrMsg, Tau)>
    ensures { (g : Given) → IsRead put g.says g.at input.now → result ≡ mover_of g input.now }
{
    match input {
        Input::Frame { bytes, .. } => in_frame(bytes.as_slice(), put),
        _ => None,
    }
}

// The same for octets. Only a Signaling has such a message; other octets are not decoded.
fn in_frame(octets: &[u8], put: Tau) -> Option<(WrMsg, Tau)>
    ensures { (says : Result PtpMsg FrameFault) → Says octets.now says
        → result ≡ in_frame says put }
{
    if is_signaling(octets) {
        read_frame(octets, put)
    } else {
        None
    }
}

// Whether the messageType is a Signaling.
fn is_signaling(octets: &[u8]) -> bool
    ensures { result ≡ is_signaling octets.now }
{
    match octets {
        [] => false,
        [first, ..] => *first % 16 == 0xC,
    }
}

// The White Rabbit message that octets spell, if they spell one. A decoded message takes much room, so it is read in a
// call of its own.
#[cold]
#[inline(never)]
fn read_frame(octets: &[u8], put: Tau) -> Option<(WrMsg, Tau)>
    ensures { (says : Result PtpMsg FrameFault) → Says octets.now says
        → result ≡ in_frame says put }
{
    match decode(octets) {
        Ok(message) => in_body(message.body, put),
        Err(_) => None,
    }
}

// The White Rabbit message of a body, if it has one.
fn in_body(body: Body, put: Tau) -> Option<(WrMsg, Tau)>
    ensures { result ≡ in_body body put }
{
    match body {
        Body::Signal {
            wr: Some(message),
            ..
        } => Some((message, put)),
        _ => None,
    }
}
