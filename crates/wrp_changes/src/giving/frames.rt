//! The inputs of a frame that is handed over, and of a frame that departs.
ghost use Rattle.std.specs.Prelude.{◌≡◌, ◌==◌, ◌||◌, ◌<◌, ◌∷◌, [], ℕ, length, pos, true, option_map, IfSome};
ghost use Rattle.std.specs.List.{AllByRecursion, AllZip};
ghost use Rattle.std.specs.Option.{option_map_or};
ghost use Rattle.wrp_network.specs.declared.configuration.NetCfg.{NetCfg as Net};
ghost use Rattle.wrp_base.specs.declared.message.PtpMsg.{PtpMsg as Message};
ghost use Rattle.wrp_network.specs.Network.{node_count};
ghost use Rattle.wrp_frame.specs.Grammar.{Spells};
ghost use Rattle.wrp_port.specs.PortAt.{IsStamp};
ghost use Rattle.wrp_course.specs.declared.event.Event.TheVariants as event;
ghost use Rattle.wrp_course.specs.EventAt.{IsRaw, IsTime};
ghost use Rattle.wrp_changes.specs.FitsGifts.{FitsGift, FitsNode};
ghost use Rattle.wrp_flights.specs.Frames.{sent_at};
ghost use Rattle.wrp_course.specs.Setting.{has_port};
ghost use Rattle.wrp_changes.specs.Gifts.{GiftIs};
ghost use Rattle.wrp_course.specs.Given.{delivered_by};
ghost use Rattle.wrp_changes.specs.Giving.{Gives, entries_of, is_told, listed, sent_by, sent_first};
ghost use Rattle.wrp_plant.specs.Plant.{DepartedIs, EndIs, FitsDeparted, FitsPlant, PlantIs, ReceptionIs};
ghost use Rattle.wrp_course.specs.Setting.{Setting};
ghost use Rattle.wrp_course.specs.WorldAt.{Arrival, EndAt, FrameAt, WorldAt};

use super::ends::other_end;
use super::listing::Gift;
use crate::telling::ends::copied;
use wrp_base::{Body, PtpMsg, Stamp, Tau};
use wrp_course::{Place, place_of};
use wrp_flights::{Departed, Reception};
use wrp_frame::decode;
use wrp_node::Input;
use wrp_plant::{EndState, Plant};

// The input that reports the sending of a message. Only a Sync and a Delay_Req are reported.
fn sending(message: &PtpMsg, port: u16, stamp: Stamp) -> Option<Input>
    ensures is { result ≡ sent_by port stamp message.now }
    ensures fits { (cfg : Net) (n : ℕ) → has_port cfg n port ≡ true → IsStamp stamp
        → IfSome result (FitsNode cfg n) }
{
    let seq = message.head.seq;
    match message.body {
        Body::Sync { .. } => Some(Input::Sent {
            port,
            seq,
            delay: false,
            stamp,
        }),
        Body::DelayReq { .. } => Some(Input::Sent {
            port,
            seq,
            delay: true,
            stamp,
        }),
        _ => None,
    }
}

// Whether this is the messageType of a Sync or of a Delay_Req.
fn is_told_kind(kind: u8) -> bool
    ensures { result ≡ ((kind == 0x0) || (kind == 0x1)) }
{
    kind == 0x0 || kind == 0x1
}

// Whether the octets have the messageType of a Sync or of a Delay_Req.
fn is_told(octets: &[u8]) -> bool
    ensures { result ≡ is_told octets.now }
{
    match octets {
        [] => false,
        [first, ..] => is_told_kind(*first % 16),
    }
}

// The input that reports the sending of these octets. Octets of another messageType are not decoded.
fn sending_of(octets: &[u8], port: u16, stamp: Stamp) -> Option<Input>
    ensures is { (message : Message) → Spells octets.now message
        → result ≡ sent_by port stamp message }
    ensures fits { (cfg : Net) (n : ℕ) → has_port cfg n port ≡ true → IsStamp stamp
        → IfSome result (FitsNode cfg n) }
{
    if is_told(octets) {
        sending_in(octets, port, stamp)
    } else {
        None
    }
}

// The same, with the octets decoded.
fn sending_in(octets: &[u8], port: u16, stamp: Stamp) -> Option<Input>
    ensures is { (message : Message) → Spells octets.now message
        → result ≡ sent_by port stamp message }
    ensures fits { (cfg : Net) (n : ℕ) → has_port cfg n port ≡ true → IsStamp stamp
        → IfSome result (FitsNode cfg n) }
{
    match decode(octets) {
        Ok(message) => sending(&message, port, stamp),
        Err(_fault) => None,
    }
}

// The same for the oldest frame that waits at an end.
fn oldest_sending(end: &EndState, port: u16, stamp: Stamp) -> Option<Input>
    ensures is { (at : EndAt) → EndIs at end.now → result ≡ sent_first port stamp at.waiting }
    ensures fits { (cfg : Net) (n : ℕ) → has_port cfg n port ≡ true → IsStamp stamp
        → IfSome result (FitsNode cfg n) }
{
    match end.waiting.first() {
        Some(oldest) => sending_of(&oldest.octets, port, stamp),
        None => None,
    }
}

// An input of this node.
fn to_node(n: u8, input: Option<Input>) -> Option<Gift>
    ensures { result ≡ option_map (λ it. record { node = n; input = it }) input }
{
    match input {
        Some(input) => Some(Gift { node: n, input }),
        None => None,
    }
}

/// The input of a departure: it reports the sending of a frame. `stamp` is in tau, within `2^100` either
/// way. `None` if no frame waits at the port, no link has that port, or the oldest frame is neither a
/// Sync nor a Delay_Req.
pub fn gift_of_departure(plant: &Plant, n: u8, port: u16, stamp: Tau) -> Option<Gift>
    requires fits { FitsPlant plant.now }
    requires node { n < node_count plant.now.net.cfg }
    requires stamp { IsTime stamp }
    ensures { Gives plant.now (event.Depart n port stamp) (entries_of result) }
{
    let sample = plant.clock(n).samples;
    let told = Stamp {
        value: stamp,
        sample,
    };
    match place_of(&plant.net.cfg, n, port) {
        Some(place) => to_node(n, oldest_sending(plant.end(place), port, told)),
        None => None,
    }
}

/// The input of a frame that is handed over. `None` if the frame has not arrived, or is no longer kept.
pub fn gift_of_frame(plant: &Plant, number: u32) -> Option<Gift>
    requires fits { FitsPlant plant.now }
    ensures { Gives plant.now (event.Deliver number) (entries_of result) }
{
    match plant.frame(number) {
        Some(frame) => arrived(plant, frame),
        None => None,
    }
}

// The same for a frame that departed.
fn arrived(plant: &Plant, frame: &Departed) -> Option<Gift>
    requires fits { FitsPlant plant.now }
    requires frame { FitsDeparted (length plant.now.net.cfg.links.items)
        plant.now.events frame.now }
    ensures gifts { (s : Setting) (w : WorldAt) (f : FrameAt) → PlantIs s w plant.now
        → DepartedIs f frame.now
        → AllZip (GiftIs frame.now.sent) (delivered_by s f f.arrival) (entries_of result) }
    ensures fits { AllByRecursion (FitsGift plant.now.net.cfg) (entries_of result) }
{
    match frame.arrival {
        Some(reception) => Some(received(plant, frame, reception)),
        None => None,
    }
}

// The same for a frame that arrived with this stamp.
fn received(plant: &Plant, frame: &Departed, reception: Reception) -> Gift
    requires fits { FitsPlant plant.now }
    requires link { frame.now.link < length plant.now.net.cfg.links.items }
    requires raw { IsRaw reception.raw }
    ensures gifts { (s : Setting) (w : WorldAt) (f : FrameAt) (a : Arrival)
        → PlantIs s w plant.now → DepartedIs f frame.now → ReceptionIs a reception
        → AllZip (GiftIs frame.now.sent) (delivered_by s f (Some a)) (listed result ∷ []) }
    ensures fits { FitsGift plant.now.net.cfg (listed result) }
{
    let sender = Place {
        link: frame.link,
        role: frame.by,
    };
    let (node, port) = plant.own_at(other_end(sender));
    Gift {
        node,
        input: Input::Frame {
            port,
            bytes: copied(&frame.octets),
            raw: reception.raw,
            sample: reception.sample,
        },
    }
}

/// The true time at which a frame was put out, in tau. 0 if the number was never given.
pub fn sent_at(plant: &Plant, number: u32) -> Tau
    requires { FitsPlant plant.now }
    ensures { result ≡ option_map_or (λ t. t) (sent_at number plant.now.frames.sent) (pos 0) }
{
    match plant.frames.sent_at(number) {
        Some(sent) => sent,
        None => 0,
    }
}
