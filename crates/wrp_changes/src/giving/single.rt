//! The input of octets that the peer did not send.
ghost use Rattle.std.specs.Prelude.{◌≡◌, ◌<◌, ◌≤◌, ◌+◌, ◌^◌, length};
ghost use Rattle.wrp_network.specs.Network.{node_count};
ghost use Rattle.wrp_course.specs.declared.event.Event.TheVariants as event;
ghost use Rattle.wrp_course.specs.EventAt.{IsRaw};
ghost use Rattle.wrp_changes.specs.Giving.{Gives, entries_of};
ghost use Rattle.wrp_plant.specs.Plant.{FitsPlant};

use super::listing::Gift;
use crate::telling::ends::copied;
use wrp_base::{Frame, Raw};
use wrp_course::place_of;
use wrp_node::Input;
use wrp_plant::Plant;

/// The input of octets that the peer did not send. `None` if no link has that port.
pub fn gift_of_noise(plant: &Plant, n: u8, port: u16, bytes: &Frame, raw: Raw) -> Option<Gift>
    requires fits { FitsPlant plant.now }
    requires node { n < node_count plant.now.net.cfg }
    requires raw { IsRaw raw }
    ensures { Gives plant.now (event.Noise n port bytes.now raw) (entries_of result) }
{
    let sample = plant.clock(n).samples;
    match place_of(&plant.net.cfg, n, port) {
        Some(_place) => Some(Gift {
            node: n,
            input: Input::Frame {
                port,
                bytes: copied(bytes),
                raw,
                sample,
            },
        }),
        None => None,
    }
}
