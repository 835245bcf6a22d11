//! What is seen of a world of three nodes: all that a run asks of it, as plain values.
ghost use Rattle.std.specs.Prelude.{◌≡◌, IsTrue, true};
ghost use Rattle.wrp_node.specs.Parts.{is_among};
ghost use Rattle.wrp_world.specs.StandsFor.{IsValid};

use wrp_base::{LinkState, LinkWord, ServoState, Tau};
use wrp_node::{Input, Node};
use wrp_world::World;

/// A port of a node.
pub type End = (u8, u16);

/// The ends of the links: of gm over sw1, and of sw1 over leaf.
pub const ENDS: [End; 4] = [(0, 1), (1, 1), (1, 2), (2, 1)];

/// What is seen of a node.
#[derive(Clone, Copy)]
pub struct NodeSeen {
    /// The offset of its clock.
    pub off: Tau,
    /// When it may tick first, and when it has to tick; `None` if it is down.
    pub due: Option<(Tau, Tau)>,
    /// The state of its servo, and whether its loop is locked.
    pub servo: ServoState,
    pub locked: bool,
    /// The value of its DAC.
    pub dac: u16,
}

/// What is seen of an end of a link.
#[derive(Clone, Copy)]
pub struct EndSeen {
    /// Whether a frame waits at it.
    pub waits: bool,
    /// Its word, and whether that is WR_LINK_ON.
    pub word: LinkWord,
    pub on: bool,
}

/// The frame that arrives next: its number, when, at which node, and its wrMessageID if it is a White Rabbit message.
#[derive(Clone, Copy)]
pub struct Arrival {
    pub frame: u32,
    pub due: Tau,
    pub to: u8,
    pub message: Option<u16>,
}

/// What is seen of a world.
#[derive(Clone, Copy)]
pub struct Seen {
    /// True time.
    pub now: Tau,
    pub gm: NodeSeen,
    pub sw1: NodeSeen,
    pub leaf: NodeSeen,
    /// Whether each link is joined.
    pub joined: (bool, bool),
    /// The ends, as `ENDS` has them.
    pub ends: [EndSeen; 4],
    pub arrival: Option<Arrival>,
}

impl NodeSeen {
    /// Whether it is up.
    pub fn is_up(&self) -> bool {
        self.due.is_some()
    }
}

impl Seen {
    /// A node.
    pub fn node(&self, n: u8) -> &NodeSeen {
        match n {
            0 => &self.gm,
            1 => &self.sw1,
            _ => &self.leaf,
        }
    }

    /// The reading of its clock.
    pub fn reading(&self, n: u8) -> Tau {
        self.now.wrapping_add(self.node(n).off)
    }
}

// Whether a node has a port.
fn has_port<F: Fn(i64) -> i64>(node: &Node<F>, port: u16) -> bool
    ensures { IsTrue result → is_among port node.now.parts.ports ≡ true }
{
    node.fits(&Input::Carrier {
        port,
        up: false,
        module: None,
    })
}

// What is seen of a node whose clock is so.
fn seen_with<F: Fn(i64) -> i64>(node: &Node<F>, off: Tau, due: Option<(Tau, Tau)>) -> NodeSeen {
    NodeSeen {
        off,
        due,
        servo: node.servo(),
        locked: node.locked(),
        dac: node.dac(),
    }
}

// What is seen of a node.
fn node_seen<F: Fn(i64) -> i64>(world: &World<F>, n: u8) -> Option<NodeSeen>
    requires { IsValid F.pre F.post world.now }
{
    if world.net().cfg.nodes.len() <= usize::from(n) {
        return None;
    }
    Some(seen_with(world.node(n), world.off(n), world.tick_due(n)))
}

// What is seen of an end.
fn end_seen<F: Fn(i64) -> i64>(world: &World<F>, end: End) -> Option<EndSeen>
    requires { IsValid F.pre F.post world.now }
{
    let (n, port) = end;
    if world.net().cfg.nodes.len() <= usize::from(n) {
        return None;
    }
    let node = world.node(n);
    if !has_port(node, port) {
        return None;
    }
    let word = node.word(port);
    Some(EndSeen {
        waits: world.waiting(n, port).is_some(),
        word,
        on: word == LinkWord::In(LinkState::LinkOn),
    })
}

// Whether a link is there and joined.
fn is_joined<F: Fn(i64) -> i64>(world: &World<F>, link: u8) -> bool
    requires { IsValid F.pre F.post world.now }
{
    usize::from(link) < world.net().cfg.links.len() && world.joined(link)
}

// The node at the other end of a link.
fn receiver(sender: End) -> u8 {
    match sender {
        (1, 1) => 0,
        (1, _) => 2,
        _ => 1,
    }
}

// The wrMessageID of a frame: in a Signaling it follows the header, the target, and the head of the first TLV.
fn message_of(frame: &[u8]) -> Option<u16> {
    let (Some(0x0c), Some(high), Some(low)) = (frame.first(), frame.get(54), frame.get(55)) else {
        return None;
    };
    Some(u16::from_be_bytes([*high, *low]))
}

// The frame that arrives next.
fn next_arrival<F: Fn(i64) -> i64>(world: &World<F>) -> Option<Arrival>
    requires { IsValid F.pre F.post world.now }
{
    let (frame, due) = world.next_arrival()?;
    Some(Arrival {
        frame,
        due,
        to: receiver(world.sender(frame)?),
        message: message_of(world.frame(frame)?),
    })
}

/// What is seen of a world; `None` if it has not three nodes.
pub fn see<F: Fn(i64) -> i64>(world: &World<F>) -> Option<Seen>
    requires { IsValid F.pre F.post world.now }
{
    let [first, second, third, fourth] = ENDS;
    Some(Seen {
        now: world.now(),
        gm: node_seen(world, 0)?,
        sw1: node_seen(world, 1)?,
        leaf: node_seen(world, 2)?,
        joined: (is_joined(world, 0), is_joined(world, 1)),
        ends: [
            end_seen(world, first)?,
            end_seen(world, second)?,
            end_seen(world, third)?,
            end_seen(world, fourth)?,
        ],
        arrival: next_arrival(world),
    })
}
