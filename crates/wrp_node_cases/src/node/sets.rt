//! The nodes of the cases. A chain of three: `gm`, whose port 1 leads to `sw1`; `sw1`, whose port 1 is a slave of `gm`
//! and whose port 2 leads to `leaf`; and `leaf`, whose port 1 is a slave of `sw1`. And `star`: a grandmaster of 18
//! ports, each of which leads to the port of the same number of `sw1`, where quiet time is one tick and Announce and
//! Sync come at each tick. Otherwise the numbers are the numbers of a network file without keys, except for three of
//! the servo that keep the lists short.
ghost use Rattle.std.specs.Prelude.{◌≡◌, ◌≤◌, is_some, true, false};
ghost use Rattle.wrp_node.specs.New.{FitsNodeSet, FitsPorts, OfDifferentNumbers};
ghost use Rattle.wrp_node.specs.NodeAt.{slave_in, slave_of};
ghost use Rattle.wrp_servo.specs.Sizes.{FitsServoSet};

use arrayvec::ArrayVec;
use wrp_base::{Clock, PortIdentity, Role};
use wrp_data::{DefaultDs, PortDs};
use wrp_link::LinkSet;
use wrp_node::NodeSet;
use wrp_port::Sched;
use wrp_servo::ServoSet;

const GM: u64 = 0x001b_c5ff_fe00_0001;

const SW1: u64 = 0x001b_c5ff_fe00_0002;

const LEAF: u64 = 0x001b_c5ff_fe00_0003;

const SERVO: ServoSet = ServoSet {
    holdover: 320,
    age: 80,
    stable: 2,
    gap: 100,
    lock_samples: 100,
    delock_samples: 50,
    threshold: 6400,
    track_tau: 3_276_800,
    loop_tau: 3_276_800,
    phase_step: 100_000,
    kp: 125,
    ki: 5,
    bias: 32_768,
    clock: Clock::Mhz125,
};

const LINK: LinkSet = LinkSet {
    quiet: 24,
    wait: 30,
    lock_wait: 1500,
    retries: 3,
    holdoff: 300,
    wr: true,
};

const SCHED: Sched = Sched {
    announce: 100,
    sync: 25,
    delay: 25,
    lease: 250,
};

// A port.
fn port(own: (u64, u16), peer: (u64, u16), role: Role) -> PortDs
    ensures number { result.own.port ≡ own.1 }
    ensures role { result.role ≡ role }
{
    PortDs {
        own: PortIdentity {
            clock: own.0,
            port: own.1,
        },
        peer: PortIdentity {
            clock: peer.0,
            port: peer.1,
        },
        role,
        wr: true,
    }
}

// What a node of so many steps below the grandmaster is set to.
fn set_of(clock: u64, steps: u16, ports: ArrayVec<PortDs, 18>) -> NodeSet
    ensures ports { result.ports ≡ ports }
    ensures counts { FitsPorts result }
    ensures servo { FitsServoSet result.servo }
    ensures report { 1 ≤ result.report }
{
    NodeSet {
        own: DefaultDs {
            identity: clock,
            domain: 0,
            gm: GM,
            steps,
        },
        ports,
        link: LINK,
        sched: SCHED,
        servo: SERVO,
        ring: 64,
        report: 50,
    }
}

/// `gm`.
pub fn gm_set() -> NodeSet
    ensures fits { FitsNodeSet result }
    ensures slave { is_some (slave_of result) ≡ false }
{
    let mut ports = ArrayVec::new();
    ports.push(port((GM, 1), (SW1, 1), Role::Master));
    set_of(GM, 0, ports)
}

/// `sw1`. Its ports come in falling order.
pub fn sw1_set() -> NodeSet
    ensures fits { FitsNodeSet result }
    ensures slave { is_some (slave_of result) ≡ true }
{
    let mut ports = ArrayVec::new();
    ports.push(port((SW1, 2), (LEAF, 1), Role::Master));
    ports.push(port((SW1, 1), (GM, 1), Role::Slave));
    set_of(SW1, 1, ports)
}

/// `leaf`.
pub fn leaf_set() -> NodeSet
    ensures fits { FitsNodeSet result }
    ensures slave { is_some (slave_of result) ≡ true }
{
    let mut ports = ArrayVec::new();
    ports.push(port((LEAF, 1), (SW1, 2), Role::Slave));
    set_of(LEAF, 2, ports)
}

// 18 master ports.
fn masters() -> ArrayVec<PortDs, 18>
    ensures numbers { OfDifferentNumbers result.items }
    ensures slave { is_some (slave_in result.items) ≡ false }
{
    let mut ports = ArrayVec::new();
    for number in 1..=18u16 {
        ports.push(port((GM, number), (SW1, number), Role::Master));
    }
    ports
}

/// `star`.
pub fn star_set() -> NodeSet
    ensures fits { FitsNodeSet result }
    ensures slave { is_some (slave_of result) ≡ false }
{
    let mut set = set_of(GM, 0, masters());
    set.link.quiet = 1;
    set.sched.announce = 1;
    set.sched.sync = 1;
    set
}
