//! What a node is set to, gathered from the network that it is a node of.
ghost use Rattle.std.specs.Prelude.{◌≡◌, ℕ, ◌+◌, ◌++◌, ◌<◌, ◌≤◌, length, unsigned_abs};
ghost use Rattle.std.specs.List.{filter};
ghost use Rattle.std.specs.Option.{is_some, option_map};
ghost use Rattle.wrp_network.specs.Network as network;
ghost use Rattle.wrp_network.specs.Network.{HasRanges, NamesNoPortTwice, IsTree, IsGrandmaster, HasDepth, node_count};
ghost use Rattle.wrp_base.specs.Ranges.{IsFromTo};
ghost use Rattle.wrp_node.specs.New.{FitsNodeSet};
ghost use Rattle.wrp_node.specs.NodeAt.{is_slave, slave_of};
ghost use Rattle.wrp_node.specs.Set as spec;

use crate::NodeSet;
use arrayvec::ArrayVec;
use wrp_base::{PortIdentity, Role};
use wrp_data::{DefaultDs, PortDs};
use wrp_link::LinkSet;
use wrp_network::{LinkCfg, NetCfg, link_above};
use wrp_port::Sched;
use wrp_servo::ServoSet;

/// The most links from a node up to the grandmaster.
const MOST_LINKS: u16 = 8;

/// What the node of this number is set to in a network: the numbers of the network, what the node
/// knows of its place in the tree, and a port for each end of a link that it has.
pub fn node_set(net: &NetCfg, n: u8) -> NodeSet
    requires ranges { HasRanges net.now }
    requires ports { NamesNoPortTwice net.now }
    requires tree { IsTree net.now }
    requires counts { unsigned_abs net.now.delock_samples < unsigned_abs net.now.lock_samples }
    requires node { n < node_count net.now }
    ensures value { result ≡ spec.set_of net.now n }
    ensures fits { FitsNodeSet result }
    // It has a slave port if and only if it has a link above it.
    ensures has_slave { is_some (slave_of result) ≡ is_some (network.link_above net.now n) }
    ensures slave { slave_of result ≡ option_map (λ link. link.lower_port) (network.link_above net.now n) }
    ensures one_slave { length (filter (λ ds. is_slave ds.role) result.ports.items) ≤ 1 }
    ensures steps { HasDepth net.now result.own.steps n }
    ensures gm { (top : ℕ) → IsGrandmaster net.now top → result.own.gm ≡ spec.identity_of net.now top }
{
    NodeSet {
        own: own_of(net, n),
        ports: ports_of(net, n),
        link: link_set_of(net),
        sched: sched_of(net),
        servo: servo_set_of(net),
        ring: usize::from(short(net.ring)),
        report: count(net.report),
    }
}

// A count of the network, none of which is negative.
fn count(number: i64) -> u32
    requires { IsFromTo 0 1_048_576 number }
    ensures { result ≡ unsigned_abs number }
{
    number.unsigned_abs() as u32
}

// A number of the network that fits 16 bits.
fn short(number: i64) -> u16
    requires { IsFromTo 0 65_535 number }
    ensures { result ≡ unsigned_abs number }
{
    number.unsigned_abs() as u16
}

// The numbers of link setup; each port reads its own `wr`.
fn link_set_of(net: &NetCfg) -> LinkSet
    requires { HasRanges net.now }
    ensures { result ≡ spec.link_set_of net.now }
{
    LinkSet {
        quiet: count(net.quiet),
        wait: count(net.wait),
        lock_wait: count(net.lock_wait),
        retries: count(net.retries),
        holdoff: count(net.holdoff),
        wr: true,
    }
}

// The numbers of a port's schedule and of the lease.
fn sched_of(net: &NetCfg) -> Sched
    requires { HasRanges net.now }
    ensures { result ≡ spec.sched_of net.now }
{
    Sched {
        announce: count(net.announce),
        sync: count(net.sync),
        delay: count(net.delay),
        lease: count(net.lease),
    }
}

// The numbers of the servo.
fn servo_set_of(net: &NetCfg) -> ServoSet
    requires { HasRanges net.now }
    ensures { result ≡ spec.servo_set_of net.now }
{
    ServoSet {
        holdover: count(net.holdover),
        age: count(net.age),
        stable: count(net.stable),
        gap: count(net.gap),
        lock_samples: count(net.lock_samples),
        delock_samples: count(net.delock_samples),
        threshold: count(net.threshold),
        track_tau: i128::from(net.track_tau),
        loop_tau: i128::from(net.loop_tau),
        phase_step: i128::from(net.phase_step),
        kp: short(net.kp),
        ki: short(net.ki),
        bias: short(net.bias),
        clock: net.clock,
    }
}

// clockIdentity of the node of this number.
fn identity_of(net: &NetCfg, n: u8) -> u64
    ensures { result ≡ spec.identity_of net.now n }
{
    match net.nodes.as_slice().get(usize::from(n)) {
        Some(node) => node.identity,
        None => 0,
    }
}

// How many links lead from a node up to the grandmaster, and which node that is.
#[derive(Drop)]
struct Way {
    steps: u16,
    top: u8,
}

// The way up from a node.
fn way_up(net: &NetCfg, n: u8) -> Way
    ensures steps { result.steps ≡ spec.steps_up 8 net.now n }
    ensures top { result.top ≡ spec.top_up 8 net.now n }
{
    let mut top = n;
    for steps in 0..MOST_LINKS {
        match link_above(net, top) {
            None => return Way { steps, top },
            Some(link) => top = link.upper,
        }
    }
    Way {
        steps: MOST_LINKS,
        top,
    }
}

// What a node knows of itself.
fn own_of(net: &NetCfg, n: u8) -> DefaultDs
    requires { HasRanges net.now }
    ensures { result ≡ spec.own_of net.now n }
{
    let way = way_up(net, n);
    DefaultDs {
        identity: identity_of(net, n),
        domain: octet(net.domain),
        gm: identity_of(net, way.top),
        steps: way.steps,
    }
}

// A number of the network that fits 8 bits.
fn octet(number: i64) -> u8
    requires { IsFromTo 0 255 number }
    ensures { result ≡ unsigned_abs number }
{
    number.unsigned_abs() as u8
}

// The ports of a node, in file order of their links.
fn ports_of(net: &NetCfg, n: u8) -> ArrayVec<PortDs, 18>
    requires ranges { HasRanges net.now }
    requires ports { NamesNoPortTwice net.now }
    ensures { result.items ≡ spec.ports_of net.now n }
{
    let mut ports = ArrayVec::new();
    for link in net.links.as_slice() {
        add_ports(net, n, link, &mut ports);
    }
    ports
}

// Adds the ports that a node has at a link.
fn add_ports(net: &NetCfg, n: u8, link: &LinkCfg, ports: &mut ArrayVec<PortDs, 18>)
    requires { length ports.old.items + length (spec.ports_at net.now n link.now) ≤ 18 }
    ensures { ports.new.items ≡ ports.old.items ++ spec.ports_at net.now n link.now }
{
    if link.upper == n {
        ports.push(PortDs {
            own: upper_of(net, link),
            peer: lower_of(net, link),
            role: Role::Master,
            wr: link.wr,
        });
    }
    if link.lower == n {
        ports.push(PortDs {
            own: lower_of(net, link),
            peer: upper_of(net, link),
            role: Role::Slave,
            wr: link.wr,
        });
    }
}

// portIdentity of the upper end of a link.
fn upper_of(net: &NetCfg, link: &LinkCfg) -> PortIdentity
    ensures { result ≡ spec.upper_of net.now link.now }
{
    PortIdentity {
        clock: identity_of(net, link.upper),
        port: link.upper_port,
    }
}

// portIdentity of the lower end of a link.
fn lower_of(net: &NetCfg, link: &LinkCfg) -> PortIdentity
    ensures { result ≡ spec.lower_of net.now link.now }
{
    PortIdentity {
        clock: identity_of(net, link.lower),
        port: link.lower_port,
    }
}
