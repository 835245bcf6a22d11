//! A node before any input.
ghost use Rattle.std.specs.Prelude.{◌≡◌, [], IfOk, IfSome, is_some};
ghost use Rattle.std.specs.List.{AllZip};
ghost use Rattle.wrp_law.specs.Law.{KeepsFact};
ghost use Rattle.wrp_node.specs.Control.{law_in};
ghost use Rattle.wrp_node.specs.New.{FitsNodeSet, FitsPorts, OfDifferentNumbers, IsNewPlace, node_setting_of};
ghost use Rattle.wrp_node.specs.Node.{IsValid};
ghost use Rattle.wrp_node.specs.NodeAt.{in_order, slave_of};
ghost use Rattle.wrp_node.specs.StandsFor.{StandsFor};

use super::Node;
use crate::NodeSet;
use crate::control::Control;
use crate::order::{in_order, slave_of};
use crate::parts::Parts;
use crate::place::PortPlace;
use crate::ports::Ports;
use std::alloc::{AllocError, Global};
use wrp_data::PortDs;
use wrp_law::DelayLaw;
use wrp_link::LinkSet;
use wrp_port::Port;
use wrp_servo::Servo;

impl<F: Fn(i64) -> i64> Node<F> {
    /// A node before any input: all its ports are down, and its counters 0. It has a law if and only if
    /// it has a slave port. It takes all the memory that it will need. AllocError if there is no room for
    /// the list of its ports or for one of them: then there is no node, and `cfg` and `law` are gone.
    pub fn new(alloc: Global, cfg: NodeSet, law: Option<DelayLaw<F>>) -> Result<Node<F>, AllocError>
        requires set { FitsNodeSet cfg }
        requires law { is_some law ≡ is_some (slave_of cfg) }
        requires fact { IfSome law (KeepsFact F.pre F.post) }
        ensures stands { IfOk result (λ node. StandsFor F.post (node_setting_of cfg law) node []) }
        ensures valid { IfOk result (IsValid F.pre F.post) }
        ensures law { IfOk result (λ node. law_in node.control ≡ law) }
    {
        let ports = new_ports(alloc, &cfg)?;
        Ok(Node {
            parts: Parts {
                ports,
                slave: slave_of(cfg.ports.as_slice()),
                clock: cfg.servo.clock,
                ticks: 0,
                cycles: 0,
                dac: None,
            },
            control: Control::of(cfg.servo, law),
            report: cfg.report,
        })
    }
}

// The ports of a node, in ascending order.
fn new_ports(alloc: Global, cfg: &NodeSet) -> Result<Ports, AllocError>
    requires ports { FitsPorts cfg.now }
    requires numbers { OfDifferentNumbers cfg.now.ports.items }
    ensures { IfOk result (AllZip (IsNewPlace cfg.now) (in_order cfg.now.ports.items)) }
{
    let ordered = in_order(&cfg.ports);
    let mut places = Vec::new(alloc);
    for ds in ordered.as_slice() {
        places.push(new_place(alloc, cfg, ds)?)?;
    }
    Ok(Ports::of(places))
}

// A port of a node.
fn new_place(alloc: Global, cfg: &NodeSet, ds: &PortDs) -> Result<PortPlace, AllocError>
    requires { FitsPorts cfg.now }
    ensures { IfOk result (IsNewPlace cfg.now ds.now) }
{
    let port = Port::new(alloc, *ds, cfg.own, link_set(cfg, ds), cfg.sched, cfg.ring)?;
    Ok(PortPlace::new(ds.own.port, port))
}

// What the link of a port is set to.
fn link_set(cfg: &NodeSet, ds: &PortDs) -> LinkSet
    ensures { result ≡ record cfg.now.link { wr = ds.now.wr } }
{
    LinkSet {
        wr: ds.wr,
        ..cfg.link
    }
}
