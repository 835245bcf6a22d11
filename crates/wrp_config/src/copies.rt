//! A copy of a network. Nothing is read again.
ghost use Rattle.std.specs.Prelude.{◌≡◌, ◌≤◌, IfOk, length};

use crate::network::Network;
use arrayvec::ArrayVec;
use std::alloc::{AllocError, Global};
use wrp_network::{LinkCfg, NetCfg, NodeCfg};

// The same node.
fn node_copied(node: &NodeCfg) -> NodeCfg
    ensures { result ≡ node.now }
{
    NodeCfg {
        name: node.name,
        identity: node.identity,
        e_tx: node.e_tx,
        e_tag: node.e_tag,
        beat: node.beat,
        slew: node.slew,
        held: node.held,
    }
}

// The same link.
fn link_copied(link: &LinkCfg) -> LinkCfg
    ensures { result ≡ link.now }
{
    LinkCfg {
        name: link.name,
        upper: link.upper,
        upper_port: link.upper_port,
        lower: link.lower,
        lower_port: link.lower_port,
        wr: link.wr,
        upper_module: link.upper_module,
        lower_module: link.lower_module,
        fibre: link.fibre,
        kappa: link.kappa,
        e_asym: link.e_asym,
        down_nm: link.down_nm,
        up_nm: link.up_nm,
        e_db: link.e_db,
        law_err: link.law_err,
    }
}

// The same nodes, in their order.
fn nodes_copied(nodes: &[NodeCfg]) -> ArrayVec<NodeCfg, 64>
    requires { length nodes.now ≤ 64 }
    ensures { result.items ≡ nodes.now }
{
    let mut copies = ArrayVec::new();
    for node in nodes {
        copies.push(node_copied(node));
    }
    copies
}

// The same links, in their order.
fn links_copied(links: &[LinkCfg]) -> ArrayVec<LinkCfg, 63>
    requires { length links.now ≤ 63 }
    ensures { result.items ≡ links.now }
{
    let mut copies = ArrayVec::new();
    for link in links {
        copies.push(link_copied(link));
    }
    copies
}

// The same numbers of a network, with its nodes and links.
fn cfg_copied(cfg: &NetCfg) -> NetCfg
    ensures { result ≡ cfg.now }
{
    NetCfg {
        epoch: cfg.epoch,
        domain: cfg.domain,
        dmin_ns: cfg.dmin_ns,
        dmax_ns: cfg.dmax_ns,
        life_ns: cfg.life_ns,
        reach_ns: cfg.reach_ns,
        quiet: cfg.quiet,
        holdover: cfg.holdover,
        wait: cfg.wait,
        lock_wait: cfg.lock_wait,
        holdoff: cfg.holdoff,
        lease: cfg.lease,
        age: cfg.age,
        report: cfg.report,
        stable: cfg.stable,
        lock_samples: cfg.lock_samples,
        retries: cfg.retries,
        gap: cfg.gap,
        announce: cfg.announce,
        sync: cfg.sync,
        delay: cfg.delay,
        ring: cfg.ring,
        track_tau: cfg.track_tau,
        loop_tau: cfg.loop_tau,
        phase_step: cfg.phase_step,
        kp: cfg.kp,
        ki: cfg.ki,
        bias: cfg.bias,
        threshold: cfg.threshold,
        delock_samples: cfg.delock_samples,
        clock: cfg.clock,
        nodes: nodes_copied(&cfg.nodes),
        links: links_copied(&cfg.links),
        e_db: cfg.e_db,
        tx_max: cfg.tx_max,
        rx_max: cfg.rx_max,
    }
}

impl Network {
    /// The same network once more, on the heap, since it is large: no frame of a caller has room for
    /// one. Returns an error if there is no memory for it; this network stays as it is.
    #[inline(never)]
    pub fn copied(&self, alloc: Global) -> Result<Box<Network>, AllocError>
        ensures { IfOk result (λ copy. copy.value ≡ self.now) }
    {
        let db = self.db.copied(alloc)?;
        Ok(Box::new(
            alloc,
            Network {
                cfg: cfg_copied(&self.cfg),
                db,
            },
        )?)
    }
}
