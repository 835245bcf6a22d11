//! Cases on a port. Its words are the role, the ticks from one Announce to the next, and the ticks from one Sync or
//! Delay_Req to the next, each at least 1. A line of the input is what happens at the port, and what it answers is
//! printed (`inputs` and `lines` have both).
mod heard;
mod inputs;
mod lines;

use crate::told::{Told, text_of};
use inputs::{DOMAIN, OWN, PEER, input_of};
use lines::tell;
use std::alloc::Global;
use wrp_base::Role;
use wrp_data::{DefaultDs, PortDs};
use wrp_link::LinkSet;
use wrp_port::{Port, Sched};
use wrp_suite::{Answer, Case, Fault};

const NODE: DefaultDs = DefaultDs {
    identity: OWN.clock,
    domain: DOMAIN,
    gm: PEER.clock,
    steps: 1,
};

const LINK: LinkSet = LinkSet {
    quiet: 2,
    wait: 3,
    lock_wait: 4,
    retries: 1,
    holdoff: 3,
    wr: true,
};

// How many turns of the lease a renewing Announce counts for, and how many good samples the exchange knows.
const LEASE: u32 = 2;

const RING: usize = 2;

// The role of a word.
fn role_of(word: &str) -> Option<Role> {
    match word {
        "master" => Some(Role::Master),
        "slave" => Some(Role::Slave),
        _ => None,
    }
}

// The role, and the two counts of the schedule.
fn servo_setting_of(words: &[String]) -> Option<(Role, u32, u32)> {
    match words {
        [role, announce, every] => {
            let role = role_of(role.as_str())?;
            let announce = announce.parse::<u32>().ok()?;
            let every = every.parse::<u32>().ok()?;
            Some((role, announce, every))
        }
        _ => None,
    }
}

// The port of a case.
fn port_of(alloc: Global, case: &Case) -> Result<Port, Fault> {
    let (role, announce, every) = servo_setting_of(&case.words).ok_or(Fault::Input)?;
    if announce == 0 || every == 0 {
        return Err(Fault::Condition);
    }
    let ds = PortDs {
        own: OWN,
        peer: PEER,
        role,
        wr: true,
    };
    let sched = Sched {
        announce,
        sync: every,
        delay: every,
        lease: LEASE,
    };
    Ok(Port::new(alloc, ds, NODE, LINK, sched, RING)?)
}

/// What follows from the inputs of a port.
pub fn answer(alloc: Global, case: &Case) -> Result<Answer, Fault> {
    let mut port = port_of(alloc, case)?;
    let mut told = Told::new(alloc);
    for line in text_of(case)?.lines() {
        let out = port.step(input_of(alloc, line)?);
        tell(alloc, &port, &out, &mut told)?;
    }
    Ok(told.answer())
}
