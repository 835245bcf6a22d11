//! What a port sends at each tick after its quiet time, and what its sequenceIds are as they go round.
ghost use Rattle.std.specs.Prelude.{◌≤◌};
ghost use Rattle.wrp_port.specs.PortAt.{IsFit};

use arrayvec::ArrayVec;
use std::alloc::{AllocError, Global};
use std::process::Abort;
use std::test::Fail;
use wrp_base::{Body, Head, LinkWord, Module, PortIdentity, PtpMsg, Role, Stamp, Ts, WrMsg};
use wrp_data::{DefaultDs, PortDs};
use wrp_link::LinkSet;
use wrp_port::{Port, PortIn, Sched};

const OWN: PortIdentity = PortIdentity {
    clock: 0x001b_c5ff_fe00_0002,
    port: 1,
};

const PEER: PortIdentity = PortIdentity {
    clock: 0x001b_c5ff_fe00_0001,
    port: 3,
};

const NODE: DefaultDs = DefaultDs {
    identity: OWN.clock,
    domain: 7,
    gm: PEER.clock,
    steps: 1,
};

const LINK: LinkSet = LinkSet {
    quiet: 2,
    wait: 3,
    lock_wait: 4,
    retries: 1,
    holdoff: 3,
    wr: true,
};

const UP: PortIn = PortIn::Carrier {
    up: true,
    module: Some(Module {
        tx: 11,
        rx: 12,
        transition: 0,
        err: 0,
    }),
};

const TICK: PortIn = PortIn::Tick {
    locked: false,
    certain: true,
};

const ZERO: Ts = Ts {
    seconds: 0,
    nanos: 0,
};

// How often a port sends, and how many ticks it is looked at.
#[derive(Clone, Copy)]
struct Schedule {
    announce: u32,
    sync: u32,
    delay: u32,
    ticks: u32,
}

// Two schedules: of 200 ticks, and of so many that each sequenceId goes round.
const SCHEDULES: [Schedule; 2] = [
    Schedule {
        announce: 3,
        sync: 4,
        delay: 5,
        ticks: 200,
    },
    Schedule {
        announce: 1,
        sync: 1,
        delay: 1,
        ticks: 65_538,
    },
];

// A port of this schedule.
fn new_port(alloc: Global, role: Role, schedule: &Schedule) -> Result<Port, AllocError>
    requires announce { 1 ≤ schedule.now.announce }
    requires sync { 1 ≤ schedule.now.sync }
    requires delay { 1 ≤ schedule.now.delay }
{
    let ds = PortDs {
        own: OWN,
        peer: PEER,
        role,
        wr: true,
    };
    let sched = Sched {
        announce: schedule.announce,
        sync: schedule.sync,
        delay: schedule.delay,
        lease: 2,
    };
    Port::new(alloc, ds, NODE, LINK, sched, 2)
}

// A message of the port.
fn own(flags: u16, seq: u32, interval: u8, body: Body) -> PtpMsg {
    PtpMsg {
        head: Head {
            domain: 7,
            flags,
            correction: 0,
            source: OWN,
            seq: (seq % 65_536) as u16,
            interval,
        },
        body,
    }
}

// An Announce of the port.
fn announce(seq: u32) -> PtpMsg {
    let body = Body::Announce {
        origin: ZERO,
        utc: 0,
        p1: 0x80,
        quality: 0xf8fe_ffff,
        p2: 0x80,
        gm: PEER.clock,
        steps: 1,
        source: 0xa0,
        suffix: Some(5),
    };
    own(0, seq, 0, body)
}

// What the schedule sends at the k-th tick after quiet time.
fn due_at(role: Role, schedule: &Schedule, k: u32) -> ArrayVec<PtpMsg, 4>
    requires announce { 1 ≤ schedule.now.announce }
    requires sync { 1 ≤ schedule.now.sync }
    requires delay { 1 ≤ schedule.now.delay }
{
    let mut sends = ArrayVec::new();
    if role == Role::Master && k % schedule.announce == 0 {
        sends.push(announce(k / schedule.announce));
    }
    if role == Role::Master && k % schedule.sync == 0 {
        let body = Body::Sync { origin: ZERO };
        sends.push(own(0x0200, k / schedule.sync, 0, body));
    }
    if role == Role::Slave && k % schedule.delay == 0 {
        let body = Body::DelayReq { origin: ZERO };
        sends.push(own(0, k / schedule.delay, 0x7f, body));
    }
    sends
}

// Quiet time, and then the ticks of the schedule, at each of which a port sends what is due.
fn tries_ticks(rt: &impl Abort, port: &mut Port, role: Role, schedule: &Schedule)
    requires announce { 1 ≤ schedule.now.announce }
    requires sync { 1 ≤ schedule.now.sync }
    requires delay { 1 ≤ schedule.now.delay }
{
    let word = port.step(UP).word;
    let quiet = port.step(TICK).sends.is_empty();
    assert!(rt; word == Some(LinkWord::Quiet) && quiet);
    for k in 0..schedule.ticks {
        let out = port.step(TICK);
        let due = due_at(role, schedule, k);
        assert!(rt; out.sends.as_slice() == due.as_slice(), "{k}");
    }
}

// A SLAVE_PRESENT of the peer.
fn present() -> PortIn
    ensures { IsFit result }
{
    let body = Body::Signal {
        target: OWN,
        wr: Some(WrMsg::Present),
    };
    PortIn::Msg {
        msg: PtpMsg {
            head: Head {
                domain: 7,
                source: PEER,
                ..Head::default()
            },
            body,
        },
        stamp: Stamp {
            value: 0,
            sample: 0,
        },
        tick: 7,
    }
}

// A master answers each SLAVE_PRESENT with a LOCK, whose sequenceId goes round.
fn tries_signals(rt: &impl Abort, port: &mut Port) {
    for k in 0..65_538u32 {
        let body = Body::Signal {
            target: PEER,
            wr: Some(WrMsg::Lock),
        };
        let lock = own(0, k, 0x7f, body);
        let sends = port.step(present()).sends;
        assert!(rt; sends.as_slice() == [lock].as_slice(), "{k}");
    }
}

#[test]
fn keeps_its_schedule(rt: HostRuntime) -> Result<(), Fail> {
    for schedule in SCHEDULES {
        assert!(rt; schedule.announce >= 1 && schedule.sync >= 1 && schedule.delay >= 1);
        let mut master = new_port(rt.alloc(), Role::Master, &schedule)?;
        tries_ticks(&rt, &mut master, Role::Master, &schedule);
        tries_signals(&rt, &mut master);
        let mut slave = new_port(rt.alloc(), Role::Slave, &schedule)?;
        tries_ticks(&rt, &mut slave, Role::Slave, &schedule);
    }
    Ok(())
}
