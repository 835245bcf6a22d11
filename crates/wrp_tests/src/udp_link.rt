//! A link over sockets of this machine: what goes in at one end comes out at the other, nothing else does, and what the
//! system refuses is a fault.
mod system;

use std::alloc::Global;
use std::io;
use std::io::Read;
use std::net::{Ipv4Addr, Net, SocketAddrV4, TcpListener, TcpStream, UdpSocket};
use std::os::fd::OwnedFd;
use std::test::Fail;
use system::{Given, NoNet};
use wrp_base::Frame;
use wrp_io::{Link, StartFault, UdpLink};

// The Signaling message of a slave with SLAVE_PRESENT.
const FRAME: [u8; 56] = [
    0x0c, 0x02, 0x00, 0x38, 0x00, 0x00, 0x00, 0x00, 0x00, 0x00, 0x00, 0x00, 0x00, 0x00, 0x00, 0x00,
    0x00, 0x00, 0x00, 0x00, 0x00, 0x1b, 0xc5, 0xff, 0xfe, 0x00, 0x00, 0x02, 0x00, 0x01, 0x00, 0x00,
    0x05, 0x7f, 0x00, 0x1b, 0xc5, 0xff, 0xfe, 0x00, 0x00, 0x01, 0x00, 0x01, 0x00, 0x03, 0x00, 0x08,
    0x08, 0x00, 0x30, 0xde, 0xad, 0x01, 0x10, 0x00,
];

// An address of this machine, at a port that the system chooses.
fn local() -> SocketAddrV4 {
    SocketAddrV4::new(Ipv4Addr::LOCALHOST, 0)
}

// How often a test asks for what the system may take a while to deliver.
const PATIENCE: u32 = 1_000_000;

// The first datagram that comes at an end.
fn received<L: Link>(link: &mut L, end: u32) -> Result<Frame, Fail> {
    let mut out = Frame::new();
    for _ in 0..PATIENCE {
        if link.recv(end, &mut out).ok().ok_or("recv")? {
            return Ok(out);
        }
    }
    Err(Fail::from("nothing came"))
}

// Whether nothing waits at an end, and then the frame comes that is sent from the other end.
fn carries<L: Link>(link: &mut L, from: u32, to: u32) -> Result<bool, Fail> {
    if link.recv(to, &mut Frame::new()).ok().ok_or("recv")? {
        return Ok(false);
    }
    link.send(from, &FRAME).ok().ok_or("send")?;
    Ok(received(link, to)?.as_slice() == FRAME.as_slice())
}

#[test]
fn odd_end_has_its_other_end(rt: HostRuntime) -> Result<(), Fail> {
    let mut link = UdpLink::new(&rt, rt.alloc());
    link.start(3).ok().ok_or("start")?;
    for (from, to) in [(0, 1), (1, 0), (2, 3), (3, 2)] {
        assert!(rt; carries(&mut link, from, to)?);
    }
    assert!(rt; link.send(4, &FRAME).is_err());
    link.start(0).ok().ok_or("start")?;
    assert!(rt; link.send(0, &FRAME).is_err());
    assert!(rt; link.recv(0, &mut Frame::new()).is_err());
    Ok(())
}

// Whether a start over a system without sockets is a fault, and not a lack of memory.
fn is_start_fault(alloc: Global, cause: io::ErrorKind) -> Option<bool> {
    match UdpLink::new(&NoNet(cause), alloc).start(2) {
        Err(StartFault::Failed) => Some(true),
        Err(StartFault::Memory(_)) => Some(false),
        Ok(()) => None,
    }
}

#[test]
fn no_sockets_are_a_fault(rt: HostRuntime) {
    let alloc = rt.alloc();
    assert_eq!(rt;
        is_start_fault(alloc, io::ErrorKind::Unsupported),
        Some(true)
    );
    assert_eq!(rt;
        is_start_fault(alloc, io::ErrorKind::OutOfMemory),
        Some(false)
    );
}

// A system with two sockets of this machine.
fn given<R: Net>(rt: &R) -> io::Result<Given> {
    Ok(Given {
        upper: UdpSocket::bind(rt, local())?,
        lower: UdpSocket::bind(rt, local())?,
    })
}

// Whether a `recv` at an end fails in the end.
fn recv_fails<L: Link>(link: &mut L, end: u32) -> bool {
    let mut out = Frame::new();
    for _ in 0..PATIENCE {
        if link.recv(end, &mut out).is_err() {
            return true;
        }
    }
    false
}

// Whether a `send` from an end fails in the end.
fn send_fails<L: Link>(link: &mut L, end: u32) -> bool {
    for _ in 0..PATIENCE {
        if link.send(end, &FRAME).is_err() {
            return true;
        }
    }
    false
}

// The lower end's socket is connected to one that hears itself alone: the system refuses what is sent there, and says so at
// the next call of the lower end's socket.
#[test]
fn refused_datagrams_are_faults(rt: HostRuntime) -> Result<(), Fail> {
    let deaf = UdpSocket::bind(&rt, local())?;
    deaf.connect(deaf.local_addr()?)?;
    let system = given(&rt)?;
    let mut link = UdpLink::new(&system, rt.alloc());
    link.start(2).ok().ok_or("start")?;
    assert!(rt; carries(&mut link, 0, 1)?);
    system.lower.connect(deaf.local_addr()?)?;
    link.send(1, &FRAME).ok().ok_or("send")?;
    assert!(rt; recv_fails(&mut link, 1), "recv");
    assert_eq!(rt; link.recv(1, &mut Frame::new()).ok(), Some(false));
    assert!(rt; send_fails(&mut link, 1), "send");
    Ok(())
}

// A stranger sends before the ends are connected, and afterwards.
#[test]
fn strangers_are_not_heard(rt: HostRuntime) -> Result<(), Fail> {
    let stranger = UdpSocket::bind(&rt, local())?;
    let system = given(&rt)?;
    for end in [&system.upper, &system.lower] {
        stranger.send_to(&[1; 56], end.local_addr()?)?;
        end.peek(&mut [0; 1])?;
    }
    let mut link = UdpLink::new(&system, rt.alloc());
    link.start(2).ok().ok_or("start")?;
    for (end, from, to) in [(&system.upper, 1, 0), (&system.lower, 0, 1)] {
        stranger.send_to(&[2; 56], end.local_addr()?)?;
        assert!(rt; carries(&mut link, from, to)?, "end {to}");
    }
    Ok(())
}

#[test]
fn long_datagrams_are_cut(rt: HostRuntime) -> Result<(), Fail> {
    let system = given(&rt)?;
    let mut link = UdpLink::new(&system, rt.alloc());
    link.start(2).ok().ok_or("start")?;
    system.upper.send(&[7; 300])?;
    assert_eq!(rt; received(&mut link, 1)?.as_slice(), [7; 256].as_slice());
    assert!(rt; carries(&mut link, 0, 1)?);
    Ok(())
}

// A stream between two sockets of this machine.
fn stream<R: Net<Stream = TcpStream, Listener = TcpListener>>(
    rt: &R,
) -> io::Result<(TcpStream, TcpStream)> {
    let listener = TcpListener::bind(rt, local())?;
    let near = TcpStream::connect(rt, listener.local_addr()?)?;
    let (far, _) = listener.accept()?;
    Ok((near, far))
}

// The system takes a datagram whole or not at all. A stream in the socket's place takes what it has room for.
#[test]
fn part_of_a_frame_taken_is_a_fault(rt: HostRuntime) -> Result<(), Fail> {
    let (near, mut far) = stream(&rt)?;
    let system = Given {
        upper: UdpSocket::from(OwnedFd::from(near)),
        lower: UdpSocket::bind(&rt, local())?,
    };
    let mut link = UdpLink::new(&system, rt.alloc());
    link.start(2).ok().ok_or("start")?;
    let mut whole = 0u64;
    for _ in 0..PATIENCE {
        if link.send(0, &[7; 251]).is_err() {
            break;
        }
        whole = whole.saturating_add(251);
    }
    drop(link);
    drop(system);
    let taken = far.read_to_end(&mut Vec::new(rt.alloc()))? as u64;
    assert!(rt;
        whole < taken && taken < whole.saturating_add(251),
        "{taken} and {whole} bytes"
    );
    Ok(())
}
