//! What a link over sockets carries, and what `loop` makes of it.
use crate::looping::{audited, looped, others};
use std::alloc::Global;
use std::io;
use std::net::{Ipv4Addr, Net, SocketAddr, SocketAddrV4, TcpListener, TcpStream, UdpSocket};
use std::test::Fail;
use wrp_base::Frame;
use wrp_io::{Link, UdpLink};
use wrp_run::Status;

// The Signaling message of a slave with SLAVE_PRESENT.
const FRAME: [u8; 56] = [
    0x0c, 0x02, 0x00, 0x38, 0x00, 0x00, 0x00, 0x00, 0x00, 0x00, 0x00, 0x00, 0x00, 0x00, 0x00, 0x00,
    0x00, 0x00, 0x00, 0x00, 0x00, 0x1b, 0xc5, 0xff, 0xfe, 0x00, 0x00, 0x02, 0x00, 0x01, 0x00, 0x00,
    0x05, 0x7f, 0x00, 0x1b, 0xc5, 0xff, 0xfe, 0x00, 0x00, 0x01, 0x00, 0x01, 0x00, 0x03, 0x00, 0x08,
    0x08, 0x00, 0x30, 0xde, 0xad, 0x01, 0x10, 0x00,
];

// Whether a frame that is sent from one end is the first that comes at the other.
fn carries<L: Link>(link: &mut L, from: u32, to: u32) -> Result<bool, Fail> {
    link.send(from, &FRAME).ok().ok_or("send")?;
    let mut out = Frame::new();
    for _ in 0..1_000_000 {
        if link.recv(to, &mut out).ok().ok_or("recv")? {
            return Ok(out.as_slice() == FRAME.as_slice());
        }
    }
    Ok(false)
}

// Whether a loop over a link comes to its end and hands frames over, and an audit of its events prints its other lines.
fn loops<L: Link>(alloc: Global, link: &mut L) -> Result<bool, Fail> {
    let run = looped(alloc, link)?;
    let audit = audited(alloc, run.text.as_str())?;
    let other_lines = others(alloc, run.text.as_str())?;
    let hands_over = run.text.lines().any(|line| line.starts_with("= deliver"));
    let are_done = run.status == Status::Done && audit.status == Status::Done;
    Ok(are_done && hands_over && audit.text.as_str() == other_lines.as_str())
}

#[test]
fn udp_carries(rt: HostRuntime) -> Result<(), Fail> {
    let mut link = UdpLink::new(&rt, rt.alloc());
    link.start(2).ok().ok_or("start")?;
    for (from, to) in [(0, 1), (1, 0)] {
        assert!(rt; carries(&mut link, from, to)?);
    }
    let mut new_link = UdpLink::new(&rt, rt.alloc());
    assert!(rt; loops(rt.alloc(), &mut new_link)?);
    Ok(())
}

// A system that gives four sockets, the ends of two links. When it gives the third one, it connects the second one to that.
// The third will hear the fourth alone, so the system refuses what the second one sends, and says so at its next call.
#[derive(Drop)]
struct Turning {
    sockets: [UdpSocket; 4],
}

impl Net for Turning {
    type Stream = TcpStream;

    type Listener = TcpListener;

    fn bind(&self, _addr: SocketAddr) -> io::Result<TcpListener> {
        Err(io::Error::from(io::ErrorKind::Unsupported))
    }

    fn connect(&self, _addr: SocketAddr) -> io::Result<TcpStream> {
        Err(io::Error::from(io::ErrorKind::Unsupported))
    }

    // A socket is marked as given by its broadcast option, which a link does not use.
    fn bind_udp(&self, _addr: SocketAddr) -> io::Result<UdpSocket> {
        let [first, second, third, fourth] = &self.sockets;
        for socket in [first, second, third, fourth] {
            if !socket.broadcast()? {
                socket.set_broadcast(true)?;
                if third.broadcast()? && !fourth.broadcast()? {
                    second.connect(third.local_addr()?)?;
                }
                return socket.try_clone();
            }
        }
        Err(io::Error::from(io::ErrorKind::Unsupported))
    }
}

// A socket on this machine, at a port that the system chooses.
fn socket<R: Net>(rt: &R) -> io::Result<UdpSocket> {
    UdpSocket::bind(rt, SocketAddrV4::new(Ipv4Addr::LOCALHOST, 0))
}

// What the lower end of the first link sends is refused. The system says so at its next `recv`: when the first frame of
// the upper end arrives. What was written before stays, and the audit of these events prints it again.
#[test]
fn refused_datagrams_end_a_loop(rt: HostRuntime) -> Result<(), Fail> {
    let alloc = rt.alloc();
    let system = Turning {
        sockets: [socket(&rt)?, socket(&rt)?, socket(&rt)?, socket(&rt)?],
    };
    let run = looped(alloc, &mut UdpLink::new(&system, alloc))?;
    assert_eq!(rt; run.status, Status::LinkFault);
    let (before, after) = run
        .text
        .split_once("= depart,gm,1,")
        .ok_or("a frame of gm")?;
    assert!(rt;
        before.contains("= depart,sw1,1,") && !after.contains("= arrive,"),
        "{after}"
    );
    let audit = audited(alloc, run.text.as_str())?;
    let other_lines = others(alloc, run.text.as_str())?;
    assert!(rt;
        audit.text.starts_with(other_lines.as_str()),
        "{}",
        audit.text
    );
    Ok(())
}
