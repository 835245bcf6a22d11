//! A link over sockets of this machine, at the trusted edge as the adapters are. It reports neither its
//! calls nor what waits at its ends: what the system does between a `send` and a `recv` is outside what
//! is proved.
ghost use Rattle.std.specs.Prelude.{Ok, true, None, ◌≡◌, ◌≢◌, ◌+◌, ◌%◌, ◌≤◌, length, vec_len, IsOk, IsErr, OnOk, OnErr, IfOk, IfErr};
ghost use Rattle.wrp_io.specs.Faults.{HasCause, HasStartCause};
ghost use Rattle.wrp_io.specs.Link.{frame_of, answered, Tells, SameWaits, Sends, Receives};
ghost use Rattle.wrp_io.specs.Sockets.{UdpLinkAt, not_started, with_ends, with_fault, NotStarted};

use crate::link::{Link, StartFault};
use crate::queue::copy_of;
use crate::source::Failed;
use std::alloc::{AllocError, Global};
use std::io;
use std::marker::Model;
use std::net::{Ipv4Addr, Net, SocketAddrV4, UdpSocket};
use wrp_base::{FRAME_ROOM, Frame};

// More datagrams than a system usually keeps for a socket; if more came, the start fails.
const MOST_EARLIER: u32 = 65_536;

/// A link over UDP sockets on 127.0.0.1, one for each end. No call waits. The two ends of a link are
/// connected to one another, so that the system gives neither of them what anyone else sends.
#[derive(Drop)]
pub struct UdpLink<'a, R: Net> {
    rt: &'a R,
    alloc: Global,
    sockets: Vec<UdpSocket>,
    faults: u64,
}

impl<'a, R: Net> Model for UdpLink<'a, R> {
    ghost Value = { UdpLinkAt };

    ghost view = { λ s. record { ends = vec_len s.sockets; faults = s.faults } };
}

impl<'a, R: Net> UdpLink<'a, R> {
    /// A link without ends, whose sockets will be sockets of `rt`.
    pub fn new(rt: &'a R, alloc: Global) -> UdpLink<'a, R>
        ensures { result ≡ not_started }
    {
        UdpLink {
            rt,
            alloc,
            sockets: Vec::new(alloc),
            faults: 0,
        }
    }
}

// The sockets of the two ends of a link, which once connected hear one another and nobody else.
fn connected_pair<R: Net>(rt: &R) -> io::Result<(UdpSocket, UdpSocket)> {
    let upper = bound_socket(rt)?;
    let lower = bound_socket(rt)?;
    upper.connect(lower.local_addr()?)?;
    lower.connect(upper.local_addr()?)?;
    drop_earlier(&upper)?;
    drop_earlier(&lower)?;
    Ok((upper, lower))
}

// A socket on 127.0.0.1, at a port that was free. Its calls do not wait.
fn bound_socket<R: Net>(rt: &R) -> io::Result<UdpSocket> {
    let socket = UdpSocket::bind(rt, SocketAddrV4::new(Ipv4Addr::LOCALHOST, 0))?;
    socket.set_nonblocking(true)?;
    Ok(socket)
}

// Takes and drops what came from anyone before the socket was connected.
fn drop_earlier(socket: &UdpSocket) -> io::Result<()> {
    for _ in 0..MOST_EARLIER {
        match socket.recv(&mut [0; 1]) {
            Ok(_) => {}
            Err(error) if error.kind() == io::ErrorKind::WouldBlock => return Ok(()),
            Err(error) => return Err(error),
        }
    }
    Err(io::Error::from(io::ErrorKind::Other))
}

// The sockets of this many ends, which are connected in pairs.
fn sockets_of<R: Net>(rt: &R, alloc: Global, ends: u32) -> io::Result<Vec<UdpSocket>>
    ensures pairs { IfOk result (λ sockets. vec_len sockets ≡ ends + ends % 2) }
    ensures none { ends ≡ 0 → IsOk result }
{
    let mut sockets = Vec::new(alloc);
    for _pair in 0..ends.div_ceil(2) {
        let (upper, lower) = connected_pair(rt)?;
        sockets.push(upper)?;
        sockets.push(lower)?;
    }
    Ok(sockets)
}

// Sends one datagram from an end.
fn send_from(sockets: &[UdpSocket], end: u32, octets: &[u8]) -> Result<(), Failed>
    ensures { length sockets.now ≤ end → IsErr result }
{
    let Some(socket) = sockets.get(end as usize) else {
        return Err(Failed);
    };
    match socket.send(octets) {
        Ok(taken) if taken == octets.len() => Ok(()),
        _ => Err(Failed),
    }
}

// The datagram that waited longest at an end, if one waited there. What it has past 256 octets is
// cut off.
fn received_at(sockets: &[UdpSocket], end: u32) -> Result<Option<Frame>, Failed>
    ensures { length sockets.now ≤ end → IsErr result }
{
    let Some(socket) = sockets.get(end as usize) else {
        return Err(Failed);
    };
    let mut octets = [0; FRAME_ROOM];
    match socket.recv(&mut octets) {
        Ok(count) => Ok(Some(copy_of(&octets[..count]))),
        Err(error) if error.kind() == io::ErrorKind::WouldBlock => Ok(None),
        Err(_) => Err(Failed),
    }
}

impl<'a, R: Net> Link for UdpLink<'a, R> {
    ghost use Rattle.wrp_io.specs.declared.link.LinkCall.TheVariants.{Start, Send, Receive};

    ghost faults = { λ s. s.faults };

    /// Makes `ends` ends, and one more if that is odd, in place of the ends that the link had, with
    /// what waits there. A call of the system that fails is a fault, unless memory ran out.
    fn start(&mut self, ends: u32) -> Result<(), StartFault>
        ensures cause { HasStartCause self.old.faults self.new.faults result }
        ensures tells { Tells None None result (λ _. Start ends) }
        ensures waits { SameWaits (λ _. None) (λ _. None) }

        // No ends take no call of the system, so that none fails.
        ensures none { ends ≡ 0 → IsOk result }
        ensures good { OnOk result (self.new ≡ with_ends self.old ends) }
        ensures bad { IfErr result (NotStarted self.old self.new) }
    {
        let faults = self.faults;
        match sockets_of(self.rt, self.alloc, ends) {
            Ok(sockets) => {
                self.sockets = sockets;
                Ok(())
            }
            Err(error) if error.kind() == io::ErrorKind::OutOfMemory => {
                Err(StartFault::Memory(AllocError))
            }
            Err(_) => {
                self.faults = faults.saturating_add(1);
                Err(StartFault::Failed)
            }
        }
    }

    /// Sends the octets as one datagram. An end that the link does not have is a fault, and so is a
    /// call of the system that fails, or that takes less.
    fn send(&mut self, end: u32, bytes: &[u8]) -> Result<(), Failed>
        requires { length bytes.now ≤ 256 }
        ensures cause { HasCause self.old.faults self.new.faults result }
        ensures tells { Tells None None result (λ _. Send end (frame_of bytes.now)) }
        ensures waits { Sends (λ _. None) (λ _. None) result end bytes.now }

        // An end that the link does not have is a fault.
        ensures absent { self.old.ends ≤ end → IsErr result }
        ensures good { OnOk result (self.new ≡ self.old) }
        ensures bad { OnErr result (self.new ≡ with_fault self.old) }
    {
        let faults = self.faults;
        if send_from(&self.sockets, end, bytes).is_err() {
            self.faults = faults.saturating_add(1);
            return Err(Failed);
        }
        Ok(())
    }

    /// Answers false if nothing waits. A datagram past 256 octets is cut there. An end that the link
    /// does not have is a fault, and so is any other answer of the system.
    fn recv(&mut self, end: u32, out: &mut Frame) -> Result<bool, Failed>
        ensures cause { HasCause self.old.faults self.new.faults result }
        ensures tells { Tells None None result
            (λ answer. Receive end (answered answer out.new.items)) }
        ensures waits { Receives (λ _. None) (λ _. None) result end out.new.items }
        ensures stays { result ≢ Ok true → out.new ≡ out.old }

        // An end that the link does not have is a fault.
        ensures absent { self.old.ends ≤ end → IsErr result }
        ensures good { OnOk result (self.new ≡ self.old) }
        ensures bad { OnErr result (self.new ≡ with_fault self.old) }
    {
        let faults = self.faults;
        match received_at(&self.sockets, end) {
            Ok(Some(frame)) => {
                *out = frame;
                Ok(true)
            }
            Ok(None) => Ok(false),
            Err(Failed) => {
                self.faults = faults.saturating_add(1);
                Err(Failed)
            }
        }
    }
}
