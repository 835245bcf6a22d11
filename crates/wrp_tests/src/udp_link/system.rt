//! Systems in place of the real one: one that gives a link the sockets that a test made, and one that gives none.
use std::io;
use std::net::{Net, SocketAddr, TcpListener, TcpStream, UdpSocket};

/// A system that gives its two sockets, the upper end's first. The test can still change the socket that it gave.
#[derive(Drop)]
pub struct Given {
    pub upper: UdpSocket,
    pub lower: UdpSocket,
}

impl Net for Given {
    type Stream = TcpStream;

    type Listener = TcpListener;

    fn bind(&self, _addr: SocketAddr) -> io::Result<TcpListener> {
        Err(io::Error::from(io::ErrorKind::Unsupported))
    }

    fn connect(&self, _addr: SocketAddr) -> io::Result<TcpStream> {
        Err(io::Error::from(io::ErrorKind::Unsupported))
    }

    // A socket is marked as given by its broadcast option, which a link does not use.
    fn bind_udp(&self, _addr: SocketAddr) -> io::Result<UdpSocket> {
        if self.upper.broadcast()? {
            return self.lower.try_clone();
        }
        self.upper.set_broadcast(true)?;
        self.upper.try_clone()
    }
}

/// A system that gives no socket, for this cause.
#[derive(Drop)]
pub struct NoNet(pub io::ErrorKind);

impl Net for NoNet {
    type Stream = TcpStream;

    type Listener = TcpListener;

    fn bind(&self, _addr: SocketAddr) -> io::Result<TcpListener> {
        Err(io::Error::from(self.0))
    }

    fn connect(&self, _addr: SocketAddr) -> io::Result<TcpStream> {
        Err(io::Error::from(self.0))
    }

    fn bind_udp(&self, _addr: SocketAddr) -> io::Result<UdpSocket> {
        Err(io::Error::from(self.0))
    }
}
