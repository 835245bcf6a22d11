//! The ends of the links of a world.
ghost use Rattle.std.specs.Prelude.{◌≡◌, ◌≤◌, ◌≤ℤ◌, ◌+◌, ◌+ℤ◌, ◌^◌, pos, unsigned_abs};
ghost use Rattle.wrp_plant.specs.Plant.{EndIs, delays_in, end_in, down_in, up_in};
ghost use Rattle.wrp_plant.specs.Sizes.{IsDelay, IsTime};
ghost use Rattle.wrp_course.specs.Views.{oldest_of};
ghost use Rattle.wrp_course.specs.WorldAt.{EndAt};

use wrp_base::{Frame, Mark, Role, Tau, sum};
use wrp_course::FibreState;
use wrp_network::Name;

/// A frame that a port put out and that has not departed yet.
#[derive(Debug, Drop)]
pub struct PutOut {
    /// Its octets, from the PTP header on.
    pub octets: Frame,
    /// The true time at which it was put out, in tau.
    pub at: Tau,
}

/// One end of a link at some moment: a port, and the module installed there.
#[derive(Debug, Drop)]
pub struct EndState {
    /// The module's name.
    pub name: Name,
    /// Its true transmission delay, in tau.
    pub tx: u64,
    /// Its true reception delay, in tau.
    pub rx: u64,
    /// The frames that the port put out and that have not departed yet, oldest first.
    pub waiting: Vec<PutOut>,
    /// The history of the port's link, oldest mark first.
    pub marks: Vec<Mark>,
}

/// A link at some moment.
#[derive(Debug, Drop)]
pub struct Span {
    /// Its fibre.
    pub fibre: FibreState,
    /// Its upper end.
    pub master: EndState,
    /// Its lower end.
    pub slave: EndState,
}

/// The true delays of the module installed at an end of a link, in tau.
#[derive(Clone, Copy)]
pub struct Delays {
    /// For what it sends.
    pub tx: u64,
    /// For what it receives.
    pub rx: u64,
}

impl EndState {
    /// The true delays of the installed module, in tau.
    pub fn delays(&self) -> Delays
        ensures { result ≡ delays_in self.now }
    {
        Delays {
            tx: self.tx,
            rx: self.rx,
        }
    }

    /// The true time at which the oldest waiting frame was put out, in tau. `None` if no frame
    /// waits.
    pub fn oldest(&self) -> Option<Tau>
        ensures { (at : EndAt) → EndIs at self.now → result ≡ oldest_of at.waiting }
    {
        match self.waiting.first() {
            Some(out) => Some(out.at),
            None => None,
        }
    }
}

impl Span {
    /// The end of this role.
    pub fn end(&self, role: Role) -> &EndState
        ensures { result.now ≡ end_in self.now role }
    {
        match role {
            Role::Master => &self.master,
            Role::Slave => &self.slave,
        }
    }

    /// The true one-way delay down, in tau: the fibre's and both ports'.
    pub fn down(&self) -> Tau
        requires { IsDelay self.now.fibre.ms }
        ensures value { result ≡ down_in self.now }
        ensures size { IsTime result }
        ensures most { unsigned_abs result ≤ unsigned_abs self.now.fibre.ms + 2 ^ 65 }
    {
        with_ports(self.master.tx, self.fibre.ms, self.slave.rx)
    }

    /// The true one-way delay up, in tau: the fibre's and both ports'.
    pub fn up(&self) -> Tau
        requires { IsDelay self.now.fibre.sm }
        ensures value { result ≡ up_in self.now }
        ensures size { IsTime result }
        ensures most { unsigned_abs result ≤ unsigned_abs self.now.fibre.sm + 2 ^ 65 }
    {
        with_ports(self.slave.tx, self.fibre.sm, self.master.rx)
    }
}

/// The delay of a fibre plus the delays of the sending and the receiving port, in tau.
pub fn with_ports(tx: u64, delay: Tau, rx: u64) -> Tau
    requires { IsDelay delay }
    ensures value { result ≡ (pos tx +ℤ delay) +ℤ pos rx }
    ensures size { IsTime result }
    ensures least { delay ≤ℤ result }
    ensures most { unsigned_abs result ≤ unsigned_abs delay + 2 ^ 65 }
{
    sum(sum(i128::from(tx), delay), i128::from(rx))
}
