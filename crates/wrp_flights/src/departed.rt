//! A frame that departed.
ghost use Rattle.std.specs.Prelude.{◌≡◌};
ghost use Rattle.wrp_flights.specs.Departed as spec;

use wrp_base::{Frame, Raw, Role, Tau};

/// The arrival of a frame.
#[derive(Clone, Copy, Debug, PartialEq, Eq)]
pub struct Reception {
    /// The raw stamp of its reception.
    pub raw: Raw,
    /// The number of the receiver's last sample before it.
    pub sample: u32,
}

/// A frame that departed.
#[derive(Debug, Drop)]
pub struct Departed {
    /// The link.
    pub link: u8,
    /// The end that sent it.
    pub by: Role,
    /// Its octets, from the PTP header on.
    pub octets: Frame,
    /// The true time at which it was put out.
    pub sent: Tau,
    /// The true time at which it arrives, if it does.
    pub due: Tau,
    /// Its arrival.
    pub arrival: Option<Reception>,
    /// Whether it can no longer arrive.
    pub gone: bool,
}

/// A frame on a fibre, as it is listed.
#[derive(Clone, Copy, Debug)]
pub struct OnFibre {
    /// Its number.
    pub number: u32,
    /// Its link.
    pub link: u8,
    /// The end that sent it.
    pub by: Role,
}

impl Departed {
    /// Whether it is on a fibre: it has not arrived, and still can.
    pub fn is_on(&self) -> bool
        ensures { result ≡ spec.is_on self.now }
    {
        !self.gone && self.arrival.is_none()
    }

    /// Whether it is on a fibre, or was put out at this true time or later.
    pub fn is_kept(&self, horizon: Tau) -> bool
        ensures { result ≡ spec.is_kept horizon self.now }
    {
        self.is_on() || horizon <= self.sent
    }
}
