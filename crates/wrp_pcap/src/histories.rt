//! The marks that a complete handshake leaves at both ends.
ghost use Rattle.std.specs.Prelude.{◌≡◌, pos, reverse, None, Ok, Some};
ghost use Rattle.wrp_base.specs.declared.link.Role.TheVariants.{Master, Slave};
ghost use Rattle.wrp_check.specs.Judged.{Judges};
ghost use Rattle.wrp_pcap.specs.Marks.{Rises, slave_marks, master_marks};

use arrayvec::ArrayVec;
use wrp_base::LinkState::{
    Calibrated, Calibration, Idle, LinkOn, Locked, MLock, Present, RespCalib, SLock,
};
use wrp_base::{LinkState, Mark, WrMsg};

/// A CALIBRATE with contents 0.
const CALIBRATE: WrMsg = WrMsg::Calibrate {
    pattern: 0,
    retry: 0,
    period: 0,
};

/// A CALIBRATED with contents 0.
const CALIBRATED: WrMsg = WrMsg::Calibrated { tx: 0, rx: 0 };

// A change of state without a message.
fn alone(at: u32, from: LinkState, to: LinkState) -> Mark
    ensures { result ≡ record { at = pos at; from = from; to = to; by = None } }
{
    Mark {
        at: at.into(),
        from,
        to,
        by: None,
    }
}

// A change of state by a message with its sending time.
fn moved(at: u32, from: LinkState, to: LinkState, by: WrMsg, sent: u32) -> Mark
    ensures { result ≡ record { at = pos at; from = from; to = to; by = Some (by, pos sent) } }
{
    Mark {
        at: at.into(),
        from,
        to,
        by: Some((by, sent.into())),
    }
}

// The slave's marks.
fn slave_marks(c: &[u32; 8]) -> ArrayVec<Mark, 8>
    ensures { result.items ≡ slave_marks c.now }
{
    let [p1, p2, p3, p4, p5, p6, p7, p8] = *c;
    let mut marks = ArrayVec::new();
    marks.push(alone(p1, Idle, Present));
    marks.push(moved(p2, Present, SLock, WrMsg::Lock, p2));
    marks.push(alone(p3, SLock, Locked));
    marks.push(moved(p4, Locked, RespCalib, CALIBRATE, p4));
    marks.push(moved(p6, RespCalib, Calibration, CALIBRATED, p5));
    marks.push(alone(p7, Calibration, Calibrated));
    marks.push(moved(p8, Calibrated, LinkOn, WrMsg::ModeOn, p8));
    marks
}

// The master's marks.
fn master_marks(c: &[u32; 8]) -> ArrayVec<Mark, 8>
    ensures { result.items ≡ master_marks c.now }
{
    let [p1, p2, p3, p4, p5, p6, p7, p8] = *c;
    let mut marks = ArrayVec::new();
    marks.push(moved(p2, Idle, MLock, WrMsg::Present, p1));
    marks.push(moved(p4, MLock, Calibration, WrMsg::Locked, p3));
    marks.push(alone(p5, Calibration, Calibrated));
    marks.push(moved(p6, Calibrated, RespCalib, CALIBRATE, p6));
    marks.push(moved(p8, RespCalib, LinkOn, CALIBRATED, p7));
    marks
}

/// The marks of the slave and of the master in a handshake whose eight messages have these numbers, the
/// oldest first: each change of state at the number of the message that it sends or that moves it, with
/// numbers in place of times. The numbers rise. Apart from their kinds, the contents of the messages
/// are 0.
///
/// By these marks both ends came to WR_LINK_ON in the same handshake.
pub fn marks(c: &[u32; 8]) -> (ArrayVec<Mark, 8>, ArrayVec<Mark, 8>)
    requires { Rises c.now }
    ensures slave { result.0.items ≡ slave_marks c.now }
    ensures master { result.1.items ≡ master_marks c.now }
    ensures judged_slave { Judges Slave (reverse result.0.items) (reverse result.1.items) (Ok tt) }
    ensures judged_master { Judges Master (reverse result.1.items) (reverse result.0.items) (Ok tt) }
{
    (slave_marks(c), master_marks(c))
}
