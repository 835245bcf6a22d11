//! The verdict on a WR_MODE_ON.

/// Whether the messages of one handshake precede a WR_MODE_ON (this project's profile).
///
/// The eight messages are, in their order: SLAVE_PRESENT of the slave, LOCK of the master, LOCKED of
/// the slave, CALIBRATE and CALIBRATED of the master, CALIBRATE and CALIBRATED of the slave, WR_MODE_ON
/// of the master. Before each of the later ones, the last one before it of the preceding kind is looked
/// for.
#[derive(Clone, Copy, Debug, PartialEq, Eq)]
pub enum Verdict8 {
    /// All eight are there, and these are the numbers of their packets.
    Complete([u32; 8]),
    /// All eight are there, and between the LOCK and the WR_MODE_ON the slave sent a SLAVE_PRESENT again,
    /// first in the packet with this number.
    Restarted(u32),
    /// There is no message of this place, 1 to 7, before the message of the place above; the greatest
    /// such place.
    Missing(u8),
}
