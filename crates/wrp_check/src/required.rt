//! The states that a message requires of the peer that sent it.
ghost use Rattle.std.specs.Prelude.{◌≡◌};
ghost use Rattle.wrp_check.specs.Required.{required_of};

use wrp_base::LinkState::{
    Calibrated, Calibration, LinkOn, Locked, MLock, Present, RespCalib, SLock,
};
use wrp_base::{LinkState, Role, WrMsg};

// The states that the peer has entered, in their order, when it sends the message that moves a port of
// this role.
pub(crate) fn required(role: Role, message: WrMsg) -> &'static [LinkState]
    ensures { result.now ≡ required_of role message }
{
    match (role, message) {
        (Role::Slave, WrMsg::Lock) => &[MLock],
        (Role::Slave, WrMsg::Calibrate { .. }) => &[MLock, Calibration],
        (Role::Slave, WrMsg::Calibrated { .. }) => &[MLock, Calibration, Calibrated],
        (Role::Slave, WrMsg::ModeOn) => &[MLock, Calibration, Calibrated, RespCalib, LinkOn],
        (Role::Master, WrMsg::Locked) => &[Present, SLock, Locked],
        (Role::Master, WrMsg::Calibrate { .. }) => {
            &[Present, SLock, Locked, RespCalib, Calibration]
        }
        (Role::Master, WrMsg::Calibrated { .. }) => {
            &[Present, SLock, Locked, RespCalib, Calibration, Calibrated]
        }
        _ => &[],
    }
}
