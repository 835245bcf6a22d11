//! The delays with which a slave computes. The function computes nothing: its contract is the law.
ghost use Rattle.wrp_bound_laws.specs.PortDelays.{FibreHoldsWhileOn};

use crate::clocks::fibres_keep_their_share;
use wrp_course::link_on_in_the_same_handshake;

/// While a link is on, each of the four delays of ports with which its slave computes is within the
/// database's error of the true delay of the module in place, and the fibre between the ports keeps its
/// share.
pub fn fibre_holds_while_on()
    ensures { FibreHoldsWhileOn }
{
    link_on_in_the_same_handshake();
    fibres_keep_their_share();
}
