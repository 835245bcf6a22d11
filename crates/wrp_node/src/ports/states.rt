//! The link states of a node's ports.
ghost use Rattle.std.specs.Prelude.{◌≡◌, map};
ghost use Rattle.wrp_node.specs.States.{port_state};

use super::Ports;
use crate::place::PortPlace;
use arrayvec::ArrayVec;
use wrp_base::LinkState;

/// The link state of a port.
#[derive(Clone, Copy, Debug, Default, PartialEq, Eq)]
pub struct PortState {
    /// The port.
    pub port: u16,
    /// The state of its link.
    pub state: LinkState,
}

/// The link states of a node's ports, in ascending order of the ports.
pub type PortStates = ArrayVec<PortState, 18>;

impl PortPlace {
    /// Its number, and the state of its link.
    pub fn state(&self) -> PortState
        ensures { result ≡ port_state self.now }
    {
        PortState {
            port: self.number,
            state: self.port.state(),
        }
    }
}

impl Ports {
    /// Each port's number, with the state of its link.
    pub fn states(&self) -> PortStates
        ensures { result.items ≡ map port_state self.now }
    {
        let mut states = PortStates::new();
        for place in &self.places {
            states.push(place.state());
        }
        states
    }
}
