//! The link states of a node's ports, as the node reports them.
ghost use Rattle.std.specs.Prelude.{◌≡◌, ℕ, map, true};
ghost use Rattle.wrp_node.specs.Node.{Tells};
ghost use Rattle.wrp_node.specs.Parts.{is_among};
ghost use Rattle.wrp_node.specs.States.{state_at, state_in};

use super::Node;
use crate::PortStates;

impl<F: Fn(i64) -> i64> Node<F> {
    /// The link state of each of its ports, in ascending order of the ports.
    pub fn states(&self) -> PortStates
        ensures states { (p : ℕ) → is_among p self.now.parts.ports ≡ true
            → Tells F.post (state_at p) self.now (state_in p result.items) }

        // There is a row for each port, and no other, in the order of the ports.
        ensures ports { map (λ row. row.port) result.items
            ≡ map (λ place. place.number) self.now.parts.ports }
    {
        self.parts.ports.states()
    }
}
