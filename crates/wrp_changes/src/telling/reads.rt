//! What is read from a node's step.
ghost use Rattle.std.specs.Prelude.{◌≡◌, ℕ, true};
ghost use Rattle.wrp_link.specs.Table.{is_same};
ghost use Rattle.wrp_node.specs.States.{state_in};
ghost use Rattle.wrp_changes.specs.PlantTold.{SameRow, cycles_in, sends};

use wrp_base::LinkState;
use wrp_node::{Output, PortState};

/// The periods by which the clock is stepped; 0 if it is not stepped.
pub fn cycles_in(outs: &[Output]) -> i64
    ensures { result ≡ cycles_in outs.now }
{
    for out in outs {
        if let Output::Step { cycles } = out {
            return *cycles;
        }
    }
    0
}

/// Whether a frame is among the outputs.
pub fn sends(outs: &[Output]) -> bool
    ensures { result ≡ sends outs.now }
{
    for out in outs {
        if let Output::Send { .. } = out {
            return true;
        }
    }
    false
}

/// The link state of a port among these; IDLE if the port is not among them.
pub fn state_in(ports: &[PortState], port: u16) -> LinkState
    ensures { result ≡ state_in port ports.now }
{
    for it in ports {
        if it.port == port {
            return it.state;
        }
    }
    LinkState::Idle
}

/// Whether the two states are the same.
pub fn is_same(from: LinkState, to: LinkState) -> bool
    ensures { result ≡ is_same from to }
{
    from == to
}

// Whether two rows have the same content.
fn is_same_row(before: PortState, after: PortState) -> bool
    ensures { result ≡ true → SameRow before after }
{
    before.port == after.port && is_same(before.state, after.state)
}

/// Whether the link states of ports are the same, row by row.
pub fn are_same(before: &[PortState], after: &[PortState]) -> bool
    ensures { result ≡ true → (p : ℕ)
        → is_same (state_in p before.now) (state_in p after.now) ≡ true }
{
    if before.len() != after.len() {
        return false;
    }
    for i in 0..before.len() {
        if !is_same_row(before[i], after[i]) {
            return false;
        }
    }
    true
}
