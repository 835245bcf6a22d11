//! The module that an event installs at a port.
ghost use Rattle.std.specs.Prelude.{◌≡◌, option_map};
ghost use Rattle.wrp_course.specs.Moved.{swap_at};

use wrp_course::Swap;

/// The swap for this port: the first one that names it. `None` if no swap names the port.
pub fn swap_for(swaps: &[Swap], port: u16) -> Option<&Swap>
    ensures { option_map (λ swap. swap.now) result ≡ swap_at port swaps.now }
{
    for swap in swaps {
        if swap.port == port {
            return Some(swap);
        }
    }
    None
}
