//! Where in the period the counters of a port change over.
ghost use Rattle.std.specs.Prelude.{◌≡◌, ◌<◌, IfSome};
ghost use Rattle.wrp_base.specs.Clock.{steps_of_period};
ghost use Rattle.wrp_stamp.specs.Merge.{transition_of};

use wrp_base::Module;

/// The transition of a port's module, in detector steps; 0 if the module is not listed.
pub fn transition_of(entry: Option<Module>) -> u16
    ensures value { result ≡ transition_of entry }
    ensures below { IfSome entry (λ m. m.transition < steps_of_period) → result < steps_of_period }
{
    match entry {
        Some(entry) => entry.transition,
        None => 0,
    }
}
