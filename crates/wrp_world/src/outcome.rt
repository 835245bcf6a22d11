//! What a step of a world returns.
ghost use Rattle.std.specs.Prelude.{◌≡◌};
ghost use Rattle.wrp_world.specs.declared.outcome.Refused.TheVariants.{Memory};

use std::alloc::AllocError;
use wrp_base::Tau;

/// Why an event was refused. The world is as it was.
#[derive(Debug, Drop, PartialEq, Eq)]
pub enum Refused {
    /// The event breaks a premise.
    Broken {
        /// The number of the lowest premise that is broken: 1 to 13.
        premise: u8,
        /// The left side of the first comparison that fails.
        shown: Tau,
        /// The right side: the bound that the left side should keep.
        bound: Tau,
    },
    /// There is not enough memory.
    Memory(AllocError),
}

impl From<AllocError> for Refused {
    ghost from_gives = { λ fault refused. refused ≡ Memory fault };

    fn from(fault: AllocError) -> Refused {
        Refused::Memory(fault)
    }
}
