//! The constants, next to the numbers of the definitions.
ghost use Rattle.std.specs.Prelude.{◌≡◌};
ghost use Rattle.wrp_base.specs.Clock.{steps_of_period};
ghost use Rattle.wrp_base.specs.Message.{every_port};
ghost use Rattle.wrp_base.specs.Octets.{frame_room};

use crate::{EVERY_PORT, FRAME_ROOM, STEPS_OF_PERIOD};

/// The constants are the numbers that the definitions have as literals. The function computes
/// nothing.
pub fn constants_are_those_of_the_definitions()
    ensures room { FRAME_ROOM ≡ frame_room }
    ensures steps { STEPS_OF_PERIOD ≡ steps_of_period }
    ensures every { EVERY_PORT ≡ every_port }
{}
