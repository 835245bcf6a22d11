//! The same events make the same world, and its nodes make the same steps: a law of the world as a function of its events. The function
//! does nothing; its contract is the law.
#![tactic(auto)]

ghost use Rattle.wrp_one_world_laws.specs.OneWorld.{OneWorld};

use wrp_servo::told_last;

/// Two runs of the same events lead to the same world, except for answers of the delay law that nobody asked for and
/// for what is noted of inputs. A further event makes the same steps in both, and is tried against the same premises.
pub fn one_world()
    ensures { OneWorld }
{
    told_last();
}
