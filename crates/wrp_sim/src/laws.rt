//! Laws of the simulator: functions whose contracts are the laws, and whose bodies call the laws that they
//! rest on.
ghost use Rattle.wrp_sim.specs.Keeps.{EventsAreAccepted, SimRunsAreRuns};

use wrp_course::{frames_have_times, link_on_in_the_same_handshake};

/// The simulator never breaks a bound: the world accepts each of its events, whatever frames were handed
/// over and whatever octets came in between. So the events of a simulator that runs by itself are a run of
/// the world.
pub fn simulator_keeps_the_bounds()
    ensures accepted { EventsAreAccepted }
    ensures runs { SimRunsAreRuns }
{
    link_on_in_the_same_handshake();
    frames_have_times();
}
