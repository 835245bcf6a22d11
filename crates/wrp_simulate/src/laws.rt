//! Laws of simulations: functions whose contracts are the laws.
ghost use Rattle.wrp_simulate.specs.Laws.{EventsAreNumbered};

/// No event of a simulation has the number 4,294,967,295, and a simulation whose next event would have it has
/// had an event for each number below it.
pub fn events_are_numbered()
    ensures { EventsAreNumbered }
{}
