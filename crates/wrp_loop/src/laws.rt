//! Laws of loops: functions whose contracts are the laws, and whose bodies call the laws that they rest on.
ghost use Rattle.wrp_loop.specs.Laws.{EventsAreNumbered, IndexChooses, LoopIsAudited, LoopKeepsTheBounds, OneFrame, OneLoop};

use wrp_servo::told_last;
use wrp_sim::simulator_keeps_the_bounds;

/// No datagram is two frames: the rule names one frame, or none.
pub fn one_frame()
    ensures { OneFrame }
{}

/// An index that shows all frames a datagram may be finds the frame that the rule names.
pub fn index_chooses()
    ensures { IndexChooses }
{}

/// The same calls of a link, with the same answers, give the same loop: it ends in the same way and
/// writes the same.
pub fn one_loop()
    ensures { OneLoop }
{
    told_last();
}

/// The event lines of a loop, given to an audit, print its other lines again, except the line of forged
/// datagrams. The lines after `= ` are the lines of the events. The others are the lines of the nodes'
/// steps in these events, the counters, and that line.
pub fn loop_is_audited()
    ensures { LoopIsAudited }
{}

/// No event of a loop breaks a premise, whatever the link does.
pub fn loop_keeps_the_bounds()
    ensures { LoopKeepsTheBounds }
{
    simulator_keeps_the_bounds();
}

/// No event of a loop has the number 4,294,967,295, and a loop whose next event would have it has had an event
/// for each number below it.
pub fn events_are_numbered()
    ensures { EventsAreNumbered }
{}
