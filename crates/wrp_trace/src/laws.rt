//! What is true of every line. The function here computes nothing: its contract is a law over all
//! networks and lines, and its proof shows that the law holds.
ghost use Rattle.wrp_trace.specs.Events.{EventsCanCome};

/// An event that a line says can come to the network: its numbers are in their ranges, its nodes and
/// links are the network's, and it has one drift for each node and one move for each link.
pub fn events_can_come()
    ensures { EventsCanCome }
{}
