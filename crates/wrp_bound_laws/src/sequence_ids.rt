//! The sequenceIds of the messages whose sending is stamped, in a run. Each function here computes nothing: its
//! contract is the law.
ghost use Rattle.wrp_bound_laws.specs.SequenceIds.{IdsComeAgainLate, OneTimedAnEvent};

use wrp_course::ticks_are_apart;

/// In an event an end of a link puts out at most one message whose sending is stamped: a master's Sync, or a
/// slave's Delay_Req.
pub fn one_timed_an_event()
    ensures { OneTimedAnEvent }
{}

/// While its port stays open, a sequenceId of such a message does not come again before 65,000 times the
/// smaller of `sync` and `delay` ticks have passed, each as short as the network allows.
pub fn ids_come_again_late()
    ensures { IdsComeAgainLate }
{
    ticks_are_apart();
}
