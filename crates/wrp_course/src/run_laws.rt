//! Laws of every run of an accepted network: functions whose contracts are the laws, and whose bodies call
//! the laws that they rest on.
ghost use Rattle.wrp_course.specs.Dropped.{DroppedFramesLeaveACount};
ghost use Rattle.wrp_course.specs.Earned.{EveryLinkOnIsEarned, ReportsAreTrue};
ghost use Rattle.wrp_course.specs.FramesMayCome.{FramesMayCome};
ghost use Rattle.wrp_course.specs.Judged.{PortsAreJudged};
ghost use Rattle.wrp_course.specs.PeersStay.{PeersStayInTheHandshake};
ghost use Rattle.wrp_course.specs.PortsWakeLate.{AwakePortsLeftLongAgo, AwakePortsWereLitLongAgo};
ghost use Rattle.wrp_course.specs.RunLaws.{FramesHaveTimes, FramesWerePutOut, ModulesStay, TicksAreApart};
ghost use Rattle.wrp_course.specs.RunLaws.{TimeNeverFalls};
ghost use Rattle.wrp_course.specs.RunStamps.{FramesAreStamped};
ghost use Rattle.wrp_course.specs.SameHandshake.{CarriersAreTheLinks, CarriersWithTheirModules};
ghost use Rattle.wrp_course.specs.SameHandshake.{LinkOnInTheSameHandshake, LinkOnWithTheDeltas, LinksCanBe};

use crate::laws::arrival_keeps_stamp_bound;
use wrp_config::child_is_deeper;
use wrp_handshake_laws::{
    carrier_with_its_module, marks_are_a_history, master_stays_from_lock, on_in_the_same_handshake,
    on_with_the_deltas, quiet_time_outlives_frames, slave_stays_from_locked,
};
use wrp_node::{
    dropped_leaves_a_count, ends_are_set, signals_are_of_link, step_gives_links, step_settles,
};

/// Each link is one that can be, as the laws of one link by itself have it; and so, after every event of
/// every run, whatever frames are lost, late, repeated or of an earlier carrier, whatever octets come
/// that the peer did not send, and whichever nodes go down and come up with whichever modules:
///
/// - No port is in WR_LINK_ON unless its peer went through the steps that this requires, in that same
///   handshake.
/// - A slave in WR_LINK_ON knows the deltas of the modules that are in place at both ends, and its master's
///   came in that handshake.
/// - A port has its carrier if and only if its link has, at both ends in the same event, and then its module
///   is the one in place.
pub fn link_on_in_the_same_handshake()
    ensures links { LinksCanBe }
    ensures handshake { LinkOnInTheSameHandshake }
    ensures deltas { LinkOnWithTheDeltas }
    ensures carriers { CarriersAreTheLinks }
    ensures modules { CarriersWithTheirModules }
{
    step_gives_links();
    signals_are_of_link();
    ends_are_set();
    child_is_deeper();
    on_in_the_same_handshake();
    on_with_the_deltas();
    carrier_with_its_module();
}

/// At each link, after every event of every run: from the LOCK that moved the slave on, its master begins no
/// new stretch while the slave stays in its own; from the LOCKED that moved the master on, its slave comes
/// from PRESENT to S_LOCK in no other stretch while the master stays in its own.
pub fn peers_stay_in_the_handshake()
    ensures { PeersStayInTheHandshake }
{
    link_on_in_the_same_handshake();
    master_stays_from_lock();
    slave_stays_from_locked();
}

/// A port that has its carrier, and whose quiet time is over, got the carrier more than two lives of a frame
/// ago: in an event that joined its link, or that brought up a node of it, and the carrier was there ever
/// since. The port also left no stretch of its link within that time.
pub fn ports_wake_late()
    ensures lit { AwakePortsWereLitLongAgo }
    ensures left { AwakePortsLeftLongAgo }
{
    step_gives_links();
    signals_are_of_link();
    time_never_falls();
    ticks_are_apart();
    link_on_in_the_same_handshake();
    quiet_time_outlives_frames();
}

/// Each port in WR_LINK_ON has earned it, after every event of every run: its peer passed the required steps
/// of that same handshake, and a slave knows the deltas of the modules that are in place. Any port that a
/// node reports to be in WR_LINK_ON in an event is there after it, and has earned it.
pub fn reported_link_on_is_earned()
    ensures earned { EveryLinkOnIsEarned }
    ensures reports { ReportsAreTrue }
{
    step_gives_links();
    link_on_in_the_same_handshake();
}

/// Each port is in the state to which its marks lead, after every event of every run, and they are a history:
/// each is a change of the state to which those before it led. The verdict that is expected for the histories
/// of both ends of its link is Ok if the port is in WR_LINK_ON, and NotOn otherwise.
///
/// So if a world has a port in WR_LINK_ON, and `judge` is given what `World::history` answers for that port
/// and for its peer, `judge` answers Ok.
pub fn ports_are_judged()
    ensures { PortsAreJudged }
{
    link_on_in_the_same_handshake();
    marks_are_a_history();
}

/// A frame that a node drops for one of the reasons 1 to 12, as no message or as a foreign one, raises one
/// counter of that node. In the event that hands it over nothing else changes, neither in a node nor between
/// the nodes, and nothing is put out.
pub fn dropped_frames_leave_a_count()
    ensures { DroppedFramesLeaveACount }
{
    dropped_leaves_a_count();
    step_settles();
}

/// True time never falls.
pub fn time_never_falls()
    ensures { TimeNeverFalls }
{}

/// Each frame that departed is among those that its port ever put out.
pub fn frames_were_put_out()
    ensures { FramesWerePutOut }
{}

/// A frame is put out, departs and arrives in this order, by true time and by events, and arrives when it
/// is due.
pub fn frames_have_times()
    ensures { FramesHaveTimes }
{}

/// Each frame departed with a stamp near the reading of the node that sent it, no older than a frame's
/// life; if it arrived, its raw stamp keeps the stamp bound about the reading of the node that received
/// it; both over a link that had its carrier.
pub fn frames_are_stamped()
    ensures { FramesAreStamped }
{
    arrival_keeps_stamp_bound();
}

/// Each frame that can still be handed over, now or after further events, was put out at most a frame's life
/// ago: in a step of its sender's node, in the event and in the world of that time, the node sent the frame's
/// octets at the sender's port.
pub fn frames_may_come()
    ensures { FramesMayCome }
{
    time_never_falls();
    frames_were_put_out();
    frames_are_stamped();
}

/// In an event the time of a node's last tick, or of its start, stays as it was, or the node ticks, no sooner
/// than dmin after it, or the node starts.
pub fn ticks_are_apart()
    ensures { TicksAreApart }
{}

/// While a link has its carrier, the modules at its ends stay, with their true delays.
pub fn modules_stay()
    ensures { ModulesStay }
{}
