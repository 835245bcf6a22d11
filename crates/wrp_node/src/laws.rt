//! What is true of every step of a node. Each function here computes nothing: its contract is a law
//! over all nodes and inputs, and its proof shows that the law holds.
ghost use Rattle.wrp_node.specs.Laws.{DroppedLeavesACount, StepSettles};
ghost use Rattle.wrp_node.specs.LinkNews.{StepGivesLinks};
ghost use Rattle.wrp_node.specs.OneRun.{OneNode, OneRun};
ghost use Rattle.wrp_node.specs.Sends.{SendsArePutOut, SignalsAreOfLink};
ghost use Rattle.wrp_node.specs.Unbroken.{ChainIsLocked, ChainIsUnbroken};

use wrp_servo::{chain_has_signals, chain_is_held, chain_since, phase_is_sum, told_last};

/// A frame that is no message, or whose message is dropped whatever its kind (reasons 1 to 12),
/// raises one counter of its port. Nothing else changes, and nothing is put out.
pub fn dropped_leaves_a_count()
    ensures { DroppedLeavesACount }
{}

/// After every input the servo knows whether the lease is fresh, and whether the link is on.
pub fn step_settles()
    ensures { StepSettles }
{}

/// A step gives the link of each port what the input is to it: a tick to all, a frame or a carrier to
/// the link at which it arrived, a new beginning at a reset, and nothing else.
pub fn step_gives_links()
    ensures { StepGivesLinks }
{}

/// The Signaling messages that a port sends at a step are the ones that its link sends after what the
/// step gives it, in their order, and no others.
pub fn signals_are_of_link()
    ensures { SignalsAreOfLink }
{}

/// The frames among the outputs of a step are what its ports send: at each port, in their order,
/// and at no other number.
pub fn sends_are_put_out()
    ensures { SendsArePutOut }
{}

/// Between inputs, the servo has a chain if and only if a call started one and no later call ended it or
/// restarted the loop. While it has a chain, the lock detector is locked.
pub fn chain_is_unbroken()
    ensures since { ChainIsUnbroken }
    ensures locked { ChainIsLocked }
{
    chain_since();
    chain_is_held();
    chain_has_signals();
    phase_is_sum();
}

/// The same inputs give the same outputs and the same node: octets have one reading, and the law gives
/// one answer when it is asked.
pub fn one_run()
    ensures run { OneRun }
    ensures node { OneNode }
{
    told_last();
}
