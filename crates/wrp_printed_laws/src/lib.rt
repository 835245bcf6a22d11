//! Laws of the lines that are printed of a run, as a reader of the bytes can check them: how the offset in a
//! `track` line follows from the event lines and the `step` lines up to it, how the tick count in each line
//! follows from the event lines, and in which state of the servo a `step` line comes. The functions do nothing;
//! their contracts are the laws. All rules are this project's profile.
#![tactic(auto)]

ghost use Rattle.wrp_printed_laws.specs.Laws.{OffsetsFollow, StepsComeSynced};

use wrp_node::{commands_are_held, ticks_are_counted};

/// In each line NODE TICK track EST BOUND true OFF that is printed of an event of a run, BOUND is the bound of
/// the node's path. OFF is the offset of its last `up` event, plus the drift of each `pass` since, plus a period
/// for each of the CYCLES of each `step` line of the node since. Each line of an event begins with a node and its
/// TICK, which counts the node's `tick` events since its last `up` event.
pub fn offsets_follow()
    ensures { OffsetsFollow }
{
    commands_are_held();
    ticks_are_counted();
}

/// Each line NODE TICK step CYCLES of a run comes while the last line NODE TICK servo STATE of this node before it
/// says sync-tai or sync-nsec.
pub fn steps_come_synced()
    ensures { StepsComeSynced }
{
    commands_are_held();
}
