//! Laws of each step: functions that do nothing, whose contracts are the laws.
ghost use Rattle.wrp_node.specs.StepLaws.{CommandsAreHeld, OnlyFramesSay, SendsAreFew, TicksAreCounted};

/// What is noted beside an input that is no frame, as said by octets or as answered by the law, has no effect.
pub fn only_frames_say()
    ensures { OnlyFramesSay }
{}

/// A step of the clock is commanded by a frame alone, and by at most `2^62` periods.
pub fn commands_are_held()
    ensures { CommandsAreHeld }
{}

/// A port sends at most four messages at a step.
pub fn sends_are_few()
    ensures { SendsAreFew }
{}

/// A tick adds one to the count, a reset restarts it, and no other input changes it.
pub fn ticks_are_counted()
    ensures { TicksAreCounted }
{}
