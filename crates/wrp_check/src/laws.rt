//! What the stretches of a port's history are. The function here does nothing: its contract is a law over
//! all histories, and its proof shows that the law holds.
ghost use Rattle.wrp_check.specs.Laws.{StretchesAreParts};

/// The stretches of a port's history are its parts outside IDLE: each begins with a mark that leaves
/// IDLE, no mark before its newest leads back, each but the newest has ended, and together they are the
/// whole history.
pub fn stretches_are_parts()
    ensures { StretchesAreParts }
{}
