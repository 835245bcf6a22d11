//! Laws of network files, for the crates that use them. Each function computes nothing.
ghost use Rattle.wrp_network_text.specs.SameAnswer.{EachIsRead, OneReading, ReadingIsAccepted};

/// One text has one answer: two answers that are not out of memory are both the same network,
/// except for what is in the unused room of its names, or both a fault of one code at one place.
pub fn one_reading()
    ensures { OneReading }
{}

/// Each text has an answer that is not out of memory: a network or a fault.
pub fn each_is_read()
    ensures { EachIsRead }
{}

/// If the answer for a text is a network, that network is accepted.
pub fn reading_is_accepted()
    ensures { ReadingIsAccepted }
{}
