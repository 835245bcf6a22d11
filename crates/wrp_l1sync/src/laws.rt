//! What is true of all events and of all lines. The functions here compute nothing: their contracts are
//! laws over all events or records, and their proofs show that the laws hold.
ghost use Rattle.wrp_l1sync.specs.Agreement.{UpEndsAgree};
ghost use Rattle.wrp_l1sync.specs.LineAnswers.{AnswersShowThePair, WhatStandsShowsThePair};
ghost use Rattle.wrp_l1sync.specs.LineTheorem.{TextShowsThePair};
ghost use Rattle.wrp_l1sync.specs.Premises.{EventsAreTakenExactly};

/// An end that is up was handed a message while it was enabled, and since then it was neither disabled
/// nor handed another. Its peer sent that message at most timeout·dmax + life ago; it has the same
/// requirement, and each required bit holds at the end and in the message. If the peer's own message
/// was not set since it sent that message, both ends require the same now, and each required bit holds
/// at both. So two ends that are up agree if one of them has not set its own message since it sent the
/// one by which the other is up. Without that they need not agree: an example has two ends that are up
/// and require 1 and 3.
pub fn up_ends_agree()
    ensures { UpEndsAgree }
{}

/// After each record the last state that is printed for an end is the one that looking back over what
/// it was handed finds. If that is `up`, or both ends are, `up_ends_agree` holds of the events that the
/// records say, and the message by which an end is up is printed in a line of its peer.
pub fn text_shows_the_pair()
    ensures { TextShowsThePair }
{}

/// The same holds after each record of an input that was handled, whatever the answer to the input.
pub fn answers_show_the_pair()
    ensures { AnswersShowThePair }
{}

/// The same holds after each record in what is left of an answer that broke off, because the source
/// failed or memory ran out.
pub fn what_stands_shows_the_pair()
    ensures { WhatStandsShowsThePair }
{}

/// An event breaks no premise if and only if it keeps all three. At its limit each is kept: a tick with
/// exactly DMAX since the last one is not late, and a message sent exactly LIFE ago is not too old.
pub fn events_are_taken_exactly()
    ensures { EventsAreTakenExactly }
{}
