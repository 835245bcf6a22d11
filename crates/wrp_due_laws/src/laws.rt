//! Laws of what is expected: functions whose contracts are the laws.
ghost use Rattle.wrp_due_laws.specs.Due.{EachInputIsAnswered, EachIsInspected, EachSays};
ghost use Rattle.wrp_due_laws.specs.Due.{FramesAreHeard, OneIsDueFirst};

/// Any octets spell a message, or have a first fault.
pub fn each_says()
    ensures { EachSays }
{}

/// If a delay law is a function, each input of a node can be taken with an answer of that law.
pub fn each_input_is_answered()
    ensures { EachInputIsAnswered }
{}

/// In every run of an accepted network, of events that lines say, each frame that a node was given is read as its
/// octets say: what a node ever put out is spelled by its octets.
pub fn frames_are_heard()
    ensures { FramesAreHeard }
{}

/// After all events of every run, one frame on a fibre is due first, if there is one.
pub fn one_is_due_first()
    ensures { OneIsDueFirst }
{}

/// For each input that is inspected some status and octets are expected.
pub fn each_is_inspected()
    ensures { EachIsInspected }
{}
