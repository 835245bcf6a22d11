//! Laws of the world: functions that do nothing, whose contracts are the laws.
ghost use Rattle.wrp_course.specs.Laws.{AcceptedIsUnbroken, NewWorldIsStill, ArrivalKeepsStampBound, SampleKeepsBeatPattern};
ghost use Rattle.wrp_course.specs.Rows.{WorkedRows};

/// A network of a grandmaster and a switch, computed: which premise its first events break, with both
/// sides, and what the nodes are given when a carrier comes.
pub fn worked_rows()
    ensures { WorkedRows }
{}

/// An event keeps all premises if and only if no check of them is the first that fails.
pub fn accepted_is_unbroken()
    ensures { AcceptedIsUnbroken }
{}

/// Before any event no node ticks, nothing waits at a port, no frame departed, and none is kept.
pub fn new_world_is_still()
    ensures { NewWorldIsStill }
{}

/// The raw stamp of each accepted arrival keeps the stamp bound about the receiving node's reading.
pub fn arrival_keeps_stamp_bound()
    ensures { ArrivalKeepsStampBound }
{}

/// The beat bits of each accepted sample keep the beat pattern about the true phase of the node against
/// its parent.
pub fn sample_keeps_beat_pattern()
    ensures { SampleKeepsBeatPattern }
{}
