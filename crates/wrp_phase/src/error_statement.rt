//! How near a tag is to the true phase, as a law over plain numbers.
ghost use Rattle.wrp_phase.specs.BeatPattern.{TagWithinDetectorError};

/// The error statement of `deglitch`: if the beat bits keep the beat pattern about the true phase,
/// a tag that `deglitch` gives is, round the period, within `beat + 1` steps of it. It computes
/// nothing.
pub fn tag_within_detector_error()
    ensures { TagWithinDetectorError }
{}
