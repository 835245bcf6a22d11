//! What is true of every calibration that lines say. The functions here compute nothing: the contract of each is a law over
//! all lines, and its proof shows that the law holds.
ghost use Rattle.wrp_calib.specs.LinesAnswer.{EachInputHasAnswer};
ghost use Rattle.wrp_calib.specs.LinesTold.{InputsTellTruth};
ghost use Rattle.wrp_calib.specs.LinesTruth.{ConflictsAreReal, LinesTellTruth};
ghost use Rattle.wrp_calib.specs.Tightness.{IntervalsAreTight};

/// Whenever runs of every kind came and some true delays keep the stated errors, the expected text is
/// the five lines of an answer, each of whose intervals holds its true value, or it says that a strand
/// may be too short.
pub fn lines_tell_truth()
    ensures { LinesTellTruth }
{}

/// A conflict is reported only if no delays keep the stated errors.
pub fn conflicts_are_real()
    ensures { ConflictsAreReal }
{}

/// What is expected for an input whose records keep the stated errors is true: no record is refused,
/// and with status Done each printed interval holds its true value.
pub fn inputs_tell_truth()
    ensures { InputsTellTruth }
{}

/// For each input a status and a text are expected.
pub fn each_input_has_answer()
    ensures { EachInputHasAnswer }
{}

/// The runs allow each delay of an answer's intervals: it keeps the stated errors in each run that
/// measured it. No whole numbers closer together than kappa's ends hold the asymmetry of all strands
/// with delays in these intervals. Short is answered only if the runs allow the least end of the
/// strand's interval, and it is below 1.
pub fn intervals_are_tight()
    ensures { IntervalsAreTight }
{}
