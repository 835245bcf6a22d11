//! The frames on fibres, by looking back over the list of events. The function here computes nothing: its
//! contract is the law.
ghost use Rattle.wrp_lookback_laws.specs.Fibres.{FibresLookBack};

/// A frame that departed is on its fibre if and only if none of the events since was its arrival, the
/// arrival of a younger frame of its direction, or an event by which its link lost what was on its fibre.
pub fn fibres_look_back()
    ensures { FibresLookBack }
{}
