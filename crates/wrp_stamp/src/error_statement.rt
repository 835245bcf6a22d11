//! How near a merged stamp is to the true reading, as a law over plain numbers.
ghost use Rattle.wrp_stamp.specs.StampBound.{MergedWithinTag};

/// The error statement of `merge`: if a raw stamp keeps the stamp bound for an `e_tag` below a
/// quarter of the period, the merged reading is within `e_tag` of the true one. It computes nothing.
pub fn merged_within_tag()
    ensures { MergedWithinTag }
{}
