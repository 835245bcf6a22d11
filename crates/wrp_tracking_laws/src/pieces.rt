//! What an exchange keeps is true of the chain's constant, call by call. Each function here computes
//! nothing: its contract is the law.
ghost use Rattle.wrp_tracking_laws.specs.DelayPieces.{FourOfPieces, OthersKeepDelay, RequestKeeps};
ghost use Rattle.wrp_tracking_laws.specs.DelayPieces.{RespKeeps, SendingKeeps};
ghost use Rattle.wrp_tracking_laws.specs.Measured.{FourIsTrue};
ghost use Rattle.wrp_tracking_laws.specs.SyncPieces.{FollowUpKeeps, OthersKeepSync, SampleKeepsSync, SyncKeeps};

/// Each call of an exchange keeps the pending Sync and the Sync pair true.
pub fn sync_half_is_kept()
    ensures sync { SyncKeeps }
    ensures follow_up { FollowUpKeeps }
    ensures sample { SampleKeepsSync }
    ensures others { OthersKeepSync }
{}

/// Each call of an exchange keeps the open request's sending and the delay pair true.
pub fn delay_half_is_kept()
    ensures request { RequestKeeps }
    ensures sending { SendingKeeps }
    ensures resp { RespKeeps }
    ensures others { OthersKeepDelay }
{}

/// The four that an exchange hands over is true of the chain, and young if few ticks passed since its
/// own.
pub fn four_tells()
    ensures pieces { FourOfPieces }
    ensures young { FourIsTrue }
{}
