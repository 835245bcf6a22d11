//! A chain over a link's history, and the bound of one hop at every moment of it. Each function here
//! computes nothing: its contract is the law.
ghost use Rattle.wrp_tracking_laws.specs.Chain.{ChainStarts, DelayTellsWays, MomentKeepsChain};
ghost use Rattle.wrp_tracking_laws.specs.Chain.{SampleKeepsChain, SyncTellsConstant};
ghost use Rattle.wrp_tracking_laws.specs.HopInTrack.{EstimateHolds, HopHolds};

/// A chain that starts has a constant, and keeps it as moments and good samples come.
pub fn chain_is_kept()
    ensures starts { ChainStarts }
    ensures moment { MomentKeepsChain }
    ensures sample { SampleKeepsChain }
{}

/// Each Sync and each Delay_Req of the chain gives its constant; a Delay_Req also gives both ways of
/// the link.
pub fn stamps_tell_constant()
    ensures sync { SyncTellsConstant }
    ensures delay { DelayTellsWays }
{}

/// While the chain lasts the estimate is near, and in TRACK the node is within the bound of its hop.
pub fn hop_holds()
    ensures estimate { EstimateHolds }
    ensures track { HopHolds }
{}
