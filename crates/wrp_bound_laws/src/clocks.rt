//! The clocks of a run's nodes, and the fibres between them. Each function here computes nothing: its
//! contract is the law.
ghost use Rattle.wrp_bound_laws.specs.Clocks.{TicksAreOnTime, TicksStepOnTime};
ghost use Rattle.wrp_bound_laws.specs.Fibres.{FibresKeepTheirShare};
ghost use Rattle.wrp_bound_laws.specs.Rates.{SourceMovesSlowly, TopIsTrue, WaysMoveSlowly};

use wrp_course::{modules_stay, ticks_are_apart};
use wrp_node::{chain_is_unbroken, commands_are_held, ticks_are_counted};
use wrp_servo::{no_step_in_track, track_is_near};

/// A node that is up had its last tick, or its start, no longer ago than dmax. In each event through which
/// it is up, it either ticks, at least dmin after its last tick or start, or does not tick.
pub fn ticks_are_on_time()
    ensures near { TicksAreOnTime }
    ensures step { TicksStepOnTime }
{
    ticks_are_counted();
    ticks_are_apart();
}

/// The grandmaster's clock shows true time. A node that is up and in TRACK or HOLDOVER takes no step in an
/// event, and moves no faster than the greater of its two rates; both ways of a link with its carrier move
/// at most at a rate of `2*10^-12`.
pub fn clocks_move_slowly()
    ensures top { TopIsTrue }
    ensures source { SourceMovesSlowly }
    ensures ways { WaysMoveSlowly }
{
    chain_is_unbroken();
    commands_are_held();
    no_step_in_track();
    track_is_near();
    modules_stay();
}

/// While a fibre is joined, both of its ways take time, at most the reach with the ports' own, and the way
/// down has its share of both to within the link's asymmetry error.
pub fn fibres_keep_their_share()
    ensures { FibresKeepTheirShare }
{}
