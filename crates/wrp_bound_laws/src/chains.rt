//! Chains of good samples in a run. Each function here computes nothing: its contract is the law.
ghost use Rattle.wrp_bound_laws.specs.Chains.{ChainHasConstant};
ghost use Rattle.wrp_bound_laws.specs.Rates.{ChainPassesSlowly};

use wrp_course::{
    frames_were_put_out, link_on_in_the_same_handshake, modules_stay, sample_keeps_beat_pattern,
    ticks_are_apart,
};
use wrp_node::{
    chain_is_unbroken, commands_are_held, ends_are_set, step_gives_links, step_settles,
};
use wrp_phase::tag_within_detector_error;
use wrp_servo::{
    chain_has_signals, chain_keeps_gap, chain_since, holdover_since, no_step_in_track,
    phase_is_sum, track_is_near, track_since,
};
use wrp_tracking_laws::chain_is_kept;

/// While a node's servo has a chain, an event moves neither the node's clock nor its parent's nor the fibre
/// between them faster than the bound of the hop takes it; neither node takes a step.
pub fn chain_passes_slowly()
    ensures { ChainPassesSlowly }
{
    step_gives_links();
    step_settles();
    ends_are_set();
    ticks_are_apart();
    link_on_in_the_same_handshake();
    frames_were_put_out();
    track_since();
    holdover_since();
    track_is_near();
    chain_has_signals();
    chain_is_unbroken();
    commands_are_held();
    no_step_in_track();
    modules_stay();
}

/// A chain has a constant: at each of its good samples the unwrapped phase, less the true phase of the node
/// against its parent, was within the detector's error of it. Its good samples are never further apart than
/// `gap + 1` longest ticks.
pub fn chain_has_constant()
    ensures { ChainHasConstant }
{
    step_gives_links();
    step_settles();
    ends_are_set();
    ticks_are_apart();
    link_on_in_the_same_handshake();
    frames_were_put_out();
    track_since();
    holdover_since();
    track_is_near();
    chain_has_signals();
    chain_is_unbroken();
    commands_are_held();
    no_step_in_track();
    modules_stay();
    chain_since();
    phase_is_sum();
    chain_keeps_gap();
    sample_keeps_beat_pattern();
    tag_within_detector_error();
    chain_is_kept();
}
