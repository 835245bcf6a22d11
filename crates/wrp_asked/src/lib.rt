//! What is expected of a run of `wrnet`: where the network text ends, and which status and octets are expected for what
//! is asked, an input and the calls of a link (`Answer`, in the folder `specs`); how a run ends, by its status
//! (`Ends`); what an answer is worth (`Headline` and its neighbours); and laws over all of these. No word of the
//! command line is named here: `wrp_commands` has what can be asked, and `wrp_words` has the words for it. Inputs,
//! lines and statuses are this project's profile.
#![tactic(auto)]

mod laws;
mod network_text;

pub use laws::{
    emissions_tell_no_track, events_carry_parts, link_on_reports_have_lines,
    looped_events_carry_parts, made_events_carry_parts, one_answer, replays_are_told,
    runs_print_within_bounds, track_reports_have_lines,
};
pub use network_text::{HowItEnded, NetworkText, take_network};
