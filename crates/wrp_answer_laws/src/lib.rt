//! That an answer is expected: whatever is asked, there are a status and octets for every kind of input and every
//! link, and lines that say events, each accepted in its turn, are an audit. Words, inputs and lines are this
//! project's profile.
#![tactic(auto)]

mod again;
mod laws;

pub use again::{loop_is_audited_again, text_with_records};
pub use laws::{
    accepted_is_audit, accepted_is_done, each_has_answer, each_replay_has_answer,
    each_stands_alone_with_answer, emission_tells_no_output, next_moment_is_least,
    replay_of_listed_inputs, run_of_lines_is_audit, simulated_is_heard, worked_link,
};
