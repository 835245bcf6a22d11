//! Which premise an event breaks: the checks that need only a world without its nodes (this project's profile).
#![tactic(auto)]

mod checks;
mod handing;
mod premises;
mod tries;

pub use handing::deliver_broken;
pub use premises::rates::rate_kept;
pub use tries::fibres::{join_broken, moved_fibres_broken};
pub use tries::frames::{arrive_broken, depart_broken};
pub use tries::modules::up_broken;
pub use tries::octets::noise_broken;
pub use tries::passing::{late_broken, rates_of_fibres_broken};
pub use tries::{cut_broken, down_broken, sample_broken, tick_broken};
