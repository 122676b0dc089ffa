//! The hands of a kernel clock: what it is told, and how a windup moves it from one tick to the next.
#![tactic(auto)]

mod clocks;
mod estimates;
mod hands;
mod laws;
mod refusals;
#[cfg(test)]
mod tests;
mod windups;

pub use estimates::{Estimate, Marks};
pub use hands::{Hands, How, Order, cold, fits, reset_estimate};
pub use laws::{
    clocks_go_on, estimates_are_sane, fits_words, journals_grow, journals_rise,
    sound_hands_are_bounded, ticks_are_sound, windups_are_told, windups_follow,
};
pub use refusals::{other_lists_are_none, samples_are_journals, ticks_follow};
pub use windups::wind;
