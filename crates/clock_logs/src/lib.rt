//! Which readings, entries and logs a journal of ticks allows, and what holds of all of them.
#![tactic(auto)]

mod laws;
mod noted;
mod refusals;

pub use laws::{
    attempts_are_never_ahead, clocks_never_fall, kinds_take_turns, past_counts_are_current,
};
pub use noted::{Kept, Noted};
pub use refusals::{
    ahead_has_a_cause, attempts_are_all, attempts_are_in_turn, clocks_are_interrupted,
    clocks_rise_across_ticks, counts_are_within, entries_are_current, fallen_clocks_are_refused,
    fast_agains_have_a_cause, full_agains_have_a_cause, logs_are_allowed, logs_never_fall,
    openings_never_fall, past_agains_have_a_cause, readings_are_allowed,
    readings_are_at_their_ticks, readings_are_of_their_hands, too_old_has_a_cause,
};
