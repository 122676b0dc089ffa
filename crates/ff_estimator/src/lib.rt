//! The daemon: from accepted stamps to estimates of the time, each with its bounds.
#![tactic(auto)]

mod choices;
mod daemon;
mod fulls;
mod laws;
mod leaps;
mod means;
mod rates;
#[cfg(test)]
mod tests;
mod weighings;
mod worked;

pub use choices::first_has_mean;
pub use daemon::Daemon;
pub use fulls::{Event, Fed, Full, estimates_stay};
pub use laws::{
    a_stamp_takes_twelve_steps, each_stamp_has_an_estimate, events_are_of_one_daemon,
    events_come_in_turn, events_grow, events_tell_the_fold, folds_grow, rates_are_believed,
};
pub use worked::{
    choices_are_worked, doubts_are_worked, estimates_are_worked, leaps_are_worked,
    rates_in_use_are_worked,
};
