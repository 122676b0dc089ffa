//! The plan of a replay, which says which orders the clock is given, and at which counts; and its play, by
//! a driver, with readers and a crank beside it.
#![tactic(auto)]

mod driver;
mod feeds;
mod lanes;
mod laps;
mod laws;
mod log;
mod plan;
mod players;
mod reader;
#[cfg(test)]
mod tests;

pub use feeds::count_events;
pub use lanes::play_lane;
pub use laws::{
    accepted_items_follow_each_other, journals_are_legal, journals_are_the_only_ones,
    journals_take_each_estimate, new_logs_are_ready, plans_fit, plans_go_by_each_event,
    plans_take_each_estimate, steps_are_counted, steps_wind, targets_never_fall,
};
pub use log::ReadLog;
pub use plan::{Options, Plan, PlanStep};
pub use players::play;
