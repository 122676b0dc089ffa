//! Stamps of a made world, drawn from a number.
//!
//! Its counter runs evenly, so the true time at each count is known, and the server tells true times.
#![tactic(auto)]

mod draws;
mod laws;
mod made;
mod maker;
#[cfg(test)]
mod tests;
mod world;

pub use laws::{
    lists_are_whole, lists_grow, period_is_believed, round_trips_are_within, server_times_are_true,
    stamps_are_accepted, stamps_are_true, stamps_are_within, stamps_lie_in_the_made_world,
};
pub use made::Made;
pub use maker::Maker;
pub use world::{FREQ, made_world};
