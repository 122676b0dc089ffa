//! The daemon in a world in which a counter runs at one rate: its estimates are within their spreads of
//! the truth, and the ticks that are made of them within their bounds.
#![tactic(auto)]

mod deviations;
mod laws;
#[cfg(test)]
mod tests;
mod watched;

pub use deviations::{Deviation, farthest};
pub use laws::{deviations_are_bounded, made_stamps_hold};
pub use watched::{Judged, Watched};
pub use world_times::World;
