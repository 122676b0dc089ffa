//! A lane that carries events from the thread of a daemon to the thread that winds a clock: in order, each once.
#![tactic(auto)]

mod ends;
mod lanes;
#[cfg(test)]
mod tests;

pub use ends::{LaneIn, LaneOut};
pub use lanes::Lane;
