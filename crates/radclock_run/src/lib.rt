//! The runs of a feed-forward clock: the words say what is asked, a source gives a file of stamps, a sink takes the
//! report, and a desk holds the clock. The programs `radclock` and `radclock_usage` are one call of [`program::program`].
#![tactic(auto)]

mod asks;
mod bases;
mod captures;
mod estimates;
mod faults;
mod gather;
mod journal;
mod lanes;
mod laws;
mod listings;
mod make;
mod output;
mod plays;
pub mod program;
mod ran;
mod replay;
mod reports;
pub mod run;
mod stamps;
mod status;
#[cfg(test)]
mod tests;
mod ticks;

pub use laws::{blocks_tell, lines_tell};
pub use output::run_in_blocks;
pub use status::Status;
