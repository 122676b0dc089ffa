//! The least round trips of six sliding windows, by lists that are linked by index.
//!
//! A window's list has those of its round trips that have no lesser one behind them. So its head is
//! the first of least round trip, and one more round trip ends the list behind the last that isn't
//! above it.
#![tactic(auto)]

mod laws;
mod lists;
mod nodes;
#[cfg(test)]
mod tests;
mod trips;
mod which;
mod windows;

pub use laws::{an_index_takes_two_steps, one_is_first};
pub use lists::Lists;
pub use which::Which;
