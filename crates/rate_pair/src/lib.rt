//! How fast a counter runs: its period, from its nominal frequency alone or from two exchanges with a
//! time server.
#![tactic(auto)]

mod rates;
#[cfg(test)]
mod tests;

pub use rates::{Interval, Rate, between, nominal, of_interval, of_pair};
