//! How much an exchange counts for the time of now, and means of weighted times.
#![tactic(auto)]

mod laws;
mod sums;
mod weights;

pub use laws::{best_exchanges_count_whole, old_exchanges_do_not_count, weights_are_the_table};
pub use sums::Sums;
pub use weights::{WEIGHTS, weight, weightless_from};
