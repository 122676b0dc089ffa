//! Stamp files: from bytes, one at a time or up to a line end, to the head and the items of a
//! file, and the tests that an item has to pass.
#![tactic(auto)]

mod accepts;
mod cuts;
mod feed;
mod items;
mod laws;
mod lines;
mod numbers;
mod past;
mod stamps;
#[cfg(test)]
mod tests;

pub use accepts::{Refused, accept};
pub use feed::Feed;
pub use laws::{
    accepted_items_follow, accepted_items_grow, accepted_stamps_follow, accepted_stamps_go_on,
    accepted_stamps_grow, lines_are_worked, stamps_alone_are_items, tests_are_worked,
    version_1_is_a_special_case,
};
pub use lines::{Head, Item, Line, LineFault, Stamp, Why};
pub use numbers::number_of;
pub use past::Past;
