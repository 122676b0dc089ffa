//! The round trips of the latest accepted stamps: the base that they are trusted to have, where their
//! level shifts, and the two stamps that a rate is taken from.
#![tactic(auto)]

mod bases;
mod laws;
mod spans;
#[cfg(test)]
mod tests;
mod window;

pub use bases::Base;
pub use laws::{
    bases_stay, firsts_are_least, pairs_are_of_the_list, quarters_are_worked, shifts_are_worked,
};
pub use window::Window;
