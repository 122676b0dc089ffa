//! The lines of a report on a replay, read back: what each says, of both versions. It shares no code with what makes a report.
#![tactic(auto)]

mod laws;
mod lines;
mod names;
mod numbers;
mod parts;
#[cfg(test)]
mod tests;
mod wide;

pub use laws::{
    lines_are_read, lines_say, numbers_are_read, readings_are_read, reports_are_determined,
    times_are_read,
};
pub use lines::{Line, Options, line_of};
