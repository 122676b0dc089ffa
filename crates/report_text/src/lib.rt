//! The lines of a report, and those of a made stamp file. Each call makes one whole line with its line end
//! and pushes it at once. Lines that a report has many of come in two forms: alone, and in `lines`, `entries`
//! and `made` in a text that the caller lends.
#![tactic(auto)]

mod alone;
pub mod entries;
mod laws;
mod line;
pub mod lines;
pub mod made;
mod names;
#[cfg(test)]
mod tests;
mod worked;

pub use alone::{
    base_line, entry_line, estimate_line, fire_line, leap_line, made_line, refused_line, set_line,
    stamp_line, tick_line,
};
pub use laws::{made_files_are_read, made_lines_are_read};
pub use line::LineText;
pub use lines::{
    EndCounts, FaultText, Limit, ReportHead, Summary, end_line, fault_line, head_line, ideal_line,
    summary_line,
};
pub use worked::{
    lines_of_ends_are_worked, lines_of_items_are_worked, lines_of_replays_are_worked,
};
