//! A capture of NTP packets becomes a stamp file of version 2. `take_piece` reads the capture piece by piece and
//! keeps what its replies become, `end_capture` ends it, and `push_stamps` writes the file. No line is written
//! before the capture is read whole, since a fault at its end refuses all of it.
#![tactic(auto)]

mod inputs;
mod keeps;
mod laws;
mod lines;
mod pushes;
#[cfg(test)]
mod tests;
mod whole;
mod worked;

pub use inputs::{Answer, CaptureFile, CaptureStop, MOST_EXCHANGES};
pub use keeps::{end_capture, take_piece};
pub use laws::{capture_files_are_read, captures_become_stamp_files};
pub use lines::{exchange_line, freq_line, unused_line, version_line};
pub use pushes::push_stamps;
pub use whole::read_capture;
pub use worked::{capture_answers_are_worked, capture_lines_are_worked};
