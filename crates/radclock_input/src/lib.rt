//! What the program reads. One loop pulls all inputs, in pieces of at most 4,096 bytes, and stops at the first byte that
//! stops an input: [`read_all`], over an [`Intake`] that keeps what the bytes give. [`read_file`] reads a stamp file by
//! it, and [`read_capture`] a capture of packets.
#![tactic(auto)]

mod captures;
mod files;
mod pulls;
mod quota;
mod stamps;
mod stops;

pub use captures::read_capture;
pub use files::{ItemLine, MOST_ACCEPTED, MOST_BYTES, MOST_ITEMS, StampFile, accept_item};
pub use pulls::{Intake, read_all};
pub use stamps::read_file;
pub use stops::Stop;
