//! The outside of the program as traits: a source of bytes and a sink for them, each with a count of
//! its faults, and a gate between the steps of its threads.
#![tactic(auto)]

mod blocks;
mod calls;
mod gate;
mod memory;
mod sink;
mod source;
mod streams;
#[cfg(test)]
mod tests;

pub use blocks::{BLOCK, BlockSink};
pub use calls::{Reader, Writer};
pub use gate::{Gate, OpenGate};
pub use memory::{MemSink, MemSource};
pub use sink::Sink;
pub use source::Source;
pub use streams::{StdSink, StdSource};

/// A pull or a push failed.
#[derive(Clone, Copy, Debug, PartialEq, Eq)]
pub struct Failed;
