//! The memory that the publisher of a clock and its readers share: 162 words, a rule over them that
//! holds between any two atomic steps of any threads, and one method for each step that anyone makes.
//!
//! Who makes steps has a seat. The pen is the publisher, a pass is a reader, the crank may raise the
//! counter beside the pen, and a note carries what its maker had seen. A seat knows what it has seen
//! (its view), and each method says exactly what its view gains. The words, and which step stands for
//! what, are told in `docs/PUBLICATION.md`.
#![tactic(auto)]

mod crank;
mod laws;
mod note;
mod pass;
mod pen;
mod rule;
mod share;
#[cfg(test)]
mod tests;

pub use crank::CrankSeat;
pub use hand_words::{FIELDS, pack, unpack};
pub use laws::{ticks_keep_entries, words_stand_in_their_places};
pub use note::NoteSeat;
pub use pass::PassSeat;
pub use pen::PenSeat;
pub use rule::Ticks;
pub use share::{Share, Words};
