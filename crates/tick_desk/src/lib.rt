//! The clock as programs use it from threads: one pen that winds it, passes that read it anywhere
//! without a lock and without waiting, and a crank that drives the counter.
//!
//! A desk has them all. Its pen publishes ticks; each pass answers a read by the hands of one
//! published tick, or says that a windup came between (`Again`), and then the caller may ask again.
//! Past counts are converted by the tick that was current then, up to nine ticks back. What each
//! call loads, and in which order, is told in `docs/PUBLICATION.md`.
#![tactic(auto)]

mod convert;
mod crank;
mod desk;
mod laws;
mod looks;
mod note;
mod pass;
mod pen;
mod reads;
#[cfg(test)]
mod tests;
mod winds;

pub use convert::Converted;
pub use crank::Crank;
pub use desk::Desk;
pub use laws::{
    answers_are_bounded, beginnings_and_rests_are_reads, fresh_desks_are_unused,
    pens_read_by_the_newest_tick, readings_are_by_hands,
};
pub use note::Note;
pub use pass::Pass;
pub use pen::Pen;
pub use reads::{Answer, Begun};
