//! What holds of readers that share a table of ticks, by what they loaded and by the publisher's
//! journal alone. There are definitions and laws here. Nothing has a seat or makes a step.
//!
//! - How far a call of a reader has gone is said by its loads: those that it makes further
//!   (`GoesOn`), those of a whole call (`Calls`), and those by which it has an answer (`Answers`).
//!   The lemmas on these follow a full read, a fast one and a conversion load by load to each of
//!   their answers.
//! - What the publisher kept of a reader that it took in is legal by its journal alone
//!   (`IsKeptLegal`, the law [`kept_logs_are_legal`]): the log, with the opening values of its
//!   calls, how many ticks the reader had seen, and the counts of its readings. These are below
//!   2^62, and while no crank is out none is past what the publisher raised the counter to.
//! - What a call comes to answers what it asked: it is of the kind that was asked for, and of what
//!   was given ([`calls_are_answered_as_asked`]).
//! - Conversions agree: in all logs together, one past count was converted to one time
//!   ([`conversions_agree`]). That conversions never fall as the counts rise, but for resets and
//!   jumps, is a law of `clock_logs`.
#![tactic(auto)]

mod laws;
mod refusals;

pub use laws::{
    calls_are_answered_as_asked, calls_go_on, calls_keep_their_loads, conversions_agree,
    kept_logs_are_legal,
};
pub use refusals::kept_logs_are_refused;
