//! What each seat of a table of ticks knows, what a step makes of that, and what it must fit: a small
//! world of the journal, the turn word, the marks and the counter. Nothing here knows of the table
//! itself.
#![tactic(auto)]

mod laws;
mod refusals;
mod views;

pub use laws::views_stay_fit;
pub use refusals::{
    again_has_a_cause, cuts_have_seen_all, marks_are_of_their_slots, numbers_fall,
    other_answers_have_a_cause, passes_are_kept_whole, raises_are_kept,
};
pub use views::{CrankView, MarkLoad, PassView, PenView, View};
