//! The reads of a clock that is published word by word: what one call asks for, which words it loads in
//! which order, and what these loads decide. Nothing here knows of memory, of threads or of the journal
//! of ticks.
#![tactic(auto)]

mod laws;
mod loads;
mod refusals;

pub use laws::{full_reads_moved, full_reads_stood, loads_decide};
pub use loads::{Ask, Load};
pub use refusals::{conversions_go_down, fast_reads_look_at_the_mark, full_reads_load_all};
