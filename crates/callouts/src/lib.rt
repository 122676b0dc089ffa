//! Timers by the uptime on a timing wheel: 256 slots by whole seconds, each a heap of nodes that are linked by index.
#![tactic(auto)]

mod asked;
mod firings;
mod heaps;
mod laws;
mod links;
mod nodes;
mod slots;
#[cfg(test)]
mod tests;
mod timers;
mod wheel;
mod winners;

pub use asked::{fire_asked, wheel_of};
pub use firings::{Firing, fire_all, split_firings};
pub use laws::{
    asked_timers_are_worked, timers_fire_at_their_first_tick, timers_stay_at_their_places,
    wheels_are_lists, wheels_are_queues,
};
pub use timers::{Entry, Fired, Timer, WheelFull};
pub use wheel::Wheel;
