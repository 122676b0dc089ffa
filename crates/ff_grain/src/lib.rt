//! Times as whole numbers of grains. A grain is 2^-64 s, so a second has 2^64 grains.
#![tactic(auto)]

mod bintime;
mod laws;
mod memory;
mod periods;
mod scale;

pub use bintime::{Bintime, convert_delta, from_nanos, grains_of};
pub use laws::{
    nanoseconds_are_worked, periods_are_worked, scales_are_worked, times_compare_as_numbers,
};
pub use memory::NoMemory;
pub use periods::{highest_period, lowest_period, nominal_period};
pub use scale::{scale_ceil, trip_scale};
