// What follows from the table of weights.
ghost use Rattle.std.specs.Prelude.{◌≡◌, ℕ, ◌+◌, ◌*◌, ◌/◌, ◌^◌, ◌<◌, ◌≤◌, length, slice_index};
ghost use Rattle.ff_grain.specs.Scales.{trip_scale};
ghost use Rattle.offset_weights.specs.Weights.{table, weight_of};

use crate::weights::WEIGHTS;

/// The law that the weights are those of the table, and that each is smaller than the one before.
pub fn weights_are_the_table()
    ensures table { WEIGHTS ≡ table }
    ensures len { length table ≡ 25 }
    ensures falling { (row : ℕ) → row + 1 < 25 → slice_index table (row + 1) < slice_index table row }
{}

/// The law that an exchange of the least round trip has the whole weight at the count at which its
/// reply came.
pub fn best_exchanges_count_whole()
    ensures { (freq : ℕ) → weight_of 0 0 freq ≡ 65536 }
{}

/// The law that an exchange with a weight is not old: its age in counts is below 25 eighths of the
/// scale of round trips, and one more, times 2^23. From 10^6 Hz on that is below 1600 s.
pub fn old_exchanges_do_not_count()
    ensures scale { (excess age freq : ℕ) → 0 < weight_of excess age freq →
        age < (25 * trip_scale freq / 8 + 1) * 2 ^ 23 }
    ensures seconds { (excess age freq : ℕ) → 1000000 ≤ freq → 0 < weight_of excess age freq →
        age < 1600 * freq }
{}
