// The weight of an exchange by its round trip and its age.
ghost use Rattle.std.specs.Prelude.{◌≡◌, ℕ, ◌^◌, ◌<◌, ◌≤◌, slice_index_or};
ghost use Rattle.offset_weights.specs.Weights.{table, weight_of};

use ff_grain::trip_scale;

/// The weights of the rows from 0 on; each later row has the weight 0.
///
/// They fall like a Gaussian: the weight of row r is `65536 * exp(-(r/8)^2)`, rounded to the
/// nearest. Veitch, Ridoux and Korada weight by such a function of the quality of an exchange.
pub const WEIGHTS: [u32; 25] = [
    65536, 64520, 61565, 56939, 51039, 44344, 37341, 30477, 24109, 18485, 13737, 9894, 6907, 4674,
    3065, 1948, 1200, 717, 415, 233, 127, 67, 34, 17, 8,
];

/// The age, in counts, that lowers a weight as much as a round trip longer by one count.
const AGE_OF_COUNT: u64 = 1 << 23;

/// The rows that have a weight.
const ROWS: u64 = 25;

/// The rows of `WEIGHTS` within one scale of round trips.
const ROWS_OF_SCALE: u64 = 8;

// The entry of a row, and 0 behind the last one.
#[inline(always)]
fn weight_of_row(row: u64) -> u32
    ensures { result ≡ slice_index_or table row 0 }
{
    WEIGHTS.get(row as usize).copied().unwrap_or(0)
}

/// The weight of an exchange for the time of now, from 0 to 65536.
///
/// `excess` is by how many counts its round trip is above the least one, below 2^40. `age` is how
/// many counts ago its reply came. `freq` is the counter's nominal frequency in Hz, at most
/// 16*10^9, and gives the scale of round trips.
///
/// The excess grows by one count for each 2^23 counts of age, since an old exchange says less of
/// now, and each eighth of the scale is a row of `WEIGHTS`. The weight is 0 from row 25 on. After
/// the point errors of Veitch, Ridoux and Korada.
#[inline(always)]
#[tactic(auto, unfolding(crate::specs::Weights::weight_of))]
pub fn weight(excess: u64, age: u64, freq: u64) -> u32
    requires excess { excess < 2 ^ 40 }
    requires freq { freq ≤ 16000000000 }
    ensures value { result ≡ weight_of excess age freq }
    ensures most { result ≤ 65536 }
{
    let aged = excess + age / AGE_OF_COUNT;
    weight_of_row(ROWS_OF_SCALE * aged / trip_scale(freq))
}

/// An excess from which on no exchange has a weight, however young it is.
#[inline(always)]
#[tactic(auto, unfolding(crate::specs::Weights::weight_of), using(crate::proofs::WeightLaws::row_past))]
pub fn weightless_from(freq: u64) -> u64
    requires { freq ≤ 16000000000 }
    ensures { (excess age : ℕ) → result ≤ excess → weight_of excess age freq ≡ 0 }
{
    (ROWS * trip_scale(freq)).div_ceil(ROWS_OF_SCALE)
}

#[cfg(test)]
mod tests {
    use super::*;

    // The scale of 10^9 Hz is 60000 counts, so a row has 7500.
    #[test]
    fn weights_fall_at_the_ends_of_rows(rt: HostRuntime) {
        for (excess, age, wanted) in [
            (7499, 0, 65536),
            (7500, 0, 64520),
            (187_499, 0, 8),
            (187_500, 0, 0),
            (0, 62_914_559_999, 65536),
            (0, 62_914_560_000, 64520),
        ] {
            assert_eq!(rt;
                weight(excess, age, 1_000_000_000),
                wanted,
                "at {excess} and {age}"
            );
        }
    }
}
