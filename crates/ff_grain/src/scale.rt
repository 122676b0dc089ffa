// By how much round trips may differ, and bounds that grow with the time.
ghost use Rattle.std.specs.Prelude.{◌≡◌, ◌≤◌, ◌<◌, ◌*◌, ◌^◌};
ghost use Rattle.std.specs.Int.{div_ceil};
ghost use Rattle.ff_grain.specs.Scales.{trip_scale};

/// The scale by which round trips are judged: the counts that 60 microseconds take at a nominal
/// frequency of `freq` Hz, rounded down, and at least 1.
///
/// Frequencies are from 10^6 to 16*10^9. Veitch, Ridoux and Korada judge by a like multiple of the
/// noise of a host's time stamps.
pub fn trip_scale(freq: u64) -> u64
    requires { freq ≤ 16000000000 }
    ensures { result ≡ trip_scale freq }
{
    (60 * freq / 1_000_000).max(1)
}

/// The parts of a whole, where a rate is in ps per s.
const PARTS: u128 = 1_000_000_000_000;

/// `PARTS` is 2^12 times this.
const ODD_PARTS: u64 = 244_140_625;

// A number of 111 bits by 10^12, rounded up: a shift by the powers of 2, and what is left in two digits of
// 36 bits, so that no division is of more than 64 bits.
#[tactic(auto, using(crate::proofs::Parts::ceil_by_digits))]
#[inline(always)]
fn ceil_of_parts(n: u128) -> u128
    requires { n < 2 ^ 111 }
    ensures { result ≡ div_ceil n 1000000000000 }
{
    let cut = (n + (PARTS - 1)) >> 12;
    let high = (cut >> 36) as u64;
    let low = high % ODD_PARTS * (1 << 36) + (cut % (1 << 36)) as u64;
    u128::from(high / ODD_PARTS) * (1 << 36) + u128::from(low / ODD_PARTS)
}

// The whole multiples of 10^12 are scaled apart from the rest, since the product may take 149 bits.
#[tactic(auto, using(crate::proofs::Parts::ceil_by_parts))]
#[cold]
fn scale_long(grains: u128, ppt: u32) -> u128
    requires { grains < 2 ^ 117 }
    ensures { result ≡ div_ceil (grains * ppt) 1000000000000 }
{
    let whole = grains / PARTS * u128::from(ppt);
    let rest = grains % PARTS * u128::from(ppt);
    whole + rest.div_ceil(PARTS)
}

/// The error that a rate of `ppt` ps per s makes over a time of `grains`, in grains, rounded up:
/// `grains * ppt / 10^12`.
///
/// Times are below 2^117 grains, and those below 2^79, which are 9 hours, take some twenty
/// instructions. After the error bound of FreeBSD's ffclock.
#[inline(always)]
pub fn scale_ceil(grains: u128, ppt: u32) -> u128
    requires { grains < 2 ^ 117 }
    ensures { result ≡ div_ceil (grains * ppt) 1000000000000 }
{
    if grains >> 79 == 0 {
        ceil_of_parts(grains * u128::from(ppt))
    } else {
        scale_long(grains, ppt)
    }
}

#[cfg(test)]
mod tests {
    use super::*;

    #[test]
    fn errors_are_rounded_up(rt: HostRuntime) {
        for (grains, ppt, error) in [
            (1, 1, 1),
            (0, 5, 0),
            (1_000_000_000_000, 5, 5),
            (1_000_000_000_001, 5, 6),
        ] {
            assert_eq!(rt; scale_ceil(grains, ppt), error, "at {grains} and {ppt}");
        }
    }
}
