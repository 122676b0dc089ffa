// Leap seconds.
ghost use Rattle.std.specs.Prelude.{◌≡◌, ◌⊎◌, ◌≤◌, pos, negsuc};
ghost use Rattle.ff_estimator.specs.Leaps.{AreFew, fields_kept, leaps_with, no_leaps, sum_kept};

/// A leap second, behind a count: it is put in, where its sign is 1, or left out, where it is -1.
#[derive(Clone, Copy, Debug, PartialEq, Eq)]
pub struct Leap {
    pub count: u64,
    pub sign: i8,
}

/// What a daemon keeps of accepted leap seconds: the latest, and the sum of the signs of those before
/// it.
#[derive(Clone, Copy, Debug, PartialEq, Eq)]
pub struct Leaps {
    pub total: i16,
    pub latest: Option<Leap>,
}

/// What an estimate tells of leap seconds: the one that is to come, and the sum of those before.
#[derive(Clone, Copy, Debug, PartialEq, Eq)]
pub struct LeapFields {
    pub next: u64,
    pub total: i16,
    pub sign: i8,
}

/// No leap seconds.
pub fn no_leaps() -> Leaps
    ensures { result ≡ no_leaps }
{
    Leaps {
        total: 0,
        latest: None,
    }
}

// The sum of the signs of all of them.
#[inline(always)]
fn sum_kept(leaps: &Leaps) -> i16
    requires few { AreFew leaps.now 100 }
    ensures { result ≡ sum_kept leaps.now }
{
    match leaps.latest {
        Some(latest) => leaps.total + i16::from(latest.sign),
        None => leaps.total,
    }
}

/// What is told of them at a count.
#[inline(always)]
pub fn fields_kept(leaps: &Leaps, count: u64) -> LeapFields
    requires few { AreFew leaps.now 100 }
    ensures { result ≡ fields_kept leaps.now count }
{
    match leaps.latest {
        Some(latest) if count <= latest.count => LeapFields {
            next: latest.count,
            total: leaps.total,
            sign: latest.sign,
        },
        _ => LeapFields {
            next: 0,
            total: sum_kept(leaps),
            sign: 0,
        },
    }
}

/// One more of them.
pub fn leaps_with(leaps: &Leaps, count: u64, leap: i8) -> Leaps
    requires few { AreFew leaps.now 100 }
    ensures { result ≡ leaps_with leaps.now count leap }
{
    Leaps {
        total: sum_kept(leaps),
        latest: Some(Leap { count, sign: leap }),
    }
}
