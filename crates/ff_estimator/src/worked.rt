// Worked numbers, each of which changes by one stamp, one count or one grain.
ghost use Rattle.std.specs.Prelude.{◌≡◌, [], ◌∷◌, pos, negsuc, true, false, Some, None};
ghost use Rattle.rate_pair.specs.declared.rates.Rate.{Rate};
ghost use Rattle.ff_estimator.specs.Choices.{is_doubted, chosen, predicted_by};
ghost use Rattle.ff_estimator.specs.Estimates.{estimate_of};
ghost use Rattle.ff_estimator.specs.Leaps.{fields_at};
ghost use Rattle.ff_estimator.specs.Rates.{uses_local};
ghost use Rattle.ff_estimator.specs.Samples.{rate_of_period, taken_with};

/// The law of the rate in use: the local one from stamp 63 on, where it is at most 3 parts in 10^7 away.
pub fn rates_in_use_are_worked()
    ensures near { uses_local 63 (rate_of_period 10000003) (rate_of_period 10000000) ≡ true }
    ensures far { uses_local 63 (rate_of_period 10000004) (rate_of_period 10000000) ≡ false }
    ensures early { uses_local 62 (rate_of_period 10000003) (rate_of_period 10000000) ≡ false }
{}

/// The law of a mean that is doubted: from stamp 16 on, where it is more than a millisecond from the
/// prediction, and 32 times in a row at most.
pub fn doubts_are_worked()
    ensures above { is_doubted 16 31 (pos 0) (pos 18446744073709552) ≡ true }
    ensures below { is_doubted 16 31 (pos 18446744073709552) (pos 0) ≡ true }
    ensures near { is_doubted 16 31 (pos 0) (pos 18446744073709551) ≡ false }
    ensures early { is_doubted 15 31 (pos 0) (pos 18446744073709552) ≡ false }
    ensures often { is_doubted 16 32 (pos 0) (pos 18446744073709552) ≡ false }
{}

/// The law of what is taken: a mean that is believed ends the run, one that is doubted lengthens it, and
/// none leaves it. What is carried on grows by the error of its rate.
pub fn choices_are_worked()
    ensures believed { chosen 15 5 (pos 3, 4) (Some (pos 18446744073709999, 6)) ≡ record { time = pos 18446744073709999; spread = 6; predicted = false; run = 0 } }
    ensures doubted { chosen 16 5 (pos 3, 4) (Some (pos 18446744073709999, 6)) ≡ record { time = pos 3; spread = 4; predicted = true; run = 6 } }
    ensures none { chosen 16 5 (pos 3, 4) None ≡ record { time = pos 3; spread = 4; predicted = true; run = 5 } }
    ensures carried { predicted_by (record { period = 10; low = 8; high = 11 }) 3 (taken_with 6) ≡ (pos 30, 12) }
{}

/// The law of an estimate's errors, which are rounded up, of its greatest error, and of its marks.
pub fn estimates_are_worked()
    ensures up { (estimate_of 15 9 (rate_of_period 999) (taken_with 18446744074)).errb_abs ≡ 2 }
    ensures whole { (estimate_of 15 9 (rate_of_period 999) (taken_with 18446744073)).errb_abs ≡ 1 }
    ensures rate { (estimate_of 15 9 (rate_of_period 999) (taken_with 0)).errb_rate ≡ 1001001002 }
    ensures warm { (estimate_of 15 9 (rate_of_period 999) (taken_with 79228162495817593519)).status ≡ record { unsync = false; warmup = true } }
    ensures unsure { (estimate_of 16 9 (rate_of_period 999) (taken_with 79228162495817593520)).status ≡ record { unsync = true; warmup = false } }
    ensures most { (estimate_of 16 9 (rate_of_period 999) (taken_with 79228162495817593520)).errb_abs ≡ 4294967295 }
{}

/// The law of leap seconds that are told: the latest until its count is past, and the sum of those before.
pub fn leaps_are_worked()
    ensures due { fields_at (record { count = 5; sign = pos 1 } ∷ record { count = 9; sign = negsuc 0 } ∷ []) 9 ≡ record { next = 9; total = pos 1; sign = negsuc 0 } }
    ensures past { fields_at (record { count = 5; sign = pos 1 } ∷ record { count = 9; sign = pos 1 } ∷ []) 10 ≡ record { next = 0; total = pos 2; sign = pos 0 } }
{}
