// What follows of bases and of pairs.
ghost use Rattle.std.specs.Prelude.{◌≡◌, ℕ, ◌<◌, List, ◌++◌, length, Some, Bool, IsTrue, true, false};
ghost use Rattle.std.specs.List.{All};
ghost use Rattle.stamp_text.specs.declared.lines.Stamp.{Stamp};
ghost use Rattle.rtt_window.specs.Bases.{base_at, judged};
ghost use Rattle.rtt_window.specs.Pairs.{first_least, pair_of, quarter, IsFirstLeast, StandBefore};

/// The law that what is said of a stamp depends on it and on the stamps before it alone: it stays,
/// whatever stamps come behind.
pub fn bases_stay()
    ensures { (freq : ℕ) (all more : List Stamp) (i : ℕ) → i < length all →
        base_at freq (all ++ more) i ≡ base_at freq all i }
{}

/// The law that the first stamp of least round trip is what its name says: no stamp of the list has a
/// lesser round trip, and each stamp before it has a greater one.
pub fn firsts_are_least()
    ensures { (all : List Stamp) (s : Stamp) → first_least all ≡ Some s → IsFirstLeast all s }
{}

/// The law that a pair is two stamps of the list, the first before the second. So a test that all
/// stamps pass is passed by both.
pub fn pairs_are_of_the_list()
    ensures places { (reach : ℕ) (all : List Stamp) (j k : Stamp) →
        pair_of reach all ≡ Some (j, k) → StandBefore all j k }
    ensures both { (test : Stamp → Bool) (reach : ℕ) (all : List Stamp) (j k : Stamp) →
        All (λ s. IsTrue (test s)) all → pair_of reach all ≡ Some (j, k) →
        IsTrue (test j) × IsTrue (test k) }
{}

/// The law of a worked level of round trips: it shifts where 32 stamps stand behind its start and the least of
/// the last 32 is more than four scales above, and begins anew with these 32.
#[tactic(auto, unfolding(crate::specs::Bases::judged))]
pub fn shifts_are_worked()
    ensures shifted { judged 1000000000 0 32 100 240101 ≡ record { base = 240101; start = 1; shifted = true } }
    ensures near { judged 1000000000 0 32 100 240100 ≡ record { base = 100; start = 0; shifted = false } }
    ensures early { judged 1000000000 1 32 100 240101 ≡ record { base = 100; start = 1; shifted = false } }
{}

/// The law of quarters: rounded down, and at least one.
pub fn quarters_are_worked()
    ensures least { quarter 3 ≡ 1 }
    ensures down { quarter 11 ≡ 2 }
    ensures whole { quarter 12 ≡ 3 }
{}
