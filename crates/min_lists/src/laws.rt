// What follows of the least of a window, and of whole runs.
ghost use Rattle.std.specs.Prelude.{◌≡◌, ℕ, ◌*◌, ◌≤◌, List, sum_by, count_by};
ghost use Rattle.min_lists.specs.declared.which.Which.{Which};
ghost use Rattle.min_lists.specs.Lists.{Kept, IsFirstMinimum, nothing};
ghost use Rattle.min_lists.specs.Runs.{Call, Run, enters, raised};

/// The law that one index at most is the first of least round trip.
pub fn one_is_first()
    ensures { (trip : ℕ → ℕ) (from to i j : ℕ) →
        IsFirstMinimum trip from to i → IsFirstMinimum trip from to j → i ≡ j }
{}

/// The law of whole runs: over new lists, n calls of `enter` for one window raise the ledger by 2n
/// at most, whatever is called between them. It holds of each ledger.
pub fn an_index_takes_two_steps()
    ensures { (calls : List Call) (last : Kept) (which : Which) → Run nothing calls last →
        sum_by (raised which) calls ≤ 2 * count_by (enters which) calls }
{}
