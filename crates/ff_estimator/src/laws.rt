// What holds of all that is said of accepted stamps, and of whole runs.
ghost use Rattle.std.specs.Prelude.{◌≡◌, ℕ, ℤ, Ok, ◌*◌, ◌<◌, ◌≤◌, List, [], ◌∷◌, ◌++◌, length, map, slice_get, Some, sum_by};
ghost use Rattle.std.specs.List.{All};
ghost use Rattle.std.specs.Option.{option_to_list};
ghost use Rattle.ff_grain.specs.declared.bintime.Bintime.{Bintime};
ghost use Rattle.stamp_text.specs.Accepted.{IsInRange, IsLeapInRange, IsSetInRange, AreAccepted, accepted_with};
ghost use Rattle.stamp_text.specs.Past.{AreAcceptedItems, accept_item, counts_of, stamps_of};
ghost use Rattle.stamp_text.specs.declared.accepts.Refused.{Refused};
ghost use Rattle.stamp_text.specs.declared.lines.Item.{Item};
ghost use Rattle.stamp_text.specs.declared.lines.Item.TheVariants as item;
ghost use Rattle.stamp_text.specs.declared.lines.Stamp.{Stamp};
ghost use Rattle.rate_pair.specs.Rates.{IsRate};
ghost use Rattle.ff_estimator.specs.Daemons.{Kept, StandsFor};
ghost use Rattle.ff_estimator.specs.Estimates.{full_at};
ghost use Rattle.ff_estimator.specs.Events.{AreInTurn, AreOf, count_of_event, event_behind, events_of, fed_of, fulls_of, without_leaps};
ghost use Rattle.ff_estimator.specs.Folds.{fold_of};
ghost use Rattle.ff_estimator.specs.Rates.{rate_over, rate_in_use};
ghost use Rattle.ff_estimator.specs.Runs.{FeedCost, ArePaid, raised};
ghost use Rattle.ff_estimator.specs.declared.fulls.Event.{Event};
ghost use Rattle.ff_estimator.specs.declared.fulls.Event.TheVariants as event;
ghost use Rattle.ff_estimator.specs.declared.fulls.Full.{Full};
ghost use Rattle.ff_estimator.specs.declared.fulls.Fed.TheVariants as fed;

/// The law that one more accepted stamp adds to what a daemon says what it says at that stamp, and changes
/// nothing before it.
pub fn folds_grow()
    ensures { (freq : ℕ) (all : List Stamp) (s : Stamp) →
        fold_of freq (all ++ s ∷ []) ≡
        fold_of freq all ++ full_at freq (all ++ s ∷ []) (length all) ∷ [] }
{}

/// The law that one more accepted item adds to what was said what it says itself, and changes nothing
/// before it: an estimate depends on the items up to its stamp alone.
pub fn events_grow()
    ensures { (freq : ℕ) (items : List Item) (x : Item) →
        events_of freq (items ++ x ∷ []) ≡
        events_of freq items ++ option_to_list (event_behind freq items x) }
{}

/// The law that the events of one daemon go on being those of its accepted items: of none, of one more
/// stamp that it accepts, whose estimate is put behind the others, of one that it refuses, of one more
/// set, which is put behind the others, and of one more leap second.
pub fn events_are_of_one_daemon()
    ensures none { (freq : ℕ) → AreOf [] freq [] }
    ensures estimate { (freq : ℕ) (items : List Item) (s : Stamp) (events : List Event) (full : Full) →
        IsInRange s → AreOf events freq items → fed.Estimate full ≡ fed_of freq items s →
        AreOf (events ++ event.Estimate full ∷ []) freq
        (accepted_with items (item.Stamp s) (accept_item freq items (item.Stamp s))) }
    ensures refused { (freq : ℕ) (items : List Item) (s : Stamp) (events : List Event) (why : Refused) →
        AreOf events freq items → fed.Refused why ≡ fed_of freq items s →
        AreOf events freq (accepted_with items (item.Stamp s) (accept_item freq items (item.Stamp s))) }
    ensures set { (freq : ℕ) (items : List Item) (count : ℕ) (at : Bintime) (events : List Event) →
        IsSetInRange count at → AreOf events freq items →
        accept_item freq items (item.Set count at) ≡ Ok tt →
        AreOf (events ++ event.Set count at ∷ []) freq (items ++ item.Set count at ∷ []) }
    ensures leap { (freq : ℕ) (items : List Item) (count : ℕ) (leap : ℤ) (events : List Event) →
        IsLeapInRange count leap → AreOf events freq items →
        accept_item freq items (item.Leap count leap) ≡ Ok tt →
        AreOf events freq (items ++ item.Leap count leap ∷ []) }
{}

/// The law that the estimates of accepted items are those of their stamps, but for what they tell of leap
/// seconds, and that the events have the counts of the replies and of the sets, in their order.
pub fn events_tell_the_fold()
    ensures fold { (freq : ℕ) (items : List Item) →
        map without_leaps (fulls_of (events_of freq items)) ≡ fold_of freq (stamps_of items) }
    ensures counts { (freq : ℕ) (items : List Item) →
        map count_of_event (events_of freq items) ≡ counts_of items }
{}

/// The law that one thing is said at each accepted stamp, and its estimate is of the count of the stamp's
/// reply.
pub fn each_stamp_has_an_estimate()
    ensures at { (freq : ℕ) (all : List Stamp) (i : ℕ) → i < length all →
        slice_get (fold_of freq all) i ≡ Some (full_at freq all i) }
    ensures counts { (freq : ℕ) (all : List Stamp) →
        map (λ f. f.est.update_ffcount) (fold_of freq all) ≡ map (λ s. s.tf) all }
{}

/// The law that a clock can go by the events of accepted items one after another.
pub fn events_come_in_turn()
    ensures { (freq : ℕ) (items : List Item) → 1000000 ≤ freq → AreAcceptedItems freq items →
        AreInTurn freq (events_of freq items) }
{}

/// The law that the rates at accepted stamps are within their bounds: that which is said, that over the
/// last stamps, as many as `reach`, and that by which the mean is taken.
pub fn rates_are_believed()
    ensures said { (freq : ℕ) (all : List Stamp) → AreAccepted freq all →
        All (λ f. IsRate freq f.rate) (fold_of freq all) }
    ensures over { (reach freq : ℕ) (all : List Stamp) (i : ℕ) → AreAccepted freq all →
        IsRate freq (rate_over reach freq all i) }
    ensures in_use { (freq : ℕ) (all : List Stamp) (i : ℕ) → AreAccepted freq all →
        IsRate freq (rate_in_use freq all i) }
{}

/// The law of whole runs: on a new daemon, n calls of `feed` raise the ledger by 12n at most, whatever
/// else the ledger counts between them. It holds of each ledger.
pub fn a_stamp_takes_twelve_steps()
    ensures { (freq : ℕ) (costs : List FeedCost) (new last : Kept) → StandsFor new freq [] →
        ArePaid new costs last →
        sum_by raised costs ≤ 12 * length costs }
{}
