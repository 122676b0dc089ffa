// What holds of every plan, of the journal that it makes, and of the logs that are opened for it.
ghost use Rattle.std.specs.Prelude.{All, ◌≡◌, ◌+◌, ◌-◌, ◌*◌, ◌^◌, ◌<◌, ◌≤◌, Bool, false, true, ℕ, List, [], ◌∷◌, length, map, slice_get, Some};
ghost use Rattle.std.specs.List.Sorted.{IsNonDecreasingBy};
ghost use Rattle.stamp_text.specs.Accepted.{IsItemInRange};
ghost use Rattle.stamp_text.specs.Past.{AreAcceptedItems, accepted_items};
ghost use Rattle.stamp_text.specs.declared.lines.Item.{Item};
ghost use Rattle.ff_hands.specs.Journals.{order_of, IsJournal};
ghost use Rattle.ff_hands.specs.Orders.{fits};
ghost use Rattle.ff_hands.specs.Windups.{wind_of};
ghost use Rattle.ff_hands.specs.declared.hands.Hands.{Hands};
ghost use Rattle.ff_hands.specs.declared.hands.Order.TheVariants as order;
ghost use Rattle.ff_estimator.specs.Events.{events_of, fulls_of, order_of_event};
ghost use Rattle.ff_estimator.specs.Folds.{estimates_of};
ghost use Rattle.ff_estimator.specs.declared.fulls.Event.{Event};
ghost use Rattle.atomic_table.specs.Seated.{TableId};
ghost use Rattle.tick_desk.specs.Shows.{new_passes};
ghost use Rattle.replay_run.specs.Fitting.{update_after, StepFits, PlanFits};
ghost use Rattle.replay_run.specs.Journals.{journal_of, greatest, moves_in, taken_in, IsJournalOf};
ghost use Rattle.replay_run.specs.Laps.{AreAcceptedBehind};
ghost use Rattle.replay_run.specs.Logs.{AreOpened, AreReady};
ghost use Rattle.replay_run.specs.Plans.{plan_of, start_step};
ghost use Rattle.replay_run.specs.declared.log.ReadLog.{ReadLog};
ghost use Rattle.replay_run.specs.declared.plan.PlanStep.{PlanStep};

/// The law that a plan has one step for the reset, one for each event, and `ticks` between two of them.
pub fn steps_are_counted()
    ensures { (freq : ℕ) (es : List Event) (ticks : ℕ) →
        length (plan_of freq es ticks) ≡ 1 + length es + ticks * (length es - 1) }
{}

/// The law that a plan takes each estimate once, in their order.
pub fn plans_take_each_estimate()
    ensures { (freq : ℕ) (es : List Event) (ticks : ℕ) →
        taken_in (map (λ s. s.order) (plan_of freq es ticks)) ≡ estimates_of (fulls_of es) }
{}

/// The law that behind the reset a plan goes by each event once, in their order, and otherwise lets the
/// clock go on.
pub fn plans_go_by_each_event()
    ensures { (freq : ℕ) (es : List Event) (ticks : ℕ) →
        moves_in (map (λ s. s.order) (plan_of freq es ticks)) ≡
        (start_step freq).order ∷ map (order_of_event freq) es }
{}

/// The law that the plan of the events of accepted items fits a clock that was never set, each step as
/// those before it leave the clock.
pub fn plans_fit()
    ensures { (freq : ℕ) (items : List Item) (ticks : ℕ) → 1000000 ≤ freq → AreAcceptedItems freq items →
        PlanFits 0 0 (plan_of freq (events_of freq items) ticks) }
{}

/// The law that the order of a step that fits is not refused once the counter has reached the step's
/// count, also where the counter is past it, and that the clock is then as the next step takes it to be.
pub fn steps_wind()
    ensures fits { (h : Hands) (count before : ℕ) (s : PlanStep) →
        StepFits before h.est.update_ffcount s → s.to ≤ count → h.count ≤ count → count < 2 ^ 62 →
        fits h count s.order ≡ true }
    ensures next { (h : Hands) (count : ℕ) (s : PlanStep) →
        (wind_of h count s.order).est.update_ffcount ≡ update_after h.est.update_ffcount s.order }
{}

/// The law that the counts of steps that fit never fall, so that the last one is the greatest.
pub fn targets_never_fall()
    ensures rise { (before update : ℕ) (steps : List PlanStep) → PlanFits before update steps →
        IsNonDecreasingBy (λ s. s.to) steps }
    ensures most { (steps : List PlanStep) (k : ℕ) (s : PlanStep) → slice_get steps k ≡ Some s →
        s.to ≤ greatest steps }
    ensures last { (before update : ℕ) (steps : List PlanStep) (s : PlanStep) →
        PlanFits before update steps → slice_get steps (length steps - 1) ≡ Some s →
        greatest steps ≡ s.to }
{}

/// The law that steps that fit make a legal journal, whose counts and orders behind the cold hands are
/// those of the steps.
pub fn journals_are_legal()
    ensures legal { (steps : List PlanStep) → PlanFits 0 0 steps → IsJournal (journal_of steps) }
    ensures counts { (steps : List PlanStep) →
        map (λ h. h.count) (journal_of steps) ≡ 0 ∷ map (λ s. s.to) steps }
    ensures orders { (steps : List PlanStep) →
        map order_of (journal_of steps) ≡ order.Plain ∷ map (λ s. s.order) steps }
    ensures made { (steps : List PlanStep) → PlanFits 0 0 steps →
        IsJournalOf false steps (journal_of steps) }
{}

/// The law that no other legal journal has the counts and the orders of the steps.
pub fn journals_are_the_only_ones()
    ensures told { (steps : List PlanStep) (ticks : List Hands) → IsJournal ticks →
        map (λ h. h.count) ticks ≡ 0 ∷ map (λ s. s.to) steps →
        map order_of ticks ≡ order.Plain ∷ map (λ s. s.order) steps → ticks ≡ journal_of steps }
    ensures exact { (steps : List PlanStep) (ticks : List Hands) → IsJournalOf false steps ticks →
        ticks ≡ journal_of steps }
{}

/// The law that a journal made by a plan takes the plan's estimates, each once and in their order, also
/// where the counter was raised beside the driver.
pub fn journals_take_each_estimate()
    ensures { (beside : Bool) (freq : ℕ) (es : List Event) (ticks : ℕ) (journal : List Hands) →
        IsJournalOf beside (plan_of freq es ticks) journal →
        taken_in (map order_of journal) ≡ estimates_of (fulls_of es) }
{}

/// The law that new passes are as many as were asked for, and that the logs that are opened over passes
/// which are new, and the first that were made, are such as a play asks for.
pub fn new_logs_are_ready()
    ensures many { (table : TableId) (number seen readers : ℕ) →
        length (new_passes table number seen readers) ≡ readers }
    ensures ready { (table : TableId) (seen readers reads : ℕ) (logs : List ReadLog) →
        AreOpened reads (new_passes table 0 seen readers) logs → AreReady table reads logs }
{}

/// The law that the accepted items of a file are accepted one behind the other.
pub fn accepted_items_follow_each_other()
    ensures { (freq : ℕ) (more : List Item) → All IsItemInRange more →
        AreAcceptedBehind freq [] (accepted_items freq [] more) }
{}
