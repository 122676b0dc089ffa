// What follows for the accepted stamps of lines.
ghost use Rattle.std.specs.Prelude.{◌≡◌, ◌-◌, ◌^◌, ℕ, pos, negsuc, true, false, codes, Some, None, Ok, Err, map, List, [], ◌∷◌, ◌++◌};
ghost use Rattle.std.specs.List.{All};
ghost use Rattle.stamp_text.specs.Accepted.{IsInRange, IsItemInRange, AreAccepted, accept_of, accepted_all, accepted_of_lines, accepted_with, last_of};
ghost use Rattle.stamp_text.specs.Cut.{file_lines};
ghost use Rattle.stamp_text.specs.Grammar.{second_of, freq_says, given_of_file, short_says};
ghost use Rattle.stamp_text.specs.Items.{item_in};
ghost use Rattle.stamp_text.specs.Past.{AreAcceptedItems, Seen, accept_item, accepted_items, accepted_of, is_unsynchronised, item_of_line, nothing_seen, test_of};
ghost use Rattle.stamp_text.specs.Samples.{at, exchange, exchanged, said};
ghost use Rattle.stamp_text.specs.declared.lines.Head.{Head};
ghost use Rattle.stamp_text.specs.declared.lines.Item.{Item};
ghost use Rattle.stamp_text.specs.declared.lines.Item.TheVariants as item;
ghost use Rattle.stamp_text.specs.declared.lines.Line.{Line};
ghost use Rattle.stamp_text.specs.declared.lines.Line.TheVariants as gives;
ghost use Rattle.stamp_text.specs.declared.accepts.Refused.TheVariants as refused;
ghost use Rattle.stamp_text.specs.declared.lines.Stamp.{Stamp};
ghost use Rattle.stamp_text.specs.declared.lines.Why.TheVariants as why;

/// The law of one more line: a stamp is tested against the last accepted one before it, and a head
/// adds nothing.
pub fn accepted_stamps_grow()
    ensures stamp { (freq line : ℕ) (lines : List Line) (s : Stamp) →
        let before = accepted_of_lines freq lines in
        accepted_of_lines freq (lines ++ gives.Stamp line s ∷ []) ≡
        accepted_with before s (accept_of (last_of before) s freq) }
    ensures head { (freq : ℕ) (lines : List Line) (h : Head) →
        accepted_of_lines freq (lines ++ gives.Head h ∷ []) ≡ accepted_of_lines freq lines }
{}

/// The law of stamps in two parts: those of the second are tested behind the accepted ones of the
/// first.
pub fn accepted_stamps_go_on()
    ensures { (freq : ℕ) (accepted stamps more : List Stamp) →
        accepted_all freq accepted (stamps ++ more) ≡
        accepted_all freq (accepted_all freq accepted stamps) more }
{}

/// The law of one more line: an item is tested behind the accepted ones before it, and a head adds
/// nothing.
pub fn accepted_items_grow()
    ensures item { (freq : ℕ) (lines : List Line) (line : Line) (x : Item) → item_of_line line ≡ Some x →
        let before = accepted_of freq lines in
        accepted_of freq (lines ++ line ∷ []) ≡ accepted_with before x (accept_item freq before x) }
    ensures head { (freq : ℕ) (lines : List Line) (h : Head) →
        accepted_of freq (lines ++ gives.Head h ∷ []) ≡ accepted_of freq lines }
{}

/// The law that items in range, each of which is accepted behind the accepted ones before it, are such
/// that a clock can go by them: their stamps are accepted behind each other, and the counts of their
/// replies and sets rise.
pub fn accepted_items_follow()
    ensures { (freq : ℕ) (items : List Item) → All IsItemInRange items →
        AreAcceptedItems freq (accepted_items freq [] items) }
{}

/// The law that each accepted stamp of stamps in range was accepted behind the one before it.
pub fn accepted_stamps_follow()
    ensures { (freq : ℕ) (stamps : List Stamp) → All IsInRange stamps →
        AreAccepted freq (accepted_all freq [] stamps) }
{}

/// The law that stamps alone are items: those of synchronised servers are tested by their times alone, and
/// accepted stamps are accepted items.
pub fn stamps_alone_are_items()
    ensures tested { (freq : ℕ) (stamps : List Stamp) → All (λ s. is_unsynchronised s ≡ false) stamps →
        accepted_items freq [] (map item.Stamp stamps) ≡ map item.Stamp (accepted_all freq [] stamps) }
    ensures accepted { (freq : ℕ) (stamps : List Stamp) → AreAccepted freq stamps →
        AreAcceptedItems freq (map item.Stamp stamps) }
{}

/// The law that a file of version 1 is a special case of one of version 2: what an item line of it says,
/// that says in version 2 with ` 1 0` behind it, and its accepted items are the stamps that the tests of
/// their times accept.
pub fn version_1_is_a_special_case()
    ensures line { (line : List ℕ) (x : Item) → item_in false line ≡ Ok x →
        item_in true (line ++ codes " 1 0") ≡ Ok x }
    ensures accepted { (freq : ℕ) (text : List ℕ) → second_of (file_lines text) ≡ false →
        accepted_of freq (given_of_file text) ≡
        map item.Stamp (accepted_of_lines freq (given_of_file text)) }
{}

/// The law of worked lines: what heads say, and item lines at the ends of their ranges and past them.
#[tactic(auto, unfolding(crate::specs::Items::item_in, crate::specs::Stamps::stamp_in))]
pub fn lines_are_worked()
    ensures first { freq_says false (codes "freq 1000000") ≡ Ok (Some (gives.Head (record { version = 1; freq = 1000000 }))) }
    ensures second { freq_says true (codes "freq 16000000000") ≡ Ok (Some (gives.Head (record { version = 2; freq = 16000000000 }))) }
    ensures slow { freq_says true (codes "freq 999999") ≡ Err why.Freq }
    ensures fast { freq_says true (codes "freq 16000000001") ≡ Err why.Freq }
    ensures stamp { item_in true (codes "7 8.5 9 10 255 3") ≡ Ok (item.Stamp (record (exchange 7 10) { tb = record { sec = pos 8; frac = 9223372036854775808 }; te = at 9; stratum = 255; leap = 3 })) }
    ensures stratum { item_in true (codes "7 8.5 9 10 256 3") ≡ Err why.Range }
    ensures leap { item_in true (codes "7 8.5 9 10 255 4") ≡ Err why.Range }
    ensures last { item_in true (codes "leap 4611686018427387903 1") ≡ Ok (item.Leap 4611686018427387903 (pos 1)) }
    ensures past { item_in true (codes "leap 4611686018427387904 1") ≡ Err why.Range }
    ensures left_out { item_in true (codes "leap 5 -1") ≡ Ok (item.Leap 5 (negsuc 0)) }
    ensures set { item_in true (codes "set 5 4294967295") ≡ Ok (item.Set 5 (at 4294967295)) }
    ensures set_past { item_in true (codes "set 5 4294967296") ≡ Err why.Range }
{}

/// The law of worked tests, each of which holds by one count, one grain or one second.
#[tactic(auto, unfolding(crate::specs::Past::test_of))]
pub fn tests_are_worked()
    ensures first { test_of 1000000 nothing_seen (item.Stamp (exchange 7 1000007)) ≡ Ok tt }
    ensures long_trip { test_of 1000000 nothing_seen (item.Stamp (exchange 7 1000008)) ≡ Err refused.LongTrip }
    ensures backward { test_of 1000000 nothing_seen (item.Stamp (exchange 7 7)) ≡ Err refused.Backward }
    ensures next { test_of 1000000 (exchanged 10) (item.Stamp (exchange 11 12)) ≡ Ok tt }
    ensures overlap { test_of 1000000 (exchanged 10) (item.Stamp (exchange 10 12)) ≡ Err refused.Overlap }
    ensures behind_set { test_of 1000000 (record nothing_seen { set = Some 10 }) (item.Stamp (exchange 11 12)) ≡ Ok tt }
    ensures before_set { test_of 1000000 (record nothing_seen { set = Some 10 }) (item.Stamp (exchange 10 12)) ≡ Err refused.BeforeSet }
    ensures alarm { test_of 1000000 nothing_seen (item.Stamp (said 15 3)) ≡ Err refused.Unsynchronised }
    ensures far { test_of 1000000 nothing_seen (item.Stamp (said 15 2)) ≡ Ok tt }
    ensures farther { test_of 1000000 nothing_seen (item.Stamp (said 16 2)) ≡ Err refused.Unsynchronised }
    ensures no_stratum { test_of 1000000 nothing_seen (item.Stamp (said 0 2)) ≡ Err refused.Unsynchronised }
    ensures set { test_of 1000000 (exchanged 10) (item.Set 11 (at 0)) ≡ Ok tt }
    ensures set_old { test_of 1000000 (exchanged 10) (item.Set 10 (at 0)) ≡ Err refused.SetOld }
    ensures put_in { test_of 1000000 (record (exchanged 10) { leap = Some 9; leaps = 99 }) (item.Leap 11 (pos 1)) ≡ Ok tt }
    ensures left_out { test_of 1000000 (exchanged 10) (item.Leap 11 (negsuc 0)) ≡ Err refused.LeapUnannounced }
    ensures leap_old { test_of 1000000 (exchanged 10) (item.Leap 10 (pos 1)) ≡ Err refused.LeapOld }
    ensures pending { test_of 1000000 (record (exchanged 10) { leap = Some 10 }) (item.Leap 11 (pos 1)) ≡ Err refused.LeapPending }
    ensures limit { test_of 1000000 (record (exchanged 10) { leaps = 100 }) (item.Leap 11 (pos 1)) ≡ Err refused.LeapLimit }
{}
