// Where the words stand, and what the journal's growth does to entries.
ghost use Rattle.std.specs.Prelude.{◌≡◌};
ghost use Rattle.tick_table.specs.Rule.{field_at, mark_at};
ghost use Rattle.tick_views.specs.Worlds.{FitsEntry, MayPublish, published};

/// The law that each entry which stands over a journal, beside an open windup, stands over it with that
/// windup's tick at its end. The tick's count has to be the counter that the windup loaded, or a later
/// one: no reading so far is at a count past that.
pub fn ticks_keep_entries()
    ensures { (w : _) (h : _) (o : _) (e : _) → MayPublish w h → FitsEntry w o e → FitsEntry (published w h) o e }
{}

/// The law of the layout: slot 0 begins at word 2 and each slot has sixteen words, its mark and then
/// fields 0 to 14, so that the last field of slot 9 is the last of all 162 words. Tick `m` has slot
/// `m % 10`.
pub fn words_stand_in_their_places()
    ensures first { (mark_at 0 ≡ 2) × (field_at 0 0 ≡ 3) × (field_at 0 14 ≡ 17) }
    ensures second { (mark_at 1 ≡ 18) × (field_at 1 0 ≡ 19) }
    ensures last { (mark_at 9 ≡ 146) × (field_at 9 14 ≡ 161) }
    ensures again { (mark_at 10 ≡ 2) × (mark_at 127 ≡ mark_at 7) × (field_at 127 5 ≡ field_at 7 5) }
{}
