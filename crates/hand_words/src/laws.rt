// What holds of the words of any hands.
ghost use Rattle.std.specs.Prelude.{◌≡◌, ◌+◌, ◌*◌, ◌^◌, pos, negsuc, true, false, [], ◌∷◌};
ghost use Rattle.ff_hands.specs.Journals.{IsSound};
ghost use Rattle.ff_hands.specs.Ranges.{FitsWords};
ghost use Rattle.ff_hands.specs.declared.hands.Hands.{Hands};
ghost use Rattle.ff_hands.specs.declared.hands.How.TheVariants as how;
ghost use Rattle.hand_words.specs.Samples.{numbered, numbered_plainly};
ghost use Rattle.hand_words.specs.Words.{IsLeap, pack, packed_word, unpack};

/// The law that hands are read back from their words, where each of their numbers fits its word and at
/// most one leap second is due. Any hands in memory have the first.
pub fn hands_are_read_back()
    ensures { (h : Hands) → FitsWords h → IsLeap h.est.leapsec → unpack (pack h) ≡ h }
{}

/// The law that sound hands can be packed, as [`crate::pack`] asks: each tick of a journal can.
pub fn sound_hands_pack()
    ensures { (h : Hands) → IsSound h → IsLeap h.est.leapsec }
{}

/// The law that each word stands in its place, and each mark in its bit of the last one.
#[tactic(auto, unfolding(crate::specs::Words::pack, crate::specs::Words::unpack))]
pub fn words_are_in_their_places()
    ensures words { pack numbered_plainly ≡ 1 ∷ 2 ∷ 3 ∷ 4 ∷ 5 ∷ 6 ∷ 7 ∷ 8 ∷ 9 ∷ 10 ∷ 11 ∷ 12 ∷ 13 ∷ (14 + 15 * 2 ^ 32) ∷ 256 ∷ [] }
    ensures back { unpack (1 ∷ 2 ∷ 3 ∷ 4 ∷ 5 ∷ 6 ∷ 7 ∷ 8 ∷ 9 ∷ 10 ∷ 11 ∷ 12 ∷ 13 ∷ (14 + 15 * 2 ^ 32) ∷ 256 ∷ []) ≡ numbered_plainly }
    ensures unsync { packed_word (numbered true false false false how.Cold (pos 0) (pos 0)) ≡ 256 + 1 }
    ensures warmup { packed_word (numbered false true false false how.Cold (pos 0) (pos 0)) ≡ 256 + 2 }
    ensures est_unsync { packed_word (numbered false false true false how.Cold (pos 0) (pos 0)) ≡ 256 + 4 }
    ensures est_warmup { packed_word (numbered false false false true how.Cold (pos 0) (pos 0)) ≡ 256 + 8 }
    ensures plain { packed_word (numbered false false false false how.Plain (pos 0) (pos 0)) ≡ 256 + 16 }
    ensures take { packed_word (numbered false false false false how.Take (pos 0) (pos 0)) ≡ 256 + 32 }
    ensures jump { packed_word (numbered false false false false how.Jump (pos 0) (pos 0)) ≡ 256 + 48 }
    ensures reset { packed_word (numbered false false false false how.Reset (pos 0) (pos 0)) ≡ 256 + 64 }
    ensures leap { packed_word (numbered false false false false how.Cold (pos 1) (pos 0)) ≡ 512 }
    ensures leap_less { packed_word (numbered false false false false how.Cold (negsuc 0) (pos 0)) ≡ 0 }
    ensures total { packed_word (numbered false false false false how.Cold (pos 0) (pos 37)) ≡ 256 + 37 * 65536 }
    ensures total_less { packed_word (numbered false false false false how.Cold (pos 0) (negsuc 0)) ≡ 256 + 65535 * 65536 }
{}
