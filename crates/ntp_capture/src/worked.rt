// Worked captures, packets and replies, each of which changes by one byte or one record.
ghost use Rattle.std.specs.Prelude.{◌≡◌, [], ◌∷◌, ◌++◌, replicate, take, true, false, None, Some, codes};
ghost use Rattle.ntp_capture.specs.Grammar.{fault_of_capture, fault_so_far, given};
ghost use Rattle.ntp_capture.specs.Packets.{leap_of, mode_of, stratum_of, origin_of, receive_of, transmit_of, unix_time, is_request, is_reply, is_usable};
ghost use Rattle.ntp_capture.specs.Matches.{gots};
ghost use Rattle.ntp_capture.specs.Samples.{mark, half, behind_half, early, packet, asked, answered, exchange, head, with_packet, first_packet, second_packet, capture};
ghost use Rattle.ntp_capture.specs.declared.exchanges.Got.TheVariants as got;
ghost use Rattle.ntp_capture.specs.declared.pieces.CapWhy.TheVariants as why;
ghost use Rattle.ntp_capture.specs.declared.pieces.Piece.TheVariants as piece;

/// The law of a worked capture: what it gives, and where it is cut off. What stands behind the 48th byte of a
/// packet is passed over.
pub fn captures_are_worked()
    ensures sound { fault_of_capture capture ≡ None }
    ensures gives { given capture ≡ piece.Freq 1000000000
        ∷ piece.Record (record { count = 5; sent = true; packet = first_packet })
        ∷ piece.Record (record { count = 5; sent = false; packet = second_packet }) ∷ [] }
    ensures whole { fault_of_capture (take 76 capture) ≡ None }
    ensures cut { fault_of_capture (take 134 capture) ≡ Some (record { at = 76; why = why.Cut }) }
    ensures open { fault_so_far (take 134 capture) ≡ None }
    ensures nothing { fault_of_capture [] ≡ Some (record { at = 0; why = why.Cut }) }
    ensures alone { fault_of_capture head ≡ None }
    ensures half_head { fault_of_capture (take 15 head) ≡ Some (record { at = 0; why = why.Cut }) }
{}

/// The law of the places of faults: each at the first byte of its field, and not before the field's last byte
/// is there.
pub fn faults_are_worked()
    ensures mark { fault_so_far (codes "RADCAP02") ≡ Some (record { at = 0; why = why.Head }) }
    ensures slow { fault_so_far (codes "RADCAP01" ++ 0 ∷ 0 ∷ 0 ∷ 0 ∷ 0 ∷ 15 ∷ 66 ∷ 63 ∷ []) ≡ Some (record { at = 8; why = why.Freq }) }
    ensures slowest { fault_so_far (codes "RADCAP01" ++ 0 ∷ 0 ∷ 0 ∷ 0 ∷ 0 ∷ 15 ∷ 66 ∷ 64 ∷ []) ≡ None }
    ensures fast { fault_so_far (codes "RADCAP01" ++ 0 ∷ 0 ∷ 0 ∷ 3 ∷ 185 ∷ 172 ∷ 160 ∷ 1 ∷ []) ≡ Some (record { at = 8; why = why.Freq }) }
    ensures fastest { fault_so_far (codes "RADCAP01" ++ 0 ∷ 0 ∷ 0 ∷ 3 ∷ 185 ∷ 172 ∷ 160 ∷ 0 ∷ []) ≡ None }
    ensures counter { fault_so_far (head ++ 64 ∷ replicate 7 0) ≡ Some (record { at = 16; why = why.Counter }) }
    ensures counter_early { fault_so_far (head ++ 64 ∷ replicate 6 0) ≡ None }
    ensures greatest { fault_so_far (head ++ 63 ∷ replicate 7 255) ≡ None }
    ensures direction { fault_so_far (head ++ mark 5 ++ 2 ∷ []) ≡ Some (record { at = 24; why = why.Direction }) }
    ensures received { fault_so_far (head ++ mark 5 ++ 1 ∷ []) ≡ None }
    ensures short { fault_so_far (head ++ mark 5 ++ 0 ∷ 0 ∷ 47 ∷ []) ≡ Some (record { at = 25; why = why.Short }) }
    ensures short_early { fault_so_far (head ++ mark 5 ++ 0 ∷ 0 ∷ []) ≡ None }
    ensures second { fault_so_far (take 84 capture ++ 2 ∷ []) ≡ Some (record { at = 84; why = why.Direction }) }
{}

/// The law of the fields of a packet, of the times that it tells, and of what is a request, a reply, and a reply
/// that can be used.
pub fn packets_are_worked()
    ensures leap { leap_of (packet 228 7 (mark 1) (mark 2) (mark 3)) ≡ 3 }
    ensures mode { mode_of (packet 228 7 (mark 1) (mark 2) (mark 3)) ≡ 4 }
    ensures stratum { stratum_of (packet 228 7 (mark 1) (mark 2) (mark 3)) ≡ 7 }
    ensures origin { origin_of (packet 228 7 (mark 1) (mark 2) (mark 3)) ≡ mark 1 }
    ensures receive { receive_of (packet 228 7 (mark 1) (mark 2) (mark 3)) ≡ mark 2 }
    ensures transmit { transmit_of (packet 228 7 (mark 1) (mark 2) (mark 3)) ≡ mark 3 }
    ensures time { unix_time half ≡ (1700000000, 500000000) }
    ensures down { unix_time behind_half ≡ (1700000000, 500000001) }
    ensures request { is_request (asked 5 1) ≡ true }
    ensures of_client { is_request (record { count = 5; sent = true; packet = packet 36 0 (mark 0) (mark 0) (mark 1) }) ≡ false }
    ensures received { is_request (record { count = 5; sent = false; packet = packet 35 0 (mark 0) (mark 0) (mark 1) }) ≡ false }
    ensures reply { is_reply (answered 5 1) ≡ true }
    ensures of_server { is_reply (record { count = 5; sent = false; packet = packet 37 1 (mark 1) half half }) ≡ false }
    ensures sent { is_reply (record { count = 5; sent = true; packet = packet 36 1 (mark 1) half half }) ≡ false }
    ensures usable { is_usable (packet 36 1 (mark 1) half half) ≡ true }
    ensures no_origin { is_usable (packet 36 1 (mark 0) half half) ≡ false }
    ensures early_receive { is_usable (packet 36 1 (mark 1) early half) ≡ false }
    ensures early_transmit { is_usable (packet 36 1 (mark 1) half early) ≡ false }
{}

/// The law of worked replies: each takes the latest of the last sixteen requests that has its mark and that no
/// reply took.
pub fn replies_are_worked()
    ensures latest { gots (asked 1 7 ∷ asked 2 7 ∷ answered 3 7 ∷ answered 4 7 ∷ answered 5 7 ∷ [])
        ≡ got.Nothing ∷ got.Nothing ∷ got.Exchange (exchange 2 3) ∷ got.Exchange (exchange 1 4) ∷ got.Unused ∷ [] }
    ensures by_mark { gots (asked 1 7 ∷ asked 2 8 ∷ answered 3 7 ∷ [])
        ≡ got.Nothing ∷ got.Nothing ∷ got.Exchange (exchange 1 3) ∷ [] }
    ensures sixteenth { gots (asked 1 7 ∷ replicate 15 (asked 2 8) ++ answered 3 7 ∷ [])
        ≡ replicate 16 got.Nothing ++ got.Exchange (exchange 1 3) ∷ [] }
    ensures seventeenth { gots (asked 1 7 ∷ replicate 16 (asked 2 8) ++ answered 3 7 ∷ [])
        ≡ replicate 17 got.Nothing ++ got.Unused ∷ [] }
    ensures taken_counts { gots (asked 1 7 ∷ asked 2 8 ∷ answered 3 8 ∷ replicate 15 (asked 4 9) ++ answered 5 7 ∷ [])
        ≡ got.Nothing ∷ got.Nothing ∷ got.Exchange (exchange 2 3) ∷ replicate 15 got.Nothing ++ got.Unused ∷ [] }
    ensures free { gots (asked 1 7 ∷ record { count = 2; sent = false; packet = packet 36 1 (mark 7) early half } ∷ answered 3 7 ∷ [])
        ≡ got.Nothing ∷ got.Unused ∷ got.Exchange (exchange 1 3) ∷ [] }
    ensures before { gots (answered 3 7 ∷ asked 1 7 ∷ []) ≡ got.Unused ∷ got.Nothing ∷ [] }
{}
