// A look at a tick: its fields, and then its mark.
ghost use Rattle.std.specs.Prelude.{◌≡◌, ◌≢◌, ◌+◌, ◌*◌, ◌%◌, ◌≤◌, ◌<◌, length, true, false, []};
ghost use Rattle.tick_reads.specs.Looks.{fields_from, full_mark, look};
ghost use Rattle.tick_reads.specs.Scans.{scan_at};
ghost use Rattle.tick_views.specs.Views.{scan_of};
ghost use Rattle.tick_laws.specs.Goes.{GoesOn, LearnsLook};

use tick_table::{FIELDS, PassSeat, Words};

#[derive(Clone, Copy)]
pub(crate) struct Seen {
    pub(crate) fields: [u64; FIELDS],
    pub(crate) mark: u64,
}

// The call that stands open is at this tick, and has loaded nothing of it.
#[inline(always)]
pub(crate) fn load_fields(words: &Words, seat: &mut PassSeat, tick: u64, slot: u64) -> [u64; FIELDS]
    requires words { words.now.shared.table_id ≡ seat.old.table }
    requires slot { slot ≡ tick % 10 }
    requires calling { seat.old.view.calling ≡ true }
    requires at { scan_of seat.old.view ≡ scan_at (scan_of seat.old.view).first tick false [] [] }
    ensures table { seat.new.table ≡ seat.old.table }
    ensures long { length result ≡ 15 }
    ensures loads { GoesOn seat.old.view seat.new.view (fields_from tick 0 result) }
{
    let mut fields = [0; FIELDS];
    for f in 0..FIELDS {
        fields[f] = seat.load_field(words, tick, slot, f as u32);
    }
    fields
}

#[inline(always)]
pub(crate) fn look_at(words: &Words, seat: &mut PassSeat, tick: u64, slot: u64) -> Seen
    requires words { words.now.shared.table_id ≡ seat.old.table }
    requires slot { slot ≡ tick % 10 }
    requires calling { seat.old.view.calling ≡ true }
    requires at { scan_of seat.old.view ≡ scan_at (scan_of seat.old.view).first tick false [] [] }
    ensures table { seat.new.table ≡ seat.old.table }
    ensures long { length result.fields ≡ 15 }
    ensures loads { GoesOn seat.old.view seat.new.view (look tick result.fields result.mark) }
    ensures hands { result.mark ≡ full_mark tick → LearnsLook tick result.fields }
    ensures later { result.mark ≢ full_mark tick → 2 * tick + 21 ≤ result.mark }
{
    let fields = load_fields(words, seat, tick, slot);
    let mark = seat.load_mark(words, tick, slot);
    Seen { fields, mark }
}
