// Windups step by step and reads beside them, and every call that takes memory with ample memory.
ghost use Rattle.std.specs.Prelude.{◌≡◌, ◌+◌, ◌/◌, ◌%◌, ◌<◌, ◌^◌, ◌∷◌, [], length, true, false, IfOk};
ghost use Rattle.clock_lines.specs.Readings.{newest};
ghost use Rattle.clock_lines.specs.declared.readings.Entry.TheVariants.{Again};
ghost use Rattle.clock_lines.specs.declared.readings.Kind.TheVariants.{Abs};
ghost use Rattle.ff_hands.specs.Journals.{IsSound};
ghost use Rattle.tick_views.specs.Views.{noted, scan_of};

use crate::pen::FIRST;
use crate::{FIELDS, PassSeat, PenSeat, Words, pack, unpack};
use clock_lines::Kind;
use ff_grain::Bintime;
use ff_hands::{
    Estimate, Hands, Marks, Order, cold, fits, reset_estimate, wind, windups_are_told,
    windups_follow,
};
use hand_words::sound_hands_pack;
use std::test::Fail;
use tick_reads::Ask;

fn store_fields(pen: &mut PenSeat, tick: u64, words: &[u64; 15])
    requires winding { pen.old.view.winding ≡ true }
    requires marked { pen.old.view.marked ≡ true }
    requires unset { pen.old.view.set ≡ false }
    requires none { pen.old.view.stored ≡ [] }
    requires tick { tick ≡ length pen.old.view.journal }
    ensures table { pen.new.table ≡ pen.old.table }
    ensures view { pen.new.view ≡ record pen.old.view { stored = words.now } }
{
    for f in 0..FIELDS {
        pen.store_field(tick, f as u32, words[f]);
    }
}

// A whole windup to tick `tick`, the next one, by an order that has to fit at the counter.
fn wind_up(pen: &mut PenSeat, tick: u64, last: &Hands, order: &Order) -> Result<Hands, Fail>
    requires closed { pen.old.view.winding ≡ false }
    requires tick { tick ≡ length pen.old.view.journal }
    requires room { tick < 2 ^ 62 }
    requires last { newest pen.old.view.journal ≡ last.now }
    requires sound { IsSound last.now }
    ensures table { pen.new.table ≡ pen.old.table }
    ensures closed { IfOk result (λ h. pen.new.view.winding ≡ false) }
    ensures tick { IfOk result (λ h. length pen.new.view.journal ≡ tick + 1) }
    ensures last { IfOk result (λ h. newest pen.new.view.journal ≡ h) }
    ensures sound { IfOk result IsSound }
{
    pen.start_turn();
    let count = pen.load_counter();
    if !fits(last, count, order) {
        return Err(Fail::new("the order does not fit"));
    }
    let hands = wind(last, count, order);
    sound_hands_pack();
    let words = pack(&hands);
    pen.start_mark(tick);
    store_fields(pen, tick, &words);
    pen.set_mark(tick);
    windups_follow();
    windups_are_told();
    pen.close_turn(&hands);
    Ok(hands)
}

fn load_fields(words: &Words, pass: &mut PassSeat, tick: u64) -> [u64; 15]
    requires words { words.now.shared.table_id ≡ pass.old.table }
    requires calling { pass.old.view.calling ≡ true }
    requires tick { tick ≡ (scan_of pass.old.view).tick }
    ensures calling { pass.new.view.calling ≡ true }
    ensures tick { tick ≡ (scan_of pass.new.view).tick }
    ensures table { pass.new.table ≡ pass.old.table }
{
    let mut fields = [0; FIELDS];
    for f in 0..FIELDS {
        fields[f] = pass.load_field(words, tick, tick % 10, f as u32);
    }
    fields
}

fn open_fast(words: &Words, pass: &mut PassSeat) -> u64
    requires { words.now.shared.table_id ≡ pass.old.table }
    ensures table { pass.new.table ≡ pass.old.table }
    ensures calling { pass.new.view.calling ≡ true }
    ensures tick { (scan_of pass.new.view).tick ≡ result / 2 }
{
    pass.open_call(
        words,
        Ask {
            kind: Kind::Fast,
            given: 0,
        },
    )
}

// A full read that meets an odd turn word is over at once, and shows that word twice.
fn open_full(words: &Words, pass: &mut PassSeat) -> u64
    requires words { words.now.shared.table_id ≡ pass.old.table }
    requires first { pass.old.view.entries ≡ [] }
    ensures table { pass.new.table ≡ pass.old.table }
    ensures over { result % 2 ≡ 1 → pass.new.view.entries ≡ noted (Again Abs result result) result ∷ [] }
{
    pass.open_call(
        words,
        Ask {
            kind: Kind::Abs,
            given: 0,
        },
    )
}

#[test]
fn a_new_table_has_the_cold_tick_alone(rt: HostRuntime) {
    for i in 0..FIRST.len() {
        let word = match i {
            2 => 2,
            17 => 261,
            _ => 0,
        };
        assert_eq!(rt; FIRST[i], word, "word {i}");
    }
}

#[test]
fn a_fast_read_needs_no_closed_turn(rt: HostRuntime) -> Result<(), Fail> {
    let mut pen = PenSeat::new(rt.alloc())?;
    let share = pen.share()?;
    let mut pass = pen.split_pass();
    let words = share.words();
    let mut crank = pen.split_crank();
    assert_eq!(rt; crank.raise_counter(7), 7);
    assert_eq!(rt; crank.raise_counter(5), 7);
    assert_eq!(rt; pen.raise_counter(6), 7);
    pen.start_turn();
    assert_eq!(rt; pen.load_counter(), 7);
    let turn = open_fast(words, &mut pass);
    assert_eq!(rt; turn, 1);
    let fields = load_fields(words, &mut pass, turn / 2);
    assert_eq!(rt; unpack(&fields), cold());
    assert_eq!(rt; pass.load_mark(words, turn / 2, turn / 2 % 10), 2);
    let note = pen.split_note();
    pass.join_note(words, note);
    pen.join_crank(crank);
    pen.join_pass(pass);
    assert_eq!(rt; pen.load_turn(), 1);
    Ok(())
}

#[test]
fn reads_beside_the_windup_to_tick_4(rt: HostRuntime) -> Result<(), Fail> {
    let mut pen = PenSeat::new(rt.alloc())?;
    let share = pen.share()?;
    let mut pass = pen.split_pass();
    let words = share.words();
    let start = Bintime { sec: 0, frac: 0 };
    let none = Marks {
        unsync: false,
        warmup: false,
    };
    assert_eq!(rt; pen.raise_counter(5), 5);
    let reset = Order::Reset(reset_estimate(start, 0, 1_000_000_000));
    let first = wind_up(&mut pen, 1, &cold(), &reset)?;
    assert_eq!(rt; pen.raise_counter(9), 9);
    let take = Order::Take(Estimate {
        update_time: Bintime { sec: 100, frac: 0 },
        update_ffcount: 9,
        leapsec_next: 0,
        period: 18_446_744_073,
        errb_abs: 0,
        errb_rate: 0,
        status: none,
        leapsec_total: 0,
        leapsec: 0,
    });
    let second = wind_up(&mut pen, 2, &first, &take)?;
    assert_eq!(rt; pen.raise_counter(20), 20);
    assert_eq!(rt; pen.raise_counter(7), 20);
    let third = wind_up(&mut pen, 3, &second, &Order::Plain)?;
    pen.start_turn();
    assert_eq!(rt; pen.load_turn(), 7);
    assert_eq!(rt; open_full(words, &mut pass), 7);
    let turn = open_fast(words, &mut pass);
    assert_eq!(rt; turn, 7);
    let fields = load_fields(words, &mut pass, turn / 2);
    let wanted = [
        20,
        100,
        202_914_184_803,
        0,
        368_934_881_451,
        18_446_744_073,
        0,
        0,
        100,
        0,
        9,
        0,
        18_446_744_073,
        0,
        272,
    ];
    assert_eq!(rt; fields, wanted);
    assert_eq!(rt; unpack(&fields), third);
    assert_eq!(rt; pass.load_mark(words, turn / 2, turn / 2 % 10), 8);
    Ok(())
}
