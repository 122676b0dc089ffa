// Timers in the report on ticks.
use crate::tests::rows::{HEAD, INPUT};
use crate::tests::{OUTSIDE, ends, played};
use std::test::Fail;

const THREE_TIMERS: &str = "report ticks freq 1000000000 ticks 1 timers 3
tick 0 cold 0 0+0 0+0 0 0+0 U 0+0 0 0 0 0 U 0 0 0
tick 1 reset 0 0+0 0+0 18446744072 0+0 U 0+0 0 18446744072 0 0 U 0 0 0
tick 2 jump 1000100000 1700000000+922337203600000 1700000000+922337203600000 18446744072 1699999998+18445821738215503232 W 1700000000+922337203600000 1000100000 18446744072 50050 499999999 W 0 0 0
fire 2 2 1+0
tick 3 plain 9000100000 1700000008+922323527187072 1700000008+922323527187072 18446744072 1699999998+18445821738215503232 W 1700000000+922337203600000 1000100000 18446744072 50050 499999999 W 0 0 0
fire 3 1 2+0
fire 3 0 3+0
tick 4 take 17000100000 1700000016+922331527237072 1700000016+922309850774144 18446744074 1699999998+18445821738215503232 W 1700000016+922331527237072 17000100000 18446744073 100002 6250101 W 0 0 0
end accepted 2 refused 0 ticks 5 fired 3
";

const NO_TIMERS: &str = "report ticks freq 1000000000 ticks 4 timers 0
tick 0 cold 0 0+0 0+0 0 0+0 U 0+0 0 0 0 0 U 0 0 0
tick 1 reset 0 0+0 0+0 18446744072 0+0 U 0+0 0 18446744072 0 0 U 0 0 0
end accepted 0 refused 0 ticks 2 fired 0
";

const NONE_DUE: &str = "report ticks freq 1000000000 ticks 4 timers 1
tick 0 cold 0 0+0 0+0 0 0+0 U 0+0 0 0 0 0 U 0 0 0
tick 1 reset 0 0+0 0+0 18446744072 0+0 U 0+0 0 18446744072 0 0 U 0 0 0
end accepted 0 refused 0 ticks 2 fired 0
";

// A set resets the clock, and its uptime begins anew: that of the ticks is 0, 0, 1.0, 0, 2.5 and 5.5 s.
const RESET: &str = "radclock-stamps 2
freq 1000000000
1000000000 1700000000 1700000000 1000100000 1 0
set 3000000000 1800000000
5500000000 1800000003 1800000003 5500100000 1 0
8500000000 1800000006 1800000006 8500100000 1 0
";

// The timer of 1 s has fired before the reset, and does not fire again; that of 6 s never fires.
const RESET_TIMERS: &str = "report ticks freq 1000000000 ticks 0 timers 6 version 2
tick 0 cold 0 0+0 0+0 0 0+0 U 0+0 0 0 0 0 U 0 0 0
tick 1 reset 0 0+0 0+0 18446744072 0+0 U 0+0 0 18446744072 0 0 U 0 0 0
tick 2 jump 1000100000 1700000000+922337203600000 1700000000+922337203600000 18446744072 1699999998+18445821738215503232 W 1700000000+922337203600000 1000100000 18446744072 50050 499999999 W 0 0 0
fire 2 5 1+0
tick 3 reset 3000000000 1800000000+0 1800000000+0 18446744072 1800000000+0 U 1800000000+0 3000000000 18446744072 0 0 U 0 0 0
tick 4 jump 5500100000 1750000003+13856733436807872576 1750000003+13856733436807872576 18455967444 1750000001+4631516729819775808 W 1750000003+13856733436807872576 5500100000 18455967444 50025 0 W 0 0 0
fire 4 4 2+0
tick 5 take 8500100000 1766666673+3107661940007027946 1750000006+13884403547679217728 18548201164 1750000001+4631516729819775808 W 1766666673+3107661940007027946 8500100000 18455967444 50025 0 W 0 0 0
fire 5 3 3+0
fire 5 2 4+0
fire 5 1 5+0
end accepted 3 refused 0 ticks 6 fired 5
";

/// The words, the input and what is written.
static ROWS: [(&str, &str, &str); 10] = [
    ("ticks --ticks 1 --timers 3", INPUT, THREE_TIMERS),
    ("ticks --timers 3 --ticks 1", INPUT, THREE_TIMERS),
    ("ticks --timers=3 --ticks=1", INPUT, THREE_TIMERS),
    ("ticks --timers 0", HEAD, NO_TIMERS),
    ("ticks --timers=0 --ticks 4", HEAD, NO_TIMERS),
    ("ticks --ticks=4 --timers 0", HEAD, NO_TIMERS),
    ("ticks --timers 1", HEAD, NONE_DUE),
    ("ticks --ticks 4 --timers=1", HEAD, NONE_DUE),
    ("ticks --ticks 0 --timers 6", RESET, RESET_TIMERS),
    ("ticks --timers=6 --ticks=0", RESET, RESET_TIMERS),
];

#[test]
fn timers_fire_at_their_ticks(rt: HostRuntime) -> Result<(), Fail> {
    for (words, input, text) in &ROWS {
        ends(&rt, rt.alloc(), words, input, OUTSIDE, 0, text)?;
    }
    Ok(())
}

#[test]
fn most_timers_fire_in_turn(rt: HostRuntime) -> Result<(), Fail> {
    for words in ["ticks --timers=1000", "ticks --timers 1000"] {
        let (status, told) = played(&rt, rt.alloc(), words, INPUT, OUTSIDE)?;
        assert_eq!(rt; status.code(), 0, "at {words}");
        assert!(rt;
            told.starts_with("report ticks freq 1000000000 ticks 4 timers 1000\n"),
            "at {words}"
        );
        // The last uptime is 17.0 s.
        assert!(rt;
            told.ends_with("fire 7 983 17+0\nend accepted 2 refused 0 ticks 8 fired 17\n"),
            "at {words}: {told}"
        );
    }
    Ok(())
}
