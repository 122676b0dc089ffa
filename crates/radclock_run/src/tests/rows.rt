// The rows of the tests of whole runs.

pub const START: &str = "radclock-stamps 1\n";

pub const HEAD: &str = "radclock-stamps 1\nfreq 1000000000\n";

pub const INPUT: &str = "radclock-stamps 1
freq 1000000000
1000000000 1700000000 1700000000 1000100000
17000000000 1700000016 1700000016 17000100000
";

const REPORT: &str = "report stamps freq 1000000000
stamp 0 1000000000 1700000000+0 1700000000+0 1000100000 100000
stamp 1 17000000000 1700000016+0 1700000016+0 17000100000 100000
end accepted 2 refused 0
";

const BASES: &str = "report rtt freq 1000000000
base 0 100000 100000 0 0
base 1 100000 100000 0 0
end accepted 2 refused 0
";

const ESTIMATES: &str = "report estimate freq 1000000000
estimate 0 1000100000 1700000000+922337203600000 18446744072 50050 499999999 W 923259540800001 18437520700 18455967444 ---
estimate 1 17000100000 1700000016+922331527237072 18446744073 100002 6250101 W 1844700733050001 18446628782 18446859367 ---
end accepted 2 refused 0
";

// Each refusal, and the stamps that just pass the tests. The refused lines 4 and 8 have lesser round
// trips than the base, and do not count.
const REFUSALS: &str = "5 9 8 5
5 9 8 6
1 5 5 1000000002
1000000000 1700000000 1700000000.000100049 1000100000
1000100000 1700000001 1700000001 1000200000
1000100001 1700000000.000100048 1700000001 1000200000
1000100001 1700000000.000100049 1700000000.000100049 2000100001
# The server takes 100,050 ns, and the round trip less than that at the greatest period.
3000000000 1700000002 1700000002.000100050 3000100000
3000000000 1700000002 1700000002 4000000001
";

const NO_STAMPS: &str = "report ticks freq 1000000000 ticks 4
tick 0 cold 0 0+0 0+0 0 0+0 U 0+0 0 0 0 0 U 0 0 0
tick 1 reset 0 0+0 0+0 18446744072 0+0 U 0+0 0 18446744072 0 0 U 0 0 0
end accepted 0 refused 0 ticks 2
";

// The uninterrupted clock jumps at the first estimate, and makes up for the gap from the second on.
const JUMP_AND_SLOPE: &str = "report ticks freq 1000000000 ticks 1
tick 0 cold 0 0+0 0+0 0 0+0 U 0+0 0 0 0 0 U 0 0 0
tick 1 reset 0 0+0 0+0 18446744072 0+0 U 0+0 0 18446744072 0 0 U 0 0 0
tick 2 jump 1000100000 1700000000+922337203600000 1700000000+922337203600000 18446744072 1699999998+18445821738215503232 W 1700000000+922337203600000 1000100000 18446744072 50050 499999999 W 0 0 0
tick 3 plain 9000100000 1700000008+922323527187072 1700000008+922323527187072 18446744072 1699999998+18445821738215503232 W 1700000000+922337203600000 1000100000 18446744072 50050 499999999 W 0 0 0
tick 4 take 17000100000 1700000016+922331527237072 1700000016+922309850774144 18446744074 1699999998+18445821738215503232 W 1700000016+922331527237072 17000100000 18446744073 100002 6250101 W 0 0 0
end accepted 2 refused 0 ticks 5
";

const WITHOUT_READERS: &str = "report replay freq 1000000000 ticks 1 readers 0 reads 100
estimate 0 1000100000 1700000000+922337203600000 18446744072 50050 499999999 W 923259540800001 18437520700 18455967444 ---
estimate 1 17000100000 1700000016+922331527237072 18446744073 100002 6250101 W 1844700733050001 18446628782 18446859367 ---
tick 0 cold 0 0+0 0+0 0 0+0 U 0+0 0 0 0 0 U 0 0 0
tick 1 reset 0 0+0 0+0 18446744072 0+0 U 0+0 0 18446744072 0 0 U 0 0 0
tick 2 jump 1000100000 1700000000+922337203600000 1700000000+922337203600000 18446744072 1699999998+18445821738215503232 W 1700000000+922337203600000 1000100000 18446744072 50050 499999999 W 0 0 0
tick 3 plain 9000100000 1700000008+922323527187072 1700000008+922323527187072 18446744072 1699999998+18445821738215503232 W 1700000000+922337203600000 1000100000 18446744072 50050 499999999 W 0 0 0
tick 4 take 17000100000 1700000016+922331527237072 1700000016+922309850774144 18446744074 1699999998+18445821738215503232 W 1700000016+922331527237072 17000100000 18446744073 100002 6250101 W 0 0 0
end accepted 2 refused 0 ticks 5 entries 0
";

const THREE_RUN: &str = "report run number 7 count 3
summary accepted 3 refused 0 shifts 0 predicted 0 local 0
estimate 2 115202720165 1700000048+46793171941917195 7686392465 604113 21611960 W 11143907882323186 7686226356 7686558583 ---
tick 12 take 115202720165 1700000048+46793171941917195 1700000048+44274156073703347 7686458063 1700000000+8834850771912910 W 1700000048+46793171941917195 115202720165 7686392465 604113 21611960 W 0 0 0
end accepted 3 refused 0 ticks 13 entries 4000
";

const THREE_MADE: &str = "radclock-stamps 1
freq 2400000000
38400891338 1700000016.001110262 1700000016.001120808 38402164327
76800894613 1700000032.001459061 1700000032.001474296 76801955950
115200673647 1700000048.002216836 1700000048.002229323 115202720165
";

/// The commands that read a file. What is wrong with it is told alike by each.
pub static READING: [&str; 5] = ["stamps", "rtt", "estimate", "ticks", "replay"];

/// A pull or a push of this number never comes.
pub const NEVER: u64 = u64::MAX;

/// More than any of these runs writes.
pub const ROOM: usize = 40_000_000;

/// The words, two parts of an input, the exit status and what is written.
pub static RUNS: [(&str, &str, &str, u8, &str); 62] = [
    ("stamps", INPUT, "", 0, REPORT),
    (
        "stamps",
        HEAD,
        "1000000000 1700000000 1700000000 1000100000\n17000000000 1700000016 1700000016 17000100000",
        0,
        REPORT,
    ),
    (
        "stamps",
        "",
        "radclock-stamps 1\r\nfreq 1000000000\r\n1000000000 1700000000 1700000000 1000100000\r\n17000000000 1700000016 1700000016 17000100000\r\n",
        0,
        REPORT,
    ),
    ("rtt", INPUT, "", 0, BASES),
    (
        "rtt",
        HEAD,
        "1000000000 1700000000 1700000000 1000100000\n17000000000 1700000016 1700000016 17000100000",
        0,
        BASES,
    ),
    (
        "rtt",
        "",
        "radclock-stamps 1\r\nfreq 1000000000\r\n1000000000 1700000000 1700000000 1000100000\r\n17000000000 1700000016 1700000016 17000100000\r\n",
        0,
        BASES,
    ),
    ("estimate", INPUT, "", 0, ESTIMATES),
    (
        "estimate",
        HEAD,
        "1000000000 1700000000 1700000000 1000100000\n17000000000 1700000016 1700000016 17000100000",
        0,
        ESTIMATES,
    ),
    (
        "estimate",
        "",
        "radclock-stamps 1\r\nfreq 1000000000\r\n1000000000 1700000000 1700000000 1000100000\r\n17000000000 1700000016 1700000016 17000100000\r\n",
        0,
        ESTIMATES,
    ),
    ("stamps", "", "", 1, "fault input 1 head\n"),
    ("stamps", "", "\n", 1, "fault input 1 head\n"),
    (
        "stamps",
        "",
        "radclock-stamps 3\n",
        1,
        "fault input 1 head\n",
    ),
    (
        "stamps",
        "",
        "radclock-stamps 1 \n",
        1,
        "fault input 1 head\n",
    ),
    (
        "stamps",
        "",
        "radclock-stamps 1\r\r\n",
        1,
        "fault input 1 head\n",
    ),
    ("stamps", "", "radclock-stamps 1", 1, "fault input 2 freq\n"),
    ("stamps", START, "", 1, "fault input 2 freq\n"),
    (
        "stamps",
        START,
        "\nfreq 1000000\n",
        1,
        "fault input 2 freq\n",
    ),
    ("stamps", START, "freq 999999\n", 1, "fault input 2 freq\n"),
    (
        "stamps",
        START,
        "freq 16000000001\n",
        1,
        "fault input 2 freq\n",
    ),
    (
        "stamps",
        START,
        "freq 01000000\n",
        1,
        "fault input 2 freq\n",
    ),
    (
        "stamps",
        START,
        "freq 1000000 \n",
        1,
        "fault input 2 freq\n",
    ),
    ("stamps", START, "freq \n", 1, "fault input 2 freq\n"),
    ("stamps", START, "freq", 1, "fault input 2 freq\n"),
    ("stamps", HEAD, "1 5 5\n", 1, "fault input 3 columns\n"),
    ("stamps", HEAD, "1 5 5 9 9\n", 1, "fault input 3 columns\n"),
    ("stamps", HEAD, "1  5 5 9\n", 1, "fault input 3 columns\n"),
    ("stamps", HEAD, " 1 5 5 9\n", 1, "fault input 3 columns\n"),
    ("stamps", HEAD, "1 5 5 9 \n", 1, "fault input 3 columns\n"),
    ("stamps", HEAD, "1\t5\t5\t9\n", 1, "fault input 3 columns\n"),
    ("stamps", HEAD, "\r\r\n", 1, "fault input 3 columns\n"),
    (
        "stamps",
        HEAD,
        "# a note\n\n\r\n#\n1 5 5\n",
        1,
        "fault input 7 columns\n",
    ),
    (
        "stamps",
        START,
        "freq 1000000000\n1000000000 1700000000 1700000000 1000100000\n17000000000 1700000016 17000",
        1,
        "fault input 4 columns\n",
    ),
    ("stamps", HEAD, "01 5 5 9\n", 1, "fault input 3 digits\n"),
    ("stamps", HEAD, "-1 5 5 9\n", 1, "fault input 3 digits\n"),
    ("stamps", HEAD, "1.5 5 5 9\n", 1, "fault input 3 digits\n"),
    ("stamps", HEAD, "1 1. 5 9\n", 1, "fault input 3 digits\n"),
    ("stamps", HEAD, "1 .5 5 9\n", 1, "fault input 3 digits\n"),
    (
        "stamps",
        HEAD,
        "1 1.0000000000 5 9\n",
        1,
        "fault input 3 digits\n",
    ),
    ("stamps", HEAD, "1 5 5 9\r\r\n", 1, "fault input 3 digits\n"),
    (
        "stamps",
        HEAD,
        "\u{e9} 5 5 9\n",
        1,
        "fault input 3 digits\n",
    ),
    (
        "stamps",
        HEAD,
        "4611686018427387904 x 5 9\n",
        1,
        "fault input 3 digits\n",
    ),
    (
        "stamps",
        HEAD,
        "4611686018427387904 5 5 9\n",
        1,
        "fault input 3 range\n",
    ),
    (
        "stamps",
        HEAD,
        "1 5 5 4611686018427387904\n",
        1,
        "fault input 3 range\n",
    ),
    (
        "stamps",
        HEAD,
        "1 4294967296.0 5 9\n",
        1,
        "fault input 3 range\n",
    ),
    (
        "stamps",
        HEAD,
        "1 5 4294967296 9",
        1,
        "fault input 3 range\n",
    ),
    (
        "stamps",
        "",
        "radclock-stamps 1\nfreq 1000000",
        0,
        "report stamps freq 1000000
end accepted 0 refused 0
",
    ),
    (
        "stamps",
        "",
        "radclock-stamps 1\r\nfreq 16000000000\r\n\r",
        0,
        "report stamps freq 16000000000
end accepted 0 refused 0
",
    ),
    (
        "stamps",
        HEAD,
        "1 5.5 6 2\n",
        0,
        "report stamps freq 1000000000
refused 3 acausal
end accepted 0 refused 1
",
    ),
    (
        "stamps",
        HEAD,
        "# a note with \u{e9} and a return \r in it\n\n\r\n#\n1000 0.5 0.500000001 2000\n4611686018427387902 4294967295.999999999 4294967295.999999999 4611686018427387903\r",
        0,
        "report stamps freq 1000000000
stamp 0 1000 0+9223372036854775808 0+9223372055301519881 2000 1000
stamp 1 4611686018427387902 4294967295+18446744055262807542 4294967295+18446744055262807542 4611686018427387903 1
end accepted 2 refused 0
",
    ),
    (
        "stamps",
        HEAD,
        REFUSALS,
        0,
        "report stamps freq 1000000000
refused 3 backward
refused 4 server-backward
refused 5 long-trip
stamp 0 1000000000 1700000000+0 1700000000+1845578297830566 1000100000 100000
refused 7 overlap
refused 8 server-old
stamp 1 1000100001 1700000000+1845578297830566 1700000000+1845578297830566 2000100001 1000000000
refused 11 acausal
refused 12 long-trip
end accepted 2 refused 7
",
    ),
    (
        "rtt",
        HEAD,
        REFUSALS,
        0,
        "report rtt freq 1000000000
refused 3 backward
refused 4 server-backward
refused 5 long-trip
base 0 100000 100000 0 0
refused 7 overlap
refused 8 server-old
base 1 1000000000 100000 0 0
refused 11 acausal
refused 12 long-trip
end accepted 2 refused 7
",
    ),
    ("ticks", HEAD, "", 0, NO_STAMPS),
    ("ticks --ticks 4", HEAD, "", 0, NO_STAMPS),
    ("ticks --ticks 1", INPUT, "", 0, JUMP_AND_SLOPE),
    (
        "ticks --ticks 1",
        HEAD,
        "1000000000 1700000000 1700000000 1000100000\n17000000000 1700000016 1700000016 17000100000",
        0,
        JUMP_AND_SLOPE,
    ),
    (
        "ticks --ticks 1",
        "",
        "radclock-stamps 1\r\nfreq 1000000000\r\n1000000000 1700000000 1700000000 1000100000\r\n17000000000 1700000016 1700000016 17000100000\r\n",
        0,
        JUMP_AND_SLOPE,
    ),
    (
        "replay --ticks 1 --readers 0",
        HEAD,
        "1000000000 1700000000 1700000000 1000100000\n17000000000 1700000016 1700000016 17000100000",
        0,
        WITHOUT_READERS,
    ),
    (
        "replay --ticks 1 --readers 0",
        "",
        "radclock-stamps 1\r\nfreq 1000000000\r\n1000000000 1700000000 1700000000 1000100000\r\n17000000000 1700000016 1700000016 17000100000\r\n",
        0,
        WITHOUT_READERS,
    ),
    ("run 7 3", "", "", 0, THREE_RUN),
    ("ticks --ticks=1", INPUT, "", 0, JUMP_AND_SLOPE),
    (
        "replay --ticks 1 --readers 0",
        INPUT,
        "",
        0,
        WITHOUT_READERS,
    ),
    ("make 7 3", "", "", 0, THREE_MADE),
];

/// The words of a replay of two stamps, and the first and the last line that are written. What the readers
/// read hangs on the order in which the threads come.
pub static REPLAYS: [(&str, &str, &str); 13] = [
    (
        "replay --lane --ticks 4 --readers 2 --reads 400",
        "report replay freq 1000000000 ticks 4 readers 2 reads 400 lane\n",
        "\nend accepted 2 refused 0 ticks 8 entries 800\n",
    ),
    (
        "replay --utc --ticks 15 --lane --readers 16 --reads 350 --back",
        "report replay freq 1000000000 ticks 15 readers 16 reads 350 back utc lane\n",
        "\nend accepted 2 refused 0 ticks 19 entries 5600\n",
    ),
    (
        "replay --utc --readers 2 --reads 600",
        "report replay freq 1000000000 ticks 4 readers 2 reads 600 utc\n",
        "\nend accepted 2 refused 0 ticks 8 entries 1200\n",
    ),
    (
        "replay --utc --back --ticks 1 --reads 14",
        "report replay freq 1000000000 ticks 1 readers 2 reads 14 back utc\n",
        "\nend accepted 2 refused 0 ticks 5 entries 28\n",
    ),
    (
        "replay --ticks 15 --utc --crank --back --reads 350",
        "report replay freq 1000000000 ticks 15 readers 2 reads 350 back crank utc\n",
        "\nend accepted 2 refused 0 ticks 19 entries 700\n",
    ),
    (
        "replay --ticks 1 --readers 1 --reads 6 --back",
        "report replay freq 1000000000 ticks 1 readers 1 reads 6 back\n",
        "\nend accepted 2 refused 0 ticks 5 entries 6\n",
    ),
    (
        "replay --ticks 4 --readers 2 --reads 400 --crank",
        "report replay freq 1000000000 ticks 4 readers 2 reads 400 crank\n",
        "\nend accepted 2 refused 0 ticks 8 entries 800\n",
    ),
    (
        "replay --ticks 1 --reads 7",
        "report replay freq 1000000000 ticks 1 readers 2 reads 7\n",
        "\nend accepted 2 refused 0 ticks 5 entries 14\n",
    ),
    (
        "replay --back --readers=3 --reads 12",
        "report replay freq 1000000000 ticks 4 readers 3 reads 12 back\n",
        "\nend accepted 2 refused 0 ticks 8 entries 36\n",
    ),
    (
        "replay --crank --ticks 15",
        "report replay freq 1000000000 ticks 15 readers 2 reads 100 crank\n",
        "\nend accepted 2 refused 0 ticks 19 entries 200\n",
    ),
    (
        "replay --crank --reads=0 --back",
        "report replay freq 1000000000 ticks 4 readers 2 reads 0 back crank\n",
        "\nend accepted 2 refused 0 ticks 8 entries 0\n",
    ),
    (
        "replay --ticks 15 --readers 16 --reads 1000 --back",
        "report replay freq 1000000000 ticks 15 readers 16 reads 1000 back\n",
        "\nend accepted 2 refused 0 ticks 19 entries 16000\n",
    ),
    (
        "replay --ticks 15 --readers 16 --reads 1000 --back --crank",
        "report replay freq 1000000000 ticks 15 readers 16 reads 1000 back crank\n",
        "\nend accepted 2 refused 0 ticks 19 entries 16000\n",
    ),
];

/// A start, a letter so many times and a rest, and what is written of the fault.
pub static LONG_LINES: [(&str, &str, usize, &str, &str); 14] = [
    ("", "x", 256, "\n", "fault input 1 long-line\n"),
    ("", "x", 255, "", "fault input 1 head\n"),
    (START, "x", 256, "\n", "fault input 2 long-line\n"),
    (
        "radclock-stamps 1\nfreq ",
        "9",
        200,
        "\n",
        "fault input 2 freq\n",
    ),
    (HEAD, "x", 256, "\n", "fault input 3 long-line\n"),
    (HEAD, "x", 256, "", "fault input 3 long-line\n"),
    (HEAD, "x", 255, "\r\n", "fault input 3 long-line\n"),
    (HEAD, "x", 255, "\n", "fault input 3 columns\n"),
    (HEAD, "x", 254, "\r\n", "fault input 3 columns\n"),
    (HEAD, "1", 200, " 5 5 9\n", "fault input 3 range\n"),
    (HEAD, "#", 256, "\n", "fault input 3 long-line\n"),
    (HEAD, "#", 255, "\r\n", "fault input 3 long-line\n"),
    (HEAD, "#", 255, "\nx\n", "fault input 4 columns\n"),
    (HEAD, "#", 254, "\r\nx\n", "fault input 4 columns\n"),
];

/// Words that are no line of the command.
pub static OTHER_WORDS: [&str; 101] = [
    "",
    "-- stamps",
    "stamps extra",
    "make 7",
    "run 7",
    "replay --readers 17",
    "replay --reads 16385",
    "replay --back --back",
    "ticks 4",
    "ticks --ticks",
    "ticks --ticks=",
    "ticks --ticks ",
    "ticks --ticks 16",
    "ticks --ticks=16",
    "ticks --ticks 04",
    "ticks --ticks +4",
    "ticks --ticks -1",
    "ticks --ticks 18446744073709551616",
    "ticks --ticks --ticks",
    "ticks --ticks 4 --ticks 4",
    "ticks --ticks=4 4",
    "ticks --tick 4",
    "ticks -t 4",
    "--ticks 4 ticks",
    "run",
    "stamp",
    "--help",
    "--version",
    "help",
    "stamps --help",
    "stamps --ticks 4",
    "stamps --back",
    "stamps -- --back",
    "rtt rtt",
    "rtt --ticks=4",
    "rtt --readers 2",
    "rtt --crank",
    "estimate extra",
    "estimate --reads 100",
    "estimate --back",
    "ticks --readers 2",
    "ticks --reads=100",
    "ticks --back",
    "ticks --crank",
    "replay extra",
    "replay --",
    "replay --ticks",
    "replay --ticks=",
    "replay --ticks 16",
    "replay --ticks=16",
    "replay --ticks 01",
    "replay --ticks +1",
    "replay --ticks 1 --ticks=1",
    "replay --tick 1",
    "replay --readers",
    "replay --readers=",
    "replay --readers=17",
    "replay --readers 02",
    "replay --readers -1",
    "replay --readers 4294967296",
    "replay --readers 2 --readers 2",
    "replay --reader 2",
    "replay --reads",
    "replay --reads=",
    "replay --reads=16385",
    "replay --reads 0100",
    "replay --reads 18446744073709551616",
    "replay --reads=1 --reads=1",
    "replay --read 1",
    "replay --back=",
    "replay --back=1",
    "replay --back 1",
    "replay --Back",
    "replay -b",
    "replay --crank=",
    "replay --crank 1",
    "replay --crank --crank",
    "replay --back --crank --back",
    "replay --backcrank",
    "replay --utc=",
    "replay --utc 1",
    "replay --utc --utc",
    "replay --UTC",
    "ticks --utc",
    "replay --lane=",
    "replay --lane --crank",
    "ticks --lane",
    "replay --readers --back",
    "make",
    "make 7 0",
    "make 7 16385",
    "make 7 03",
    "make 07 3",
    "make +7 3",
    "make -7 3",
    "make 4294967296 3",
    "make 7 3 3",
    "make 7 3 --ticks 4",
    "make 7 3 --back",
    "make --number 7",
    "make 7  3",
];

/// The words, the input, the most bytes of a pull and the number of the pull that fails, the exit
/// status and what is written.
pub static PULLS: [(&str, &str, usize, u64, u8, &str); 14] = [
    ("stamps", INPUT, 32, 0, 3, "fault read 0\n"),
    ("stamps", INPUT, 32, 1, 3, "fault read 32\n"),
    ("stamps", INPUT, 32, 2, 3, "fault read 64\n"),
    ("stamps", INPUT, 32, 3, 3, "fault read 96\n"),
    ("stamps", INPUT, 32, 4, 3, "fault read 124\n"),
    ("stamps", INPUT, 32, 5, 0, REPORT),
    ("stamps", "", 32, 0, 3, "fault read 0\n"),
    // The bytes that were taken stand before the pull that fails.
    ("stamps", "\n", 32, 1, 1, "fault input 1 head\n"),
    ("stamps", "x", 32, 1, 3, "fault read 1\n"),
    ("rtt", INPUT, 32, 2, 3, "fault read 64\n"),
    ("ticks", HEAD, 4096, 0, 3, "fault read 0\n"),
    ("ticks", HEAD, 4096, 1, 3, "fault read 34\n"),
    ("replay", HEAD, 4096, 1, 3, "fault read 34\n"),
    // A made file reads nothing.
    ("make 7 3", "", 1, 0, 0, THREE_MADE),
];

/// The words, the input, the room for the output and the number of the push that fails, the exit
/// status and what is written.
pub static PUSHES: [(&str, &str, usize, u64, u8, &str); 14] = [
    // The report has four lines, of 30, 63, 65 and 25 bytes.
    ("stamps", INPUT, ROOM, 0, 4, "report stamps f"),
    ("replay", INPUT, ROOM, 0, 4, "report replay freq 1000000000"),
    (
        "stamps",
        INPUT,
        ROOM,
        1,
        4,
        "report stamps freq 1000000000
stamp 0 1000000000 1700000000+0",
    ),
    (
        "stamps",
        INPUT,
        ROOM,
        2,
        4,
        "report stamps freq 1000000000
stamp 0 1000000000 1700000000+0 1700000000+0 1000100000 100000
stamp 1 17000000000 1700000016+0",
    ),
    (
        "stamps",
        INPUT,
        ROOM,
        3,
        4,
        "report stamps freq 1000000000
stamp 0 1000000000 1700000000+0 1700000000+0 1000100000 100000
stamp 1 17000000000 1700000016+0 1700000016+0 17000100000 100000
end accepted",
    ),
    ("stamps", INPUT, 0, NEVER, 4, ""),
    (
        "stamps",
        INPUT,
        157,
        NEVER,
        4,
        "report stamps freq 1000000000
stamp 0 1000000000 1700000000+0 1700000000+0 1000100000 100000
",
    ),
    (
        "stamps",
        INPUT,
        182,
        NEVER,
        4,
        "report stamps freq 1000000000
stamp 0 1000000000 1700000000+0 1700000000+0 1000100000 100000
stamp 1 17000000000 1700000016+0 1700000016+0 17000100000 100000
",
    ),
    ("stamps", INPUT, 183, NEVER, 0, REPORT),
    // The second line has 25 bytes, and the first half of it 12.
    (
        "rtt",
        INPUT,
        ROOM,
        1,
        4,
        "report rtt freq 1000000000
base 0 10000",
    ),
    // The second line has 50 bytes, and the first half of it 25.
    (
        "ticks",
        HEAD,
        ROOM,
        1,
        4,
        "report ticks freq 1000000000 ticks 4
tick 0 cold 0 0+0 0+0 0 0",
    ),
    ("make 7 3", "", ROOM, 0, 4, "radclock-"),
    (
        "make 7 3",
        "",
        ROOM,
        1,
        4,
        "radclock-stamps 1
freq 240",
    ),
    (
        "make 7 3",
        "",
        ROOM,
        2,
        4,
        "radclock-stamps 1
freq 2400000000
38400891338 1700000016.001110262 ",
    ),
];
