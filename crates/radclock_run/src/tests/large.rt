// The rows of the tests with large inputs, each with the exit status and how what is written ends. Of
// a fault that is all that is written.

const REFUSED: &str = "1 5 5 9\n";

const COMMENT: &str = "# nineteen letters.\n";

/// A line so many times, and a rest; then the exit status, the end, and how many of the commands that read a
/// file are run on it.
pub static REPEATED: [(&str, usize, &str, u8, &str, usize); 9] = [
    // The most well-formed stamp lines, of which the first is accepted.
    (
        REFUSED,
        65536,
        "# a note\n",
        0,
        "end accepted 1 refused 65535\n",
        3,
    ),
    (REFUSED, 65536, "1 5 5 9\n", 6, "fault large stamps\n", 5),
    (REFUSED, 65536, "1 5 5 9", 6, "fault large stamps\n", 1),
    (REFUSED, 65536, "1 5 5 9\nx\n", 6, "fault large stamps\n", 1),
    (
        REFUSED,
        65536,
        "x\n1 5 5 9\n",
        1,
        "fault input 65539 columns\n",
        1,
    ),
    // The head has 34 bytes, and the comments leave 2 bytes up to the limit.
    (COMMENT, 838859, "#\n", 0, "\nend accepted 0 refused 0\n", 1),
    (COMMENT, 838859, "#\n#", 6, "fault large bytes\n", 2),
    // A bad line that ends at the limit, and one whose line feed is past it.
    (
        COMMENT,
        838859,
        "x\n#",
        1,
        "fault input 838862 columns\n",
        1,
    ),
    (COMMENT, 838859, "xx\n", 6, "fault large bytes\n", 1),
];

/// So many stamps one a second, in two parts: the number behind the last, the round trip, and how much
/// it is more for each stamp before; and a rest.
pub static NUMBERED: [(&str, [(u32, u32, u32); 2], &str, u8, &str); 16] = [
    // The least of the last 1,024 round trips is that of stamp 64,512.
    (
        "rtt",
        [(65536, 100000, 1), (0, 0, 0)],
        "",
        0,
        "base 65535 165535 164512 0 0\nend accepted 65536 refused 0\n",
    ),
    (
        "rtt",
        [(65537, 100000, 1), (0, 0, 0)],
        "",
        6,
        "fault large stamps\n",
    ),
    // A level shift, and one count less than it takes.
    (
        "rtt",
        [(33, 100000, 0), (65, 340001, 0)],
        "",
        0,
        "base 63 340001 100000 0 0\nbase 64 340001 340001 33 1\nend accepted 65 refused 0\n",
    ),
    (
        "rtt",
        [(33, 100000, 0), (65, 340000, 0)],
        "",
        0,
        "base 63 340000 100000 0 0\nbase 64 340000 100000 0 0\nend accepted 65 refused 0\n",
    ),
    // The most accepted stamps.
    (
        "ticks",
        [(16384, 100000, 0), (0, 0, 0)],
        "1 5 5 9\n",
        0,
        "end accepted 16384 refused 1 ticks 81918\n",
    ),
    (
        "ticks",
        [(16384, 100000, 0), (0, 0, 0)],
        "16384000000000 16384 16384 16384000100000\n",
        6,
        "fault large accepted\n",
    ),
    (
        "ticks",
        [(16384, 100000, 0), (0, 0, 0)],
        "16384000000000 16384 16384 16384000100000\nx\n",
        6,
        "fault large accepted\n",
    ),
    (
        "replay --readers 0",
        [(16384, 100000, 0), (0, 0, 0)],
        "1 5 5 9\n",
        0,
        "end accepted 16384 refused 1 ticks 81918 entries 0\n",
    ),
    (
        "replay --readers 0",
        [(16384, 100000, 0), (0, 0, 0)],
        "16384000000000 16384 16384 16384000100000\n",
        6,
        "fault large accepted\n",
    ),
    (
        "replay --readers 0",
        [(16384, 100000, 0), (0, 0, 0)],
        "x\n",
        1,
        "fault input 16387 columns\n",
    ),
    (
        "estimate",
        [(65537, 100000, 0), (0, 0, 0)],
        "",
        6,
        "fault large stamps\n",
    ),
    (
        "estimate",
        [(16384, 100000, 0), (0, 0, 0)],
        "16384000000000 16384 16384 16384000100000\n",
        0,
        "end accepted 16385 refused 0\n",
    ),
    // Two accepted stamps and a refused one.
    (
        "ticks",
        [(2, 100000, 0), (0, 0, 0)],
        "5 9 8 5\n",
        0,
        "end accepted 2 refused 1 ticks 8\n",
    ),
    (
        "ticks --ticks 0",
        [(2, 100000, 0), (0, 0, 0)],
        "5 9 8 5\n",
        0,
        "end accepted 2 refused 1 ticks 4\n",
    ),
    (
        "ticks --ticks 15",
        [(2, 100000, 0), (0, 0, 0)],
        "5 9 8 5\n",
        0,
        "end accepted 2 refused 1 ticks 19\n",
    ),
    (
        "ticks --ticks=15",
        [(2, 100000, 0), (0, 0, 0)],
        "5 9 8 5\n",
        0,
        "end accepted 2 refused 1 ticks 19\n",
    ),
];
