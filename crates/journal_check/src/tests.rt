// Lines that `replay` prints, and lines that it never prints.
use crate::{Line, Options, line_of};
use ff_grain::Bintime;
use stamp_text::Refused;
use std::test::Fail;

#[test]
fn lines_of_a_replay_are_read(rt: HostRuntime) -> Result<(), Fail> {
    let rows: [&'static str; 22] = [
        "report replay freq 1000000000 ticks 4 readers 2 reads 2\n",
        "report replay freq 2400000000 ticks 4 readers 2 reads 8 back crank\n",
        "report replay freq 2400000000 ticks 1 readers 2 reads 6 back utc lane version 2\n",
        "estimate 0 1000100000 1700000000+922337203600000 18446744072 50050 499999999 W 923259540800001 18437520700 18455967444 ---\n",
        "estimate 499 14462106139900 1796137497+17887257272339910364 6832127771 83958 142270 - 1548741648692069 6832126799 6832128743 -L-\n",
        "estimate 0 81236602972848 1714521600+484809981329377611 7686143364 269261 499999912 W 4966974758653975 7682300293 7689986435 --- 0 0 0\n",
        "set 81788621847589 1714521835+9223372036854775808\n",
        "leap 81591759098619 1\n",
        "leap 2000000002 -1\n",
        "refused 18 overlap\n",
        "refused 23 server-backward\n",
        "refused 5 leap-unannounced\n",
        "refused 27 unsynchronised\n",
        "tick 0 cold 0 0+0 0+0 0 0+0 U 0+0 0 0 0 0 U 0 0 0\n",
        "tick 7 reset 2000000000 1700000001+9223372036854775808 1700000001+9223372036854775808 18446744072 1700000001+9223372036854775808 U 1700000001+9223372036854775808 2000000000 18446744072 0 0 U 0 0 0\n",
        "tick 4 take 17000100000 1700000016+922331527237072 1700000016+922309850774144 18446744074 1699999998+18445821738215503232 W 1700000016+922331527237072 17000100000 18446744073 100002 6250101 W 0 0 0\n",
        "read 0 0 abs 7 81966204627281 1714521904+446214718868390219 160106402986196342\n",
        "read 1 3 utc 0 0 0+0 0\n",
        "again 0 6 abs 19 19\n",
        "old 0 6 17000100000 18000100000\n",
        "ahead 15 16383 17000100000 17000099999\n",
        "end accepted 20 refused 2 ticks 98 entries 16\n",
    ];
    for text in rows {
        assert!(rt; line_of(text.as_bytes()).is_some(), "at {text}");
    }
    Ok(())
}

#[test]
fn lines_say_what_was_told(rt: HostRuntime) -> Result<(), Fail> {
    let head = Line::Head {
        freq: 2_400_000_000,
        options: Options {
            ticks: 1,
            readers: 2,
            reads: 6,
            back: true,
            crank: false,
            utc: true,
            lane: true,
            second: true,
        },
    };
    let rows: [(&'static str, Line); 5] = [
        (
            "report replay freq 2400000000 ticks 1 readers 2 reads 6 back utc lane version 2\n",
            head,
        ),
        (
            "set 2000000000 1700000001+9223372036854775808\n",
            Line::Set {
                count: 2_000_000_000,
                at: Bintime {
                    sec: 1_700_000_001,
                    frac: 9_223_372_036_854_775_808,
                },
            },
        ),
        (
            "leap 2000000002 -1\n",
            Line::Leap {
                count: 2_000_000_002,
                leap: -1,
            },
        ),
        (
            "refused 9 overlap\n",
            Line::Refusal {
                line: 9,
                why: Refused::Overlap,
            },
        ),
        (
            "end accepted 20 refused 2 ticks 98 entries 16\n",
            Line::End {
                accepted: 20,
                refused: 2,
                ticks: 98,
                entries: 16,
            },
        ),
    ];
    for (text, wanted) in rows {
        assert_eq!(rt; line_of(text.as_bytes()), Some(wanted), "at {text}");
    }
    Ok(())
}

#[test]
fn other_lines_are_none(rt: HostRuntime) -> Result<(), Fail> {
    let rows: [&'static str; 22] = [
        "",
        "\n",
        "leap 2000000002 -1",
        "leap 2000000002 -1\r\n",
        "leap 2000000002 -1\n\n",
        "leap 2000000002  -1\n",
        "leap 2000000002 -129\n",
        "leap 2000000002 128\n",
        "leap 2000000002 +1\n",
        "leap 2000000002 -0\n",
        "leap 18446744073709551616 1\n",
        " leap 2000000002 1\n",
        "refused 018 overlap\n",
        "refused 18 Overlap\n",
        "report replay freq 999999 ticks 4 readers 2 reads 2\n",
        "report replay freq 1000000000 ticks 16 readers 2 reads 2\n",
        "report replay freq 1000000000 ticks 4 readers 17 reads 2\n",
        "report replay freq 1000000000 ticks 4 readers 2 reads 16385\n",
        "report replay freq 1000000000 ticks 4 readers 2 reads 2 crank lane\n",
        "report replay freq 1000000000 ticks 4 readers 2 reads 2 crank back\n",
        "report replay freq 1000000000 ticks 4 readers 2 reads 2 version 1\n",
        "estimate 0 81236602972848 1714521600+484809981329377611 7686143364 269261 499999912 W 4966974758653975 7682300293 7689986435 --- 0 0\n",
    ];
    for text in rows {
        assert_eq!(rt; line_of(text.as_bytes()), None, "at {text}");
    }
    Ok(())
}
