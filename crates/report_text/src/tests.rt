// Lines of a run, and those over stamp files of both versions.
use crate::{
    ReportHead, Summary, head_line, ideal_line, leap_line, set_line, stamp_line, summary_line,
};
use ff_grain::from_nanos;
use rad_io::MemSink;
use stamp_text::Stamp;
use std::test::Fail;

#[test]
fn heads_of_runs(rt: HostRuntime) -> Result<(), Fail> {
    let run = |ideal| ReportHead::Run {
        number: 7,
        count: 4096,
        ideal,
    };
    let mut sink = MemSink::new(rt.alloc(), 640, Vec::new(rt.alloc()))?;
    assert_eq!(rt; head_line(&mut sink, &run(false)), Ok(()));
    assert_eq!(rt; head_line(&mut sink, &run(true)), Ok(()));
    assert_eq!(rt;
        sink.written(),
        b"report run number 7 count 4096\nreport run number 7 count 4096 ideal\n".as_slice()
    );
    Ok(())
}

#[test]
fn summary(rt: HostRuntime) -> Result<(), Fail> {
    let summary = Summary {
        accepted: 4096,
        refused: 1,
        shifts: 2,
        predicted: 3,
        local: 4033,
    };
    let mut sink = MemSink::new(rt.alloc(), 640, Vec::new(rt.alloc()))?;
    assert_eq!(rt; summary_line(&mut sink, &summary), Ok(()));
    assert_eq!(rt;
        sink.written(),
        b"summary accepted 4096 refused 1 shifts 2 predicted 3 local 4033\n".as_slice()
    );
    Ok(())
}

#[test]
fn ideal(rt: HostRuntime) -> Result<(), Fail> {
    let mut sink = MemSink::new(rt.alloc(), 640, Vec::new(rt.alloc()))?;
    let most = 340_282_366_920_938_463_463_374_607_431_768_211_455;
    assert_eq!(rt;
        ideal_line(&mut sink, 18_446_744_073_709_551_615, most, 0),
        Ok(())
    );
    assert_eq!(rt;
        sink.written(),
        b"ideal 18446744073709551615 340282366920938463463374607431768211455 0\n".as_slice()
    );
    Ok(())
}

#[test]
fn lines_of_both_versions(rt: HostRuntime) -> Result<(), Fail> {
    let stamp = Stamp {
        ta: 1,
        tb: from_nanos(5, 0),
        te: from_nanos(6, 500_000_000),
        tf: 9,
        stratum: 15,
        leap: 2,
    };
    let mut sink = MemSink::new(rt.alloc(), 640, Vec::new(rt.alloc()))?;
    for version in 1..3 {
        let head = ReportHead::Ticks {
            freq: 1_000_000,
            ticks: 4,
            timers: None,
            version,
        };
        assert_eq!(rt; head_line(&mut sink, &head), Ok(()));
        assert_eq!(rt; stamp_line(&mut sink, 7, &stamp, version), Ok(()));
    }
    assert_eq!(rt; set_line(&mut sink, 20, from_nanos(8, 0)), Ok(()));
    assert_eq!(rt; leap_line(&mut sink, 21, -1), Ok(()));
    assert_eq!(rt;
        sink.written(),
        b"report ticks freq 1000000 ticks 4
stamp 7 1 5+0 6+9223372036854775808 9 8
report ticks freq 1000000 ticks 4 version 2
stamp 7 1 5+0 6+9223372036854775808 9 8 15 2
set 20 8+0
leap 21 -1
"
            .as_slice()
    );
    Ok(())
}
