// The example of the format, and the places of faults.
use crate::{CapFault, CapWhy, Capture, Exchange, Got, Matcher, Piece, Record};
use std::process::Abort;
use std::test::Fail;

// The head of a capture, a request, and the reply to it.
const SAMPLE: [u8; 134] = [
    82, 65, 68, 67, 65, 80, 48, 49, 0, 0, 0, 0, 59, 154, 202, 0, 0, 0, 0, 0, 59, 154, 202, 0, 0, 0,
    48, 35, 0, 0, 0, 0, 0, 0, 0, 0, 0, 0, 0, 0, 0, 0, 0, 0, 0, 0, 0, 0, 0, 0, 0, 0, 0, 0, 0, 0, 0,
    0, 0, 0, 0, 0, 0, 0, 0, 0, 0, 0, 0, 0, 0, 0, 0, 0, 1, 0, 0, 0, 0, 59, 156, 80, 160, 1, 0, 48,
    36, 1, 0, 0, 0, 0, 0, 0, 0, 0, 0, 0, 0, 0, 0, 0, 0, 0, 0, 0, 0, 0, 0, 0, 0, 0, 0, 0, 0, 0, 0,
    1, 232, 254, 111, 128, 128, 0, 0, 0, 232, 254, 111, 128, 128, 0, 0, 1,
];

// The records of a text, up to three, and the first fault.
fn read(rt: &impl Abort, text: &[u8]) -> (Option<Record>, Option<Record>, Option<CapFault>) {
    let mut capture = Capture::new();
    let mut first = None;
    let mut second = None;
    for b in text {
        match capture.byte(*b) {
            Ok(Some(Piece::Record(record))) => {
                if first.is_none() {
                    first = Some(record);
                } else {
                    second = Some(record);
                }
            }
            Ok(Some(Piece::Freq(freq))) => assert_eq!(rt; freq, 1_000_000_000),
            Ok(None) => {}
            Err(fault) => return (first, second, Some(fault)),
        }
    }
    (first, second, capture.end().err())
}

#[test]
fn a_reply_takes_its_request(rt: HostRuntime) -> Result<(), Fail> {
    let (request, reply, fault) = read(&rt, &SAMPLE);
    assert_eq!(&rt; fault, None);
    let mut matcher = Matcher::new();
    assert_eq!(&rt; matcher.give(&request.ok_or("no request")?), Got::Nothing);
    let reply = reply.ok_or("no reply")?;
    let exchange = Exchange {
        ta: 1_000_000_000,
        tb: (1_700_000_000, 500_000_000),
        te: (1_700_000_000, 500_000_000),
        tf: 1_000_100_000,
        stratum: 1,
        leap: 0,
    };
    assert_eq!(&rt; matcher.give(&reply), Got::Exchange(exchange));
    assert_eq!(&rt; matcher.give(&reply), Got::Unused);
    Ok(())
}

#[test]
fn faults_stand_at_their_fields(rt: HostRuntime) {
    let (_, _, cut) = read(&rt, &SAMPLE[..133]);
    assert_eq!(&rt;
        cut,
        Some(CapFault {
            at: 75,
            why: CapWhy::Cut
        })
    );
    let mut short = SAMPLE;
    short[26] = 47;
    let (_, _, fault) = read(&rt, &short);
    assert_eq!(&rt;
        fault,
        Some(CapFault {
            at: 25,
            why: CapWhy::Short
        })
    );
    let (_, _, none) = read(&rt, &[]);
    assert_eq!(&rt;
        none,
        Some(CapFault {
            at: 0,
            why: CapWhy::Cut
        })
    );
    let (_, _, head) = read(&rt, b"RADCAP02");
    assert_eq!(&rt;
        head,
        Some(CapFault {
            at: 0,
            why: CapWhy::Head
        })
    );
}

#[test]
fn slices_give_what_bytes_give(rt: HostRuntime) {
    let mut capture = Capture::new();
    let mut rest = &SAMPLE[..];
    let mut pieces: usize = 0;
    for _ in 0..SAMPLE.len() {
        let (count, answer) = capture.bytes(rest);
        if let Ok(Some(_)) = answer {
            pieces = pieces.saturating_add(1);
        }
        rest = &rest[count..];
    }
    assert_eq!(&rt; (rest.len(), pieces), (0, 3));
    assert_eq!(&rt; capture.end(), Ok(()));
}
