// Captures of packets become stamp files, or are refused.
use crate::tests::{OUTSIDE, Outside, played_on};
use rad_io::OpenGate;
use std::alloc::Global;
use std::process::Abort;
use std::test::Fail;
use std::thread::Threads;

/// The head of a capture, a request at count 1000000000, and the reply to it at 1000100000.
const SAMPLE: [u8; 134] = [
    82, 65, 68, 67, 65, 80, 48, 49, 0, 0, 0, 0, 59, 154, 202, 0, 0, 0, 0, 0, 59, 154, 202, 0, 0, 0,
    48, 35, 0, 0, 0, 0, 0, 0, 0, 0, 0, 0, 0, 0, 0, 0, 0, 0, 0, 0, 0, 0, 0, 0, 0, 0, 0, 0, 0, 0, 0,
    0, 0, 0, 0, 0, 0, 0, 0, 0, 0, 0, 0, 0, 0, 0, 0, 0, 1, 0, 0, 0, 0, 59, 156, 80, 160, 1, 0, 48,
    36, 1, 0, 0, 0, 0, 0, 0, 0, 0, 0, 0, 0, 0, 0, 0, 0, 0, 0, 0, 0, 0, 0, 0, 0, 0, 0, 0, 0, 0, 0,
    1, 232, 254, 111, 128, 128, 0, 0, 0, 232, 254, 111, 128, 128, 0, 0, 1,
];

/// How many bytes the head and the request have.
const FRONT: usize = 75;

const HEAD: &str = "radclock-stamps 2\nfreq 1000000000\n";

const FILE: &str =
    "radclock-stamps 2\nfreq 1000000000\n1000000000 1700000000.500000000 1700000000.500000000 1000100000 1 0\n";

const UNSYNCHRONISED: &str =
    "radclock-stamps 2\nfreq 1000000000\n1000000000 1700000000.500000000 1700000000.500000000 1000100000 1 3\n";

/// A byte of the sample that is changed, what it becomes, how many bytes there are, and how the run ends.
static ROWS: [(usize, u8, usize, u8, &str); 11] = [
    (0, 82, 134, 0, FILE),
    (86, 228, 134, 0, UNSYNCHRONISED),
    (
        74,
        2,
        134,
        0,
        "radclock-stamps 2\nfreq 1000000000\n# unused 1\n",
    ),
    (0, 82, FRONT, 0, HEAD),
    (0, 82, 16, 0, HEAD),
    (0, 82, 133, 7, "fault capture 75 cut\n"),
    (26, 47, 134, 7, "fault capture 25 short\n"),
    (16, 64, 134, 7, "fault capture 16 counter\n"),
    (24, 2, 134, 7, "fault capture 24 direction\n"),
    (8, 1, 134, 7, "fault capture 8 freq\n"),
    (0, 82, 0, 7, "fault capture 0 cut\n"),
];

// A run on bytes, how it ends and what it writes.
fn ends_on<R: Abort + Threads + Sync>(
    rt: &R,
    alloc: Global,
    bytes: &[u8],
    outside: Outside,
    code: u8,
    text: &str,
) -> Result<(), Fail> {
    let (status, told) = played_on(rt, alloc, "capture", bytes, outside, &OpenGate)?;
    assert_eq!(rt; status.code(), code, "at {text}");
    assert_eq!(rt; told.as_str(), text);
    Ok(())
}

#[test]
fn captures_end_as_their_rows_say(rt: HostRuntime) -> Result<(), Fail> {
    for (place, byte, size, code, text) in &ROWS {
        let mut bytes = SAMPLE;
        bytes[*place] = *byte;
        for step in [1, 32, 4096] {
            let outside = Outside { step, ..OUTSIDE };
            ends_on(&rt, rt.alloc(), &bytes[..*size], outside, *code, text)?;
        }
    }
    Ok(())
}

#[test]
fn pulls_and_pushes_of_a_capture_fail(rt: HostRuntime) -> Result<(), Fail> {
    let pulls = [
        (0, "fault read 0\n"),
        (1, "fault read 60\n"),
        (3, "fault read 134\n"),
    ];
    for (pull, text) in pulls {
        let outside = Outside {
            step: 60,
            pull,
            ..OUTSIDE
        };
        ends_on(&rt, rt.alloc(), &SAMPLE, outside, 3, text)?;
    }
    // Half of a line comes before its push fails.
    let pushes = [(0, "radclock-"), (1, "radclock-stamps 2\nfreq 100")];
    for (push, text) in pushes {
        let outside = Outside { push, ..OUTSIDE };
        ends_on(&rt, rt.alloc(), &SAMPLE, outside, 4, text)?;
    }
    let refused = Outside { push: 0, ..OUTSIDE };
    ends_on(
        &rt,
        rt.alloc(),
        &SAMPLE[..FRONT - 1],
        refused,
        4,
        "fault capt",
    )
}

// The sample with a mark of its own in the request and its reply.
fn pair(mark: u32) -> [u8; 134] {
    let mark = mark.to_be_bytes();
    let mut pair = SAMPLE;
    pair[71..FRONT].copy_from_slice(&mark);
    pair[114..118].copy_from_slice(&mark);
    pair
}

// Exchanges that many times.
fn exchanges(alloc: Global, times: u32) -> Result<Vec<u8>, Fail> {
    let mut bytes = Vec::from_slice(alloc, &SAMPLE[..16])?;
    for mark in 1..=times {
        bytes.extend_from_slice(&pair(mark)[16..])?;
    }
    Ok(bytes)
}

#[test]
fn exchanges_have_a_limit(rt: HostRuntime) -> Result<(), Fail> {
    let mut bytes = exchanges(rt.alloc(), 65_536)?;
    let room = Outside {
        room: 5_000_000,
        ..OUTSIDE
    };
    let (status, told) = played_on(&rt, rt.alloc(), "capture", &bytes, room, &OpenGate)?;
    assert_eq!(&rt; status.code(), 0);
    assert!(&rt; told.ends_with("1000100000 1 0\n"));
    // The limit stands at the last byte of the record, before the fault behind it.
    bytes.extend_from_slice(&pair(1)[16..])?;
    ends_on(&rt, rt.alloc(), &bytes, OUTSIDE, 6, "fault large stamps\n")?;
    bytes.push(255)?;
    ends_on(&rt, rt.alloc(), &bytes, OUTSIDE, 6, "fault large stamps\n")
}

#[test]
fn bytes_of_a_capture_have_a_limit(rt: HostRuntime) -> Result<(), Fail> {
    // Records of 65,546 bytes that are no request, and one that ends at the limit.
    let mut bytes = Vec::from_slice(rt.alloc(), &SAMPLE[..16])?;
    for i in 0..256 {
        let packet: u16 = if i < 255 { 65_535 } else { 62_959 };
        bytes.extend_from_slice(&[0, 0, 0, 0, 0, 0, 0, 9, 1])?;
        bytes.extend_from_slice(&packet.to_be_bytes())?;
        bytes.resize(bytes.len() + usize::from(packet), 0)?;
    }
    assert_eq!(&rt; bytes.len(), 16_777_216);
    ends_on(&rt, rt.alloc(), &bytes, OUTSIDE, 0, HEAD)?;
    bytes.push(0)?;
    ends_on(&rt, rt.alloc(), &bytes, OUTSIDE, 6, "fault large bytes\n")
}

#[test]
fn the_file_of_a_capture_is_a_stamp_file(rt: HostRuntime) -> Result<(), Fail> {
    let rows = [
        (
            36,
            "stamp 0 1000000000 1700000000+9223372036854775808 1700000000+9223372036854775808 1000100000 100000 1 0\nend accepted 1 refused 0\n",
        ),
        (228, "refused 3 unsynchronised\nend accepted 0 refused 1\n"),
    ];
    for (byte, end) in rows {
        let mut bytes = SAMPLE;
        bytes[86] = byte;
        let (_, file) = played_on(&rt, rt.alloc(), "capture", &bytes, OUTSIDE, &OpenGate)?;
        let (status, told) = played_on(
            &rt,
            rt.alloc(),
            "stamps",
            file.as_bytes(),
            OUTSIDE,
            &OpenGate,
        )?;
        assert_eq!(&rt; status.code(), 0);
        assert!(&rt; told.ends_with(end), "at {told}");
    }
    Ok(())
}
