// Captures become stamp files, or are stopped.
ghost use Rattle.std.specs.List.{All};
ghost use Rattle.capture_text.specs.Inputs.{IsAnswerTimed};

use crate::{CaptureFile, CaptureStop, push_stamps, read_capture};
use ntp_capture::{CapFault, CapWhy};
use rad_io::{Failed, MemSink};
use report_text::{FaultText, fault_line};
use std::alloc::Global;
use std::process::Abort;
use std::test::Fail;

// The head of a capture, a request at count 1000000000, and the reply to it at 1000100000.
const SAMPLE: [u8; 134] = [
    82, 65, 68, 67, 65, 80, 48, 49, 0, 0, 0, 0, 59, 154, 202, 0, 0, 0, 0, 0, 59, 154, 202, 0, 0, 0,
    48, 35, 0, 0, 0, 0, 0, 0, 0, 0, 0, 0, 0, 0, 0, 0, 0, 0, 0, 0, 0, 0, 0, 0, 0, 0, 0, 0, 0, 0, 0,
    0, 0, 0, 0, 0, 0, 0, 0, 0, 0, 0, 0, 0, 0, 0, 0, 0, 1, 0, 0, 0, 0, 59, 156, 80, 160, 1, 0, 48,
    36, 1, 0, 0, 0, 0, 0, 0, 0, 0, 0, 0, 0, 0, 0, 0, 0, 0, 0, 0, 0, 0, 0, 0, 0, 0, 0, 0, 0, 0, 0,
    1, 232, 254, 111, 128, 128, 0, 0, 0, 232, 254, 111, 128, 128, 0, 0, 1,
];

// How many bytes the head and the request have.
const FRONT: usize = 75;

const HEAD: &str = "radclock-stamps 2\nfreq 1000000000\n";

const STAMP: &str = "1000000000 1700000000.500000000 1700000000.500000000 1000100000 1 0\n";

// The text of a file, up to the push that fails.
fn told(alloc: Global, file: &CaptureFile, push: u64) -> Result<(Result<(), Failed>, String), Fail>
    requires { All IsAnswerTimed file.now.answers.items }
{
    let mut sink = MemSink::new(alloc, 1024, Vec::from_slice(alloc, &[push])?)?;
    let answer = push_stamps(&mut sink, file.freq, &file.answers);
    Ok((answer, String::from_utf8_lossy(alloc, sink.written())?))
}

// What a capture becomes.
fn becomes(
    rt: &impl Abort,
    alloc: Global,
    text: &[u8],
    lines: &[&'static str],
) -> Result<(), Fail> {
    let mut due = String::new(alloc);
    due.push_str(HEAD)?;
    for line in lines {
        due.push_str(line)?;
    }
    if text.len() > 1000 {
        return Err("too long".into());
    }
    match read_capture(alloc, text) {
        Ok(file) => {
            let (answer, text) = told(alloc, &file, 1000)?;
            assert_eq!(rt; answer, Ok(()));
            assert_eq!(rt; text.as_str(), due.as_str());
            Ok(())
        }
        Err(_) => Err("stopped".into()),
    }
}

#[test]
fn a_reply_becomes_a_stamp(rt: HostRuntime) -> Result<(), Fail> {
    becomes(&rt, rt.alloc(), &SAMPLE, &[STAMP])?;
    becomes(&rt, rt.alloc(), &SAMPLE[..FRONT], &[])?;
    becomes(&rt, rt.alloc(), &SAMPLE[..16], &[])
}

#[test]
fn a_reply_that_comes_twice_is_unused(rt: HostRuntime) -> Result<(), Fail> {
    let mut text = Vec::from_slice(rt.alloc(), &SAMPLE)?;
    text.extend_from_slice(&SAMPLE[FRONT..])?;
    becomes(&rt, rt.alloc(), &text, &[STAMP, "# unused 2\n"])
}

#[test]
fn a_reply_alone_is_unused(rt: HostRuntime) -> Result<(), Fail> {
    let mut text = Vec::from_slice(rt.alloc(), &SAMPLE[..16])?;
    text.extend_from_slice(&SAMPLE[FRONT..])?;
    becomes(&rt, rt.alloc(), &text, &["# unused 0\n"])
}

#[test]
fn a_server_that_is_not_synchronised(rt: HostRuntime) -> Result<(), Fail> {
    let mut text = SAMPLE;
    text[86] = 228;
    let line = "1000000000 1700000000.500000000 1700000000.500000000 1000100000 1 3\n";
    becomes(&rt, rt.alloc(), &text, &[line])
}

// What stops a capture, and the line that tells it.
fn stops(
    rt: &impl Abort,
    alloc: Global,
    text: &[u8],
    fault: CapFault,
    due: &str,
) -> Result<(), Fail> {
    assert_eq!(rt;
        read_capture(alloc, text).err(),
        Some(CaptureStop::Fault(fault))
    );
    let mut sink = MemSink::new(alloc, 64, Vec::new(alloc))?;
    let answer = fault_line(&mut sink, &FaultText::Capture(fault));
    assert_eq!(rt; answer, Ok(()));
    let line = String::from_utf8_lossy(alloc, sink.written())?;
    assert_eq!(rt; line.as_str(), due);
    Ok(())
}

#[test]
fn faults_stop_a_capture(rt: HostRuntime) -> Result<(), Fail> {
    let table = [
        (0, 83, 134, 0, CapWhy::Head, "fault capture 0 head\n"),
        (8, 1, 134, 8, CapWhy::Freq, "fault capture 8 freq\n"),
        (
            75,
            64,
            134,
            75,
            CapWhy::Counter,
            "fault capture 75 counter\n",
        ),
        (
            83,
            2,
            134,
            83,
            CapWhy::Direction,
            "fault capture 83 direction\n",
        ),
        (26, 47, 134, 25, CapWhy::Short, "fault capture 25 short\n"),
        (0, 82, 133, 75, CapWhy::Cut, "fault capture 75 cut\n"),
        (0, 82, 0, 0, CapWhy::Cut, "fault capture 0 cut\n"),
    ];
    for (place, byte, size, at, why, line) in table {
        let mut text = SAMPLE;
        text[place] = byte;
        stops(&rt, rt.alloc(), &text[..size], CapFault { at, why }, line)?;
    }
    Ok(())
}

#[test]
fn each_push_fails_in_turn(rt: HostRuntime) -> Result<(), Fail> {
    let file = match read_capture(rt.alloc(), &SAMPLE) {
        Ok(file) => file,
        Err(_) => return Err("stopped".into()),
    };
    for (push, lines) in [(0, ""), (1, "radclock-stamps 2\n"), (2, HEAD)] {
        let (answer, text) = told(rt.alloc(), &file, push)?;
        assert_eq!(&rt; answer, Err(Failed));
        assert!(&rt; text.starts_with(lines));
        assert!(&rt; text.len() < HEAD.len() + STAMP.len());
    }
    Ok(())
}
