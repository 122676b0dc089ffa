// What no clause says: that memory for a sink can be had, that the adapters run over std's own
// readers and writers, and that each of their reads and writes is one of the stream's.
use crate::{Failed, MemSink, Sink, Source, StdSink, StdSource};
use std::io::{self, ErrorKind, Read, Write};
use std::test::Fail;

#[test]
fn a_sink_has_its_room(rt: HostRuntime) -> Result<(), Fail> {
    let failing = Vec::from_slice(rt.alloc(), &[1])?;
    let mut sink = MemSink::new(rt.alloc(), 10, failing)?;
    assert_eq!(rt; sink.push(b"grain "), Ok(()));
    assert_eq!(rt; sink.push(b"s of"), Err(Failed));
    assert_eq!(rt; sink.push(b" time"), Err(Failed));
    assert_eq!(rt; sink.written(), b"grain s ".as_slice());
    Ok(())
}

#[test]
fn a_reader_is_a_source(rt: HostRuntime) {
    let mut source = StdSource::new(b"grains".as_slice());
    let mut room = [0u8; 4];
    assert_eq!(rt; source.pull(&mut room), Ok(4));
    assert_eq!(rt; room.as_slice(), b"grai".as_slice());
    assert_eq!(rt; source.pull(&mut room), Ok(2));
    assert_eq!(rt; source.pull(&mut room), Ok(0));
}

#[test]
fn a_writer_is_a_sink(rt: HostRuntime) {
    let mut bytes = [0u8; 8];
    let mut sink = StdSink::new(bytes.as_mut_slice());
    assert_eq!(rt; sink.push(b"grain "), Ok(()));
    assert_eq!(rt; sink.push(b"s of"), Err(Failed));
    assert_eq!(rt; bytes.as_slice(), b"grain s ".as_slice());
}

// A stream whose reads give, and whose writes take, at most the bytes that stand in `most` one after
// the other, and fail at a `None` and after the last.
#[derive(Drop)]
struct Script<'a> {
    most: &'a [Option<usize>],
    calls: usize,
}

impl Script<'_> {
    fn next(&mut self) -> io::Result<usize> {
        let most = self.most.get(self.calls).copied().flatten();
        self.calls = self.calls.saturating_add(1);
        most.ok_or(io::Error::from(ErrorKind::Interrupted))
    }
}

impl Read for Script<'_> {
    fn read(&mut self, buf: &mut [u8]) -> io::Result<usize> {
        Ok(self.next()?.min(buf.len()))
    }
}

impl Write for Script<'_> {
    fn write(&mut self, buf: &[u8]) -> io::Result<usize> {
        Ok(self.next()?.min(buf.len()))
    }

    fn flush(&mut self) -> io::Result<()> {
        Ok(())
    }
}

// A failing read fails one pull, is not tried again, and the next pull reads on.
#[test]
fn each_pull_is_one_read(rt: HostRuntime) {
    let mut script = Script {
        most: &[
            Some(2),
            None,
            Some(9),
            None,
            None,
            Some(1),
            Some(0),
            Some(3),
        ],
        calls: 0,
    };
    let wanted = [
        Ok(2),
        Err(Failed),
        Ok(4),
        Err(Failed),
        Err(Failed),
        Ok(1),
        Ok(0),
        Ok(3),
    ];
    let mut source = StdSource::new(&mut script);
    let mut room = [0u8; 4];
    for (number, want) in wanted.iter().enumerate() {
        assert_eq!(rt; source.pull(&mut room), *want, "pull {number}");
    }
    assert_eq!(rt; script.calls, wanted.len());
}

// A short write is no fault. A failing write, or one that takes nothing, fails one push and is not
// tried again, and the next push writes on.
#[test]
fn a_push_writes_until_a_fault(rt: HostRuntime) {
    let mut script = Script {
        most: &[
            Some(2),
            Some(9),
            None,
            Some(1),
            None,
            Some(9),
            Some(0),
            Some(3),
        ],
        calls: 0,
    };
    let wanted = [
        (b"abcde".as_slice(), Ok(())),
        (b"fg", Err(Failed)),
        (b"", Ok(())),
        (b"hij", Err(Failed)),
        (b"kl", Ok(())),
        (b"mn", Err(Failed)),
        (b"opq", Ok(())),
    ];
    let mut sink = StdSink::new(&mut script);
    for (piece, want) in wanted {
        assert_eq!(rt; sink.push(piece), want);
    }
    assert_eq!(rt; script.calls, 8);
}
