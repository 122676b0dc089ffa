// One read and one write of std's streams, each told by a relation of its own: so a contract knows
// one call from two, and a failing call from none.
ghost use Rattle.std.specs.Prelude.{ℕ, List, Option, Result};
ghost use Rattle.std.specs.Io.{ReadsAtMost, WritesAtMost};
ghost use Rattle.std.specs.Io.KnownBytes.{ReadConsumes, WriteAppends};
ghost use Rattle.std.specs.declared.io.Error.{Error};
ghost use Rattle.rad_io.specs.Calls.{EachRead, EachWrite};

use std::io::{self, Read, Write};

/// A reader whose reads are told one by one. Each of std's readers is one.
pub trait Reader {
    /// The bytes that are left, where the reader tells them.
    ghost remaining: { Self → Option (List ℕ) };

    /// What one read does: from this reader and room, this answer, room and reader.
    ghost read_gives: { Self → List ℕ → Result ℕ Error → List ℕ → Self → Type 0 };

    /// One read into the front of the room, and how many bytes it gave.
    fn read_once(&mut self, room: &mut [u8]) -> io::Result<usize>
        ensures once { read_gives self.old room.old result room.new self.new };

    /// The count of bytes fits in the room.
    ghost within: { EachRead read_gives (λ old new r room. ReadsAtMost r room) };

    /// The bytes come from the front of what is left.
    ghost consumes: { EachRead read_gives (λ old new r room.
        ReadConsumes (remaining old) (remaining new) r room) };
}

impl<R: Read> Reader for R {
    ghost remaining = { R.remaining };

    ghost read_gives = { λ old room r room' new. ReadsAtMost r room'
        × ReadConsumes (R.remaining old) (R.remaining new) r room' };

    ghost within = { λ old new room room' r gives. gives.0 };

    ghost consumes = { λ old new room room' r gives. gives.1 };

    fn read_once(&mut self, room: &mut [u8]) -> io::Result<usize> {
        self.read(room)
    }
}

/// A writer whose writes are told one by one. Each of std's writers is one.
pub trait Writer {
    /// The bytes that the writer holds, where it tells them.
    ghost contents: { Self → Option (List ℕ) };

    /// What one write does: from this writer and bytes, this answer and writer.
    ghost write_gives: { Self → List ℕ → Result ℕ Error → Self → Type 0 };

    /// One write of these bytes, and how many of them it took.
    fn write_once(&mut self, bytes: &[u8]) -> io::Result<usize>
        ensures once { write_gives self.old bytes.now result self.new };

    /// The count of bytes is at most that of these bytes.
    ghost within: { EachWrite write_gives (λ old new bytes r. WritesAtMost r bytes) };

    /// The bytes that it took are appended.
    ghost appends: { EachWrite write_gives (λ old new bytes r.
        WriteAppends (contents old) (contents new) r bytes) };
}

impl<W: Write> Writer for W {
    ghost contents = { W.contents };

    ghost write_gives = { λ old bytes r new. WritesAtMost r bytes
        × WriteAppends (W.contents old) (W.contents new) r bytes };

    ghost within = { λ old new bytes r gives. gives.0 };

    ghost appends = { λ old new bytes r gives. gives.1 };

    fn write_once(&mut self, bytes: &[u8]) -> io::Result<usize> {
        self.write(bytes)
    }
}
