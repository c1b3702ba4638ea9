ghost use Rattle.std.specs.Prelude.{◌≡◌, ℕ, List, [], ◌<◌, length, Result, MatchResult};
ghost use Rattle.std.specs.Io.{ReadsAtMost};
ghost use Rattle.std.specs.Io.KnownBytes.{Consumes, IsAtEnd, Keeps};
ghost use Rattle.std.specs.declared.io.Error.{Error};
ghost use Rattle.tool_commands.specs.Reading.{given};

use std::io;
use std::io::Read;

/// The source of the program's input: a reader, by what one call may return and leave. A reader
/// that knows its bytes and never fails can say so here.
pub trait Input {
    // What a call with a buffer of this size may return, by the bytes that it reads, and what it
    // leaves.
    ghost read_gives: { Self → ℕ → Result (List ℕ) Error → Self → Type 0 };

    /// Reads some bytes to the start of the buffer and returns their number, or 0 at the end of the
    /// input.
    ///
    /// # Errors
    ///
    /// Returns the error of the reader.
    fn read(&mut self, buf: &mut [u8]) -> io::Result<usize>
        ensures bound { ReadsAtMost result buf.new }
        ensures gives { read_gives self.old (length buf.old) (given buf.new result) self.new };
}

impl<R: Read> Input for R {
    ghost read_gives = { λ r room answer s. MatchResult answer
        (λ bytes. Consumes (R.remaining r) (R.remaining s) bytes
        × (bytes ≡ [] → 0 < room → IsAtEnd (R.remaining s)))
        (λ _. Keeps (R.remaining r) (R.remaining s)) };

    fn read(&mut self, buf: &mut [u8]) -> io::Result<usize> {
        Read::read(self, buf)
    }
}
