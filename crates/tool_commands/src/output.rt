ghost use Rattle.std.specs.Prelude.{ℕ, List, Result, OnOk};
ghost use Rattle.std.specs.Io.KnownBytes.{Appends};
ghost use Rattle.std.specs.declared.io.Error.{Error};

use std::io;
use std::io::Write;

/// The target of the program's output: a writer, by what writing all of some bytes may return and
/// leave. A writer that never fails can say so here.
pub trait Output {
    // What writing these bytes may return, and what it leaves.
    ghost write_gives: { Self → List ℕ → Result (Unit {0}) Error → Self → Type 0 };

    /// Writes all bytes.
    ///
    /// # Errors
    ///
    /// Returns the error of the writer.
    fn write_all(&mut self, bytes: &[u8]) -> io::Result<()>
        ensures { write_gives self.old bytes.now result self.new };
}

impl<W: Write> Output for W {
    ghost write_gives = { λ w bytes r v. OnOk r (Appends (W.contents w) (W.contents v) bytes) };

    fn write_all(&mut self, bytes: &[u8]) -> io::Result<()> {
        Write::write_all(self, bytes)
    }
}
