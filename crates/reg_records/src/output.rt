// Writers whose answers contracts name.
use std::io::{self, Write};

/// A writer whose answers contracts can name; each `Write` is one.
///
/// Which answer a call gives is a relation of which a function over any `W: Output` knows nothing.
/// So if its contract mentions an answer, the function can neither skip the call nor make the
/// answer up.
pub trait Output: Write {
    ghost use Rattle.std.specs.Prelude.{List, Result, ⊤, ℕ};
    ghost use Rattle.std.specs.Io.{WritesAtMost};
    ghost use Rattle.std.specs.Io.KnownBytes.{Keeps, WriteAppends};
    ghost use Rattle.std.specs.declared.io.Error.{Error};

    /// The writer before, the bytes that it was given, what the write answered, and the writer after.
    ghost writes: { Self → List ℕ → Result ℕ Error → Self → Type 0 };

    /// The writer before, what the flush answered, and the writer after.
    ghost flushes: { Self → Result ⊤ Error → Self → Type 0 };

    /// Writes a prefix of `buf`, like `write`, and returns its number of bytes.
    fn write_out(&mut self, buf: &[u8]) -> io::Result<usize>
        ensures bound { WritesAtMost result buf.now }
        ensures bytes { WriteAppends (Self.contents self.old) (Self.contents self.new) result buf.now }
        ensures answer { writes self.old buf.now result self.new };

    /// Flushes what was written, like `flush`.
    fn flush_out(&mut self) -> io::Result<()>
        ensures bytes { Keeps (Self.contents self.old) (Self.contents self.new) }
        ensures answer { flushes self.old result self.new };
}

impl<W: Write> Output for W {
    ghost use Rattle.std.specs.Prelude.{⊤};

    ghost writes = { λ _ _ _ _. ⊤ };

    ghost flushes = { λ _ _ _. ⊤ };

    fn write_out(&mut self, buf: &[u8]) -> io::Result<usize> {
        self.write(buf)
    }

    fn flush_out(&mut self) -> io::Result<()> {
        self.flush()
    }
}
