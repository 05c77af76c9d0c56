// A connection as the system gives it.
ghost use Rattle.std.specs.Prelude.{⊤};

use std::io::{self, Read, Write};
use std::net::{Shutdown, TcpStream};

/// A connection of the system.
pub trait Stream {
    ghost use Rattle.std.specs.Io.{ReadsAtMost, WritesAtMost};
    ghost use Rattle.std.specs.Prelude.{[], IfErr, List, MatchResult, OnErr, length, take, ℕ};
    ghost use Rattle.reg_connection.specs.Stream.{BreaksOff, IsNoWrite};

    /// The stream before, the bytes that its client took next, and the stream after.
    ghost took: { Self → List ℕ → Self → Type 0 };

    /// A stream of which a call failed, other than by an interruption or because nothing could be
    /// read or written at that moment.
    ghost broke: { Self → Type 0 };

    /// Reads into `buf`, and returns how many bytes; 0 if the client has ended its side. Fails with
    /// `WouldBlock` if nothing came.
    fn receive(&self, buf: &mut [u8]) -> io::Result<usize>
        ensures few { ReadsAtMost result buf.new }
        ensures broke { IfErr result (λ e. BreaksOff e → broke self.now) };

    /// Writes a prefix of `buf`, and returns how many bytes. Fails with `WouldBlock` if the client
    /// takes nothing now; nothing is written at an error.
    fn send(&mut self, buf: &[u8]) -> io::Result<usize>
        ensures few { WritesAtMost result buf.now }
        ensures taken { MatchResult result (λ n. took self.old (take n buf.now) self.new) (λ _. took self.old [] self.new) }
        ensures broke { IsNoWrite (length buf.now) result → broke self.new };

    /// Ends the own side: nothing more will be written.
    fn end_writing(&self) -> io::Result<()>
        ensures { OnErr result (broke self.now) };

    /// Sets whether a read or write waits for a while before it fails with `WouldBlock`.
    fn set_patient(&self, patient: bool) -> io::Result<()>;
}

impl Stream for TcpStream {
    ghost took = { λ _ _ _. ⊤ };

    ghost broke = { λ _. ⊤ };

    fn receive(&self, buf: &mut [u8]) -> io::Result<usize> {
        let mut stream = self;
        stream.read(buf)
    }

    fn send(&mut self, buf: &[u8]) -> io::Result<usize> {
        self.write(buf)
    }

    fn end_writing(&self) -> io::Result<()> {
        self.shutdown(Shutdown::Write)
    }

    fn set_patient(&self, patient: bool) -> io::Result<()> {
        self.set_nonblocking(!patient)
    }
}
