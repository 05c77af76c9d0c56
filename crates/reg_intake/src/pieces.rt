// Bytes as a reader gives them.
ghost use Rattle.std.specs.Prelude.{◌≡◌, IfErr, IfOk, OnErr};
ghost use Rattle.std.specs.Io.KnownBytes.{Keeps};
ghost use Rattle.reg_intake.specs.Pieces.{Gives, IsGiveFault};

use crate::incoming::Incoming;
use std::alloc::AllocError;
use std::io::{BufRead, ErrorKind};

/// An error of [`Pieces::give_to`].
#[derive(Clone, Copy, Debug, PartialEq, Eq)]
pub enum GiveError {
    /// The reader returned an error of that kind.
    Read(ErrorKind),
    OutOfMemory,
}

impl From<AllocError> for GiveError {
    ghost use Rattle.std.specs.Prelude.{◌≡◌};
    ghost use Rattle.reg_intake.specs.declared.pieces.GiveError.TheVariants.{OutOfMemory};

    ghost from_gives = { λ _ error. error ≡ OutOfMemory };

    fn from(_refused: AllocError) -> GiveError {
        GiveError::OutOfMemory
    }
}

/// A reader whose bytes are taken as they come. Every `BufRead` is one.
///
/// Which errors a read may return is the relation `fails`. A function over any `B: Pieces` knows
/// nothing of it, so if its contract speaks of an error of the reader, it can't make one up.
pub trait Pieces: BufRead {
    ghost use Rattle.std.specs.declared.io.ErrorKind.{ErrorKind};

    /// The reader before, the kind of the error that a read answered, and the reader after.
    ghost fails: { Self → ErrorKind → Self → Type 0 };

    /// Appends all that one read gives to `incoming`, and returns how many bytes; 0 at the end.
    /// After an error nothing was taken.
    fn give_to(&mut self, incoming: &mut Incoming) -> Result<usize, GiveError>
        ensures given { IfOk result (Gives (Self.remaining self.old) (Self.remaining self.new) incoming.old incoming.new) }
        ensures kept { OnErr result (Keeps (Self.remaining self.old) (Self.remaining self.new)) }
        ensures same { OnErr result (incoming.new ≡ incoming.old) }
        ensures fault { IfErr result (IsGiveFault fails self.old self.new) };
}

impl<B: BufRead> Pieces for B {
    ghost use Rattle.std.specs.Prelude.{⊤};

    ghost fails = { λ _ _ _. ⊤ };

    fn give_to(&mut self, incoming: &mut Incoming) -> Result<usize, GiveError> {
        let available = match self.fill_buf() {
            Ok(available) => available,
            Err(e) => return Err(GiveError::Read(e.kind())),
        };
        let len = available.len();
        if len == 0 {
            return Ok(0);
        }
        incoming.take(available)?;
        self.consume(len);
        Ok(len)
    }
}
