// Lines as they come from a reader, piece by piece.
ghost use Rattle.std.specs.Prelude.{◌≡◌, ◌<◌, ◌↔◌, ℕ, List, [], IfOk, OnOk, MatchOption, length, IsTrue};
ghost use Rattle.std.specs.IoError.{error_kind};
ghost use Rattle.reg_records.specs.Pieces.{Holds, Grows, TakesPiece};

use crate::limits::LINE_LIMIT;
use crate::line::line_len;
use std::alloc::{AllocError, Global};
use std::io::{self, BufRead, ErrorKind};

/// What is kept of a line that comes in pieces: its bytes, or that they are too many.
#[derive(Drop)]
pub(crate) struct LineBuffer {
    bytes: Vec<u8>,
    is_long: bool,
}

impl LineBuffer {
    /// A line of which nothing has come.
    pub(crate) fn new(alloc: Global) -> LineBuffer
        ensures { Holds result [] }
    {
        LineBuffer {
            bytes: Vec::new(alloc),
            is_long: false,
        }
    }

    /// Adds a piece; the bytes of a line that is too long are dropped.
    fn add(&mut self, piece: &[u8]) -> Result<(), AllocError>
        ensures { OnOk result (Grows self.old self.new piece.now) }
    {
        if self.is_long {
            return Ok(());
        }
        if piece.len() > LINE_LIMIT.saturating_sub(self.bytes.len()) {
            self.is_long = true;
            self.bytes.clear();
            return Ok(());
        }
        self.bytes.extend_from_slice(piece)
    }

    /// Returns the bytes of the line; `None` if they are more than a line may have.
    pub(crate) fn within_limit(&self) -> Option<&[u8]>
        ensures { (line : List ℕ) → Holds self.now line
            → MatchOption result (LINE_LIMIT < length line) (λ bytes. bytes.now ≡ line) }
    {
        if self.is_long {
            None
        } else {
            Some(&self.bytes)
        }
    }

    /// Returns the bytes of the line and gives up the buffer; `None` if they are more than a line
    /// may have.
    pub(crate) fn into_bytes(self) -> Option<Vec<u8>>
        ensures { (line : List ℕ) → Holds self line
            → MatchOption result (LINE_LIMIT < length line) (λ bytes. bytes.items ≡ line) }
    {
        let LineBuffer { bytes, is_long } = self;
        if is_long { None } else { Some(bytes) }
    }

    pub(crate) fn is_empty(&self) -> bool
        ensures { (line : List ℕ) → Holds self.now line → IsTrue result ↔ (line ≡ []) }
    {
        !self.is_long && self.bytes.is_empty()
    }
}

/// The outcome of one read of a line.
#[derive(Clone, Copy)]
pub(crate) enum Piece {
    /// The rest of the line with its LF, by its number of bytes.
    Ended(usize),
    /// Bytes of the line without its LF, by their number.
    More(usize),
    /// The end of the input.
    NoMore,
    /// An error of that kind, and no bytes.
    Failed(ErrorKind),
}

/// Takes bytes of a line in one read, up to its LF.
pub(crate) fn take_piece<R: BufRead>(
    reader: &mut R,
    line: &mut LineBuffer,
) -> Result<Piece, AllocError>
    ensures { IfOk result (TakesPiece (R.remaining reader.old) (R.remaining reader.new) line.old line.new) }
{
    let available = match reader.fill_buf() {
        Ok(available) => available,
        Err(e) => return Ok(failed(&e)),
    };
    if available.is_empty() {
        return Ok(Piece::NoMore);
    }
    let end = line_len(available);
    let len = end.unwrap_or(available.len());
    line.add(&available[..len])?;
    match end {
        Some(end) => {
            reader.consume(end + 1);
            Ok(Piece::Ended(end + 1))
        }
        None => {
            reader.consume(len);
            Ok(Piece::More(len))
        }
    }
}

fn failed(e: &io::Error) -> Piece
    ensures { result ≡ Piece.Failed (error_kind e.now) }
{
    Piece::Failed(e.kind())
}
