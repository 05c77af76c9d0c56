// The lines of a piece of a file, up to its empty line.
ghost use Rattle.std.specs.Prelude.{◌≡◌, ◌≤◌, ◌<◌, ◌+◌, ◌∷◌, ℕ, List, IfErr, IfOk, IfSome, MatchOption, length};
ghost use Rattle.reg_tail.specs.Gathered.{Gathers, Takes};
ghost use Rattle.reg_tail.specs.Line.{IsPieceRefusal};

use crate::error::TailError;
use crate::line::line_at;
use crate::tail::Tail;
use std::alloc::Global;

/// The tail behind some lines, and the text of those that are given.
#[derive(Drop)]
pub(crate) struct Gathered {
    pub tail: Tail,
    pub text: Vec<u8>,
}

impl Gathered {
    /// Takes the lines of a piece up to its empty line.
    pub(crate) fn take_lines(self, alloc: Global, piece: &[u8]) -> Result<Gathered, TailError>
        ensures taken { IfOk result (λ new. (behind : List ℕ) × Gathers piece.now (10 ∷ behind) self new) }
        ensures refused { IfErr result (IsPieceRefusal (self.tail.lines + 1) piece.now) }
    {
        let mut gathered = self;
        let mut rest = piece;
        while let Some(len) = gathered.take_front(alloc, rest)? {
            rest = &rest[len..];
        }
        Ok(gathered)
    }

    /// Takes the line at the front of a text. Returns its length in bytes, with its LF; `None` at
    /// an empty line.
    fn take_front(&mut self, alloc: Global, text: &[u8]) -> Result<Option<usize>, TailError>
        ensures within { IfOk result (λ found. IfSome found (λ n. (0 < n) × (n ≤ length text.now))) }
        ensures taken { IfOk result (λ found. MatchOption found
            ((self.new ≡ self.old) × ((behind : List ℕ) × (text.now ≡ 10 ∷ behind))) (Takes text.now self.old self.new)) }
        ensures refused { IfErr result (IsPieceRefusal (self.old.tail.lines + 1) text.now) }
    {
        let Some((len, read)) = line_at(alloc, self.tail.lines + 1, text)? else {
            return Ok(None);
        };
        let offset = read.offset();
        if self.tail.from <= offset {
            self.text.extend_from_slice(&text[..len])?;
        }
        self.tail.pass(len, offset)?;
        Ok(Some(len))
    }
}
