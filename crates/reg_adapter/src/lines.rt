// Bytes as they come, and the lines that are whole.
ghost use Rattle.std.specs.Prelude.{◌≡◌, ◌≤◌, ◌<◌, ◌+◌, ◌++◌, ◌∷◌, [], length, drop, MatchOption, OnErr, OnOk};
ghost use Rattle.reg_records.specs.Device.{counted};
ghost use Rattle.reg_records.specs.Pieces.{HasNoLineFeed};
ghost use Rattle.reg_adapter.specs.Lines.{IsFrontLine};

use reg_records::line_len;
use std::alloc::{AllocError, Global};
use std::marker::Model;

/// A buffer of bytes as they come, of which each whole line is taken once. Contracts see the bytes
/// that no line was taken of, and how many lines were taken.
#[derive(Drop)]
pub(crate) struct Lines {
    alloc: Global,
    held: Vec<u8>,
    /// How many of the held bytes were taken.
    passed: usize,
    /// How many lines were taken, up to `u64::MAX`.
    count: u64,
    ghost within: { passed ≤ length held.items },
}

impl Model for Lines {
    ghost use Rattle.std.specs.Prelude.{drop};
    ghost use Rattle.reg_adapter.specs.Lines.{Unread};

    ghost Value = { Unread };

    ghost view = { λ l. record { bytes = drop l.passed l.held.items; count = l.count } };
}

impl Lines {
    /// Makes a buffer to which nothing has come.
    pub(crate) fn new(alloc: Global) -> Lines
        ensures { result ≡ record { bytes = []; count = 0 } }
    {
        Lines {
            alloc,
            held: Vec::new(alloc),
            passed: 0,
            count: 0,
        }
    }

    /// Returns how many lines were taken, up to `u64::MAX`.
    pub(crate) fn count(&self) -> u64
        ensures { result ≡ self.now.count }
    {
        self.count
    }

    /// Returns the bytes that no line was taken of.
    pub(crate) fn unread(&self) -> &[u8]
        ensures { result.now ≡ self.now.bytes }
    {
        &self.held[self.passed..]
    }

    /// Appends bytes that came. The only error is out of memory, with nothing changed.
    pub(crate) fn add(&mut self, bytes: &[u8]) -> Result<(), AllocError>
        ensures added { OnOk result (self.new ≡ record self.old { bytes = self.old.bytes ++ bytes.now }) }
        ensures refused { OnErr result (self.new ≡ self.old) }
    {
        let rest = self.unread();
        let mut held = Vec::with_capacity(self.alloc, rest.len().saturating_add(bytes.len()))?;
        held.extend_from_slice(rest)?;
        held.extend_from_slice(bytes)?;
        self.held = held;
        self.passed = 0;
        Ok(())
    }

    /// Returns the line at the front with its LF, if it is whole.
    pub(crate) fn front(&self) -> Option<&[u8]>
        ensures { MatchOption result (HasNoLineFeed self.now.bytes) (λ line. IsFrontLine self.now.bytes line.now) }
    {
        let rest = self.unread();
        let Some(len) = line_len(rest) else {
            return None;
        };
        Some(&rest[..len + 1])
    }

    /// Takes the line at the front, which has `len` bytes with its LF.
    pub(crate) fn pass(&mut self, len: usize)
        requires { len ≤ length self.old.bytes }
        ensures { self.new ≡ record { bytes = drop len self.old.bytes; count = counted self.old.count } }
    {
        self.passed += len;
        self.count = self.count.saturating_add(1);
    }
}
