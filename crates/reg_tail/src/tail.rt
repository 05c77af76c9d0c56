// Where a reader of a file stands.
ghost use Rattle.std.specs.Prelude.{◌≡◌, ◌≤◌, ◌<◌, ◌+◌, max, suc, IfErr, OnOk};
ghost use Rattle.reg_records.specs.declared.limits.TheConstants.{LOG_LINES};
ghost use Rattle.reg_tail.specs.declared.error.TailError.TheVariants.{ReadFault};

use crate::error::TailError;
use reg_records::{LOG_LINES, OFFSET_LIMIT};

/// A reader's position in a file: what it needs to read on.
#[derive(Clone, Copy, Debug, PartialEq, Eq)]
pub struct Tail {
    /// The place of the file's empty line at the last read, in bytes from the file's start.
    pub place: usize,
    /// The number of lines before it, up to `LOG_LINES`.
    pub lines: u64,
    /// The offset from which this file's lines are given.
    pub from: u64,
    /// The offset from which a file that takes this one's place is given: the log's next one, or
    /// `from` if that is greater.
    pub next: u64,
    pub ghost few: { lines ≤ LOG_LINES },
}

impl Tail {
    /// Passes a line that takes so many bytes with its LF, and has that offset.
    pub(crate) fn pass(&mut self, len: usize, offset: u64) -> Result<(), TailError>
        requires room { self.old.lines < LOG_LINES }
        requires within { offset ≤ OFFSET_LIMIT }
        ensures place { OnOk result (self.new.place ≡ self.old.place + len) }
        ensures count { OnOk result (self.new.lines ≡ self.old.lines + 1) }
        ensures from { OnOk result (self.new.from ≡ self.old.from) }
        ensures next { OnOk result (self.new.next ≡ max self.old.next (suc offset)) }
        ensures refused { IfErr result (λ e. e ≡ ReadFault) }
    {
        let Some(place) = self.place.checked_add(len) else {
            return Err(TailError::ReadFault);
        };
        self.place = place;
        self.lines += 1;
        self.next = self.next.max(offset + 1);
        Ok(())
    }
}
