// A walk over the lines of a log, which keeps those of the last records.
ghost use Rattle.std.specs.Prelude.{◌≡◌, ◌≤◌, ◌+◌, ◌++◌, ◌∷◌, [], ℕ, List, Some, IfOk, IfSome, OnOk, length};
ghost use Rattle.reg_records.specs.Log.{is_foreign};
ghost use Rattle.reg_records.specs.declared.record.Read.{Read};
ghost use Rattle.reg_compaction.specs.Fronts.{Front, HasLines};
ghost use Rattle.reg_compaction.specs.Walk.{Steps, Walks, finished, is_at, is_kept, waiting_after};

use crate::cutting::line_at;
use reg_records::Read;
use reg_set::{LastRecords, last_is_greatest};
use std::alloc::{AllocError, Global};

/// The lines that a walk over a log has kept so far.
#[derive(Drop)]
pub(crate) struct Walk {
    /// The last records that no line was kept for yet.
    pub waiting: LastRecords,
    /// The line of the log's floor, if it has one, and the lines that were kept.
    pub text: Vec<u8>,
    /// Whether one of those lines has the offset before the log's next one.
    pub has_top: bool,
    /// A foreign line that has it.
    pub carried: Option<Vec<u8>>,
}

impl Walk {
    /// Takes `count` lines at the front of a text. `top` is the offset before the log's next one.
    pub(crate) fn take_lines(
        &mut self,
        alloc: Global,
        text: &[u8],
        count: u64,
        top: Option<u64>,
    ) -> Result<(), AllocError>
        ensures { (lines : List (List ℕ)) (read : List Read) → HasLines text.now lines read count → OnOk result (Walks top lines read self.old self.new) }
    {
        let mut rest = text;
        for _line in 0..count {
            let Some(len) = self.take_front(alloc, rest, top)? else {
                return Ok(());
            };
            rest = &rest[len..];
        }
        Ok(())
    }

    /// Takes the line at the front of a text. Returns its length in bytes, with its LF; `None` if
    /// it has a fault.
    fn take_front(
        &mut self,
        alloc: Global,
        text: &[u8],
        top: Option<u64>,
    ) -> Result<Option<usize>, AllocError>
        ensures within { IfOk result (λ found. IfSome found (λ n. n ≤ length text.now)) }
        ensures taken { (f : Front text.now) → IfOk result (λ found. (found ≡ Some (length f.line + 1)) × Steps top f.line f.read self.old self.new) }
    {
        let Some((len, read)) = line_at(alloc, text)? else {
            return Ok(None);
        };
        self.take_line(alloc, &text[..len], &read, top)?;
        Ok(Some(len))
    }

    /// Returns the lines that were kept, and the foreign line if it alone has the offset before the
    /// log's next one.
    pub(crate) fn finish(self) -> Result<Vec<u8>, AllocError>
        ensures { IfOk result (λ text. text.items ≡ finished self) }
    {
        let Walk {
            waiting: _,
            mut text,
            has_top,
            carried,
        } = self;
        if has_top {
            return Ok(text);
        }
        if let Some(line) = carried {
            text.extend_from_slice(&line)?;
        }
        Ok(text)
    }

    /// Takes a line with its LF.
    fn take_line(
        &mut self,
        alloc: Global,
        line: &[u8],
        read: &Read,
        top: Option<u64>,
    ) -> Result<(), AllocError>
        ensures { (bytes : List ℕ) → line.now ≡ bytes ++ 10 ∷ [] → OnOk result (Steps top bytes read.now self.old self.new) }
    {
        let is_at = is_at(top, read);
        if takes(&mut self.waiting, read) {
            self.text.extend_from_slice(line)?;
            self.has_top = self.has_top || is_at;
        }
        if is_at && is_foreign(read) {
            self.carried = Some(line.to_vec(alloc)?);
        }
        Ok(())
    }
}

/// Returns whether to keep the line, and stops waiting for its record if so.
fn takes(waiting: &mut LastRecords, read: &Read) -> bool
    ensures kept { result ≡ is_kept waiting.old read.now }
    ensures waiting { waiting.new ≡ waiting_after waiting.old read.now }
{
    last_is_greatest();
    match read {
        Read::Foreign(_) => false,
        Read::Record(record) => {
            if !waiting.contains(record) {
                return false;
            }
            waiting.put_back(&record.key, None);
            true
        }
    }
}

fn is_at(top: Option<u64>, read: &Read) -> bool
    ensures { result ≡ is_at top read.now }
{
    match (top, read) {
        (Some(top), Read::Record(record)) => record.offset == top,
        (Some(top), Read::Foreign(offset)) => *offset == top,
        (None, _) => false,
    }
}

fn is_foreign(read: &Read) -> bool
    ensures { result ≡ is_foreign read.now }
{
    match read {
        Read::Foreign(_) => true,
        Read::Record(_) => false,
    }
}
