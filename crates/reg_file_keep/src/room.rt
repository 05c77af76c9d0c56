// When a file is compacted. Counting the lines that a compaction would drop means reading the whole
// file, so the last count is used as long as it says enough: until the floor of the next compaction
// rises, there are never fewer lines that stay than were counted. A compaction raises that floor,
// and then nothing is known of the deletes that were kept.
ghost use Rattle.std.specs.Prelude.{◌≡◌, ◌<◌, true, false};
ghost use Rattle.reg_file_keep.specs.Room.{due, least, next_count, waited};

use reg_records::{Key, LOG_LINES, Log};
use std::alloc::{AllocError, Global};

/// A file isn't compacted for the number of its lines while it has no more than this many, with
/// those to come.
const FEW_LINES: u64 = 100_000;

/// After a failed compaction this many batches pass before the next try.
const PATIENCE: u64 = 1_000;

/// What is known of a file's lines.
#[derive(Clone, Copy, Debug, PartialEq, Eq)]
pub(crate) struct Room {
    /// At least this many lines stay in a compaction.
    pub kept: u64,
    /// The lines are counted again once the file has more than this many.
    pub again: u64,
    /// This many batches pass before that.
    pub patience: u64,
}

impl Room {
    /// Makes one that knows nothing.
    pub(crate) fn new() -> Room
        ensures { result ≡ record { kept = 0; again = 0; patience = 0 } }
    {
        Room {
            kept: 0,
            again: 0,
            patience: 0,
        }
    }

    /// Returns what a log tells of its file with `lines` lines before `more` lines come, so that
    /// the file isn't read again if few lines would be dropped. It affects speed only.
    pub(crate) fn of_log(alloc: Global, log: &Log, lines: u64, more: u64) -> Room
        ensures { result.patience ≡ 0 }
    {
        let is_full = more > LOG_LINES.saturating_sub(lines);
        if is_full || more <= FEW_LINES.saturating_sub(lines) {
            return Room::new();
        }
        match count_staying(alloc, log) {
            Ok(kept) if lines.saturating_sub(kept) <= lines / 2 => Room::counted(kept, lines),
            _ => Room::new(),
        }
    }

    /// Makes one after a count: `kept` of `lines` lines stay.
    pub(crate) fn counted(kept: u64, lines: u64) -> Room
        ensures { result ≡ record { kept = kept; again = next_count kept lines; patience = 0 } }
    {
        Room {
            kept,
            again: lines.saturating_add(lines / 4).max(kept.saturating_mul(2)),
            patience: 0,
        }
    }

    /// Makes one after a compaction that left `lines` lines and raised the floor of the next one.
    pub(crate) fn left(lines: u64) -> Room
        ensures { result ≡ record { kept = 0; again = next_count lines lines; patience = 0 } }
    {
        Room {
            kept: 0,
            ..Room::counted(lines, lines)
        }
    }

    /// Notes that a compaction failed.
    pub(crate) fn wait(&mut self)
        ensures { self.new ≡ record self.old { patience = 1000 } }
    {
        self.patience = PATIENCE;
    }

    /// Returns whether the next count still has to wait, and counts this batch.
    pub(crate) fn waits(&mut self) -> bool
        ensures waits { result ≡ true → 0 < self.old.patience }
        ensures none { result ≡ false → self.old.patience ≡ 0 }
        ensures waited { self.new ≡ waited self.old }
    {
        if self.patience > 0 {
            self.patience -= 1;
            return true;
        }
        false
    }

    /// Returns how many lines a compaction has to drop to be made before `more` lines come; `None`
    /// if lines aren't counted now.
    pub(crate) fn due(&self, lines: u64, more: u64) -> Option<u64>
        ensures { result ≡ due self.now lines more }
    {
        if more > LOG_LINES.saturating_sub(lines) {
            let least = self.least(lines);
            if lines.saturating_sub(self.kept) < least {
                return None;
            }
            return Some(least);
        }
        if more <= FEW_LINES.saturating_sub(lines) || lines <= self.again {
            return None;
        }
        Some(lines / 2 + 1)
    }

    /// Returns how many lines of a full log have to be dropped: one if they were never counted, as
    /// at the start, else a tenth.
    fn least(&self, lines: u64) -> u64
        ensures { result ≡ least self.now lines }
    {
        if self.again == 0 {
            return 1;
        }
        lines.div_ceil(10)
    }
}

/// Counts the lines of a log that stay, at least, in a compaction to its own floor: the last one of
/// each key, unless it deletes the key below the floor. The only error is out of memory.
fn count_staying(alloc: Global, log: &Log) -> Result<u64, AllocError> {
    let mut keys: Vec<&Key> = log.records.iter().map(|record| &record.key).collect(alloc)?;
    keys.sort_unstable();
    keys.dedup();
    let mut deletes: u64 = 0;
    for record in &log.records {
        if record.value.is_none() && record.offset < log.floor {
            deletes = deletes.saturating_add(1);
        }
    }
    Ok((keys.len() as u64).saturating_sub(deletes))
}
