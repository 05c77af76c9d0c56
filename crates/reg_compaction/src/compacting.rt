// What compacting leaves of a log.
ghost use Rattle.std.specs.Prelude.{◌≡◌, IfErr, IfOk, OnOk};
ghost use Rattle.std.specs.FinSet.{from_list, insert};
ghost use Rattle.reg_journal.specs.Found.{HasFault};
ghost use Rattle.reg_set.specs.LastRecords.{last_records};
ghost use Rattle.reg_compaction.specs.Begun.{Begins};
ghost use Rattle.reg_compaction.specs.Compacted.{IsCompacted, IsLines};

use crate::cutting::floor_len;
use crate::walk::Walk;
use reg_journal::lines_are_logs;
use reg_records::{Device, LogError, Record, read_log};
use reg_set::{
    LastRecords, last_is_greatest, last_records_are_enough, last_records_of_unions,
    records_are_ordered,
};
use std::alloc::{AllocError, Global};

/// Compacts a log at its own floor: returns the floor's line and the lines of the log's last
/// records, unchanged and in their order. A foreign line (one of a kind unknown here) is kept if it
/// alone has the offset before the log's next one. What follows the empty line is left out. Errors:
/// the first line with a fault, or out of memory.
pub fn compacted(alloc: Global, log: &[u8]) -> Result<Vec<u8>, LogError>
    ensures compacted { IfOk result (λ text. IsCompacted log.now text.items) }
    ensures lines { IfOk result (λ text. IsLines text.items) }
    ensures fault { IfErr result (HasFault log.now) }
{
    lines_are_logs();
    records_are_ordered();
    last_records_are_enough();
    last_is_greatest();
    let Begun {
        waiting,
        top,
        count,
    } = begin(alloc, log)?;
    let (front, lines) = log.split_at(floor_len(log));
    let mut walk = Walk {
        waiting,
        text: front.to_vec(alloc)?,
        has_top: false,
        carried: None,
    };
    walk.take_lines(alloc, lines, count, top)?;
    Ok(walk.finish()?)
}

/// What a walk over the lines of a log needs of it.
#[derive(Drop)]
pub(crate) struct Begun {
    pub waiting: LastRecords,
    /// The offset before its next one, unless that is 0.
    pub top: Option<u64>,
    /// The number of its lines without the floor's.
    pub count: u64,
}

fn begin(alloc: Global, log: &[u8]) -> Result<Begun, LogError>
    ensures begun { IfOk result (Begins log.now) }
    ensures fault { IfErr result (HasFault log.now) }
{
    lines_are_logs();
    let read = read_log(alloc, &mut Device::new(log))?;
    let waiting = lasts_of(alloc, &read.records)?;
    Ok(Begun {
        waiting,
        top: read.next.checked_sub(1),
        count: read.records.len() as u64 + read.foreign,
    })
}

/// Returns the last records of some records.
pub(crate) fn lasts_of(alloc: Global, records: &[Record]) -> Result<LastRecords, AllocError>
    ensures { IfOk result (λ lasts. lasts ≡ last_records (from_list records.now)) }
{
    records_are_ordered();
    last_records_of_unions();
    let mut lasts = LastRecords::new(alloc);
    lasts.is_compact();
    for record in records {
        add(&mut lasts, record)?;
    }
    Ok(lasts)
}

fn add(lasts: &mut LastRecords, given: &Record) -> Result<(), AllocError>
    ensures { OnOk result (lasts.new ≡ last_records (insert lasts.old given.now)) }
{
    let _before = lasts.put(given)?;
    Ok(())
}
