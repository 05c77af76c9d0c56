// The records of a batch that others wrote.
ghost use Rattle.std.specs.Prelude.{◌≡◌, ◌++◌, IfOk, OnOk, option_to_list};
ghost use Rattle.std.specs.List.{list_any};
ghost use Rattle.reg_records.specs.Log.{is_foreign, record_in, records_in};
ghost use Rattle.reg_adapter_chain.specs.Batches.{batch_at, begins_at, is_placed};

use reg_records::{Read, Record};
use std::alloc::{AllocError, Global};

/// Returns the records of the lines if all are records and begin at the offset `next`, and
/// otherwise none. The only error is out of memory.
pub(crate) fn records_at(
    alloc: Global,
    next: u64,
    reads: &[Read],
) -> Result<Vec<Record>, AllocError>
    ensures { IfOk result (λ records. records.items ≡ batch_at next reads.now) }
{
    if !is_placed(next, reads) || has_foreign(reads) {
        return Ok(Vec::new(alloc));
    }
    records_of(alloc, reads)
}

/// Returns whether the records begin at the offset `next`; a check always does.
pub(crate) fn begins_at(next: u64, batch: &[Record]) -> bool
    ensures { result ≡ begins_at next batch.now }
{
    match batch {
        [] => true,
        [first, ..] => first.offset == next,
    }
}

fn is_placed(next: u64, reads: &[Read]) -> bool
    ensures { result ≡ is_placed next reads.now }
{
    match reads {
        [] => false,
        [Read::Record(first), ..] => first.offset == next,
        [Read::Foreign(offset), ..] => *offset == next,
    }
}

fn has_foreign(reads: &[Read]) -> bool
    ensures { result ≡ list_any is_foreign reads.now }
{
    reads.iter().any(|read| matches!(read, Read::Foreign(_)))
}

#[tactic(auto, using(crate::proofs::Taking::one_more))]
fn records_of(alloc: Global, reads: &[Read]) -> Result<Vec<Record>, AllocError>
    ensures { IfOk result (λ records. records.items ≡ records_in reads.now) }
{
    let mut records = Vec::new(alloc);
    'reads: for read in reads {
        add_record(&mut records, read)?;
    }
    Ok(records)
}

/// Adds the record that a line is, if it is one. The only error is out of memory.
fn add_record(records: &mut Vec<Record>, read: &Read) -> Result<(), AllocError>
    ensures { OnOk result (records.new.items ≡ records.old.items ++ option_to_list (record_in read.now)) }
{
    if let Read::Record(record) = read {
        records.push(record.clone()?)?;
    }
    Ok(())
}

/// Copies of the records. The only error is out of memory.
pub(crate) fn copies_of(alloc: Global, records: &[Record]) -> Result<Vec<Record>, AllocError>
    ensures { IfOk result (λ copies. copies.items ≡ records.now) }
{
    records.to_vec(alloc)
}
