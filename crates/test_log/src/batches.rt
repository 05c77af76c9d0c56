// Batches of records, and the files that have them.
ghost use Rattle.std.specs.Prelude.{All, IfOk};
ghost use Rattle.reg_records.specs.Written.{HasLine};

use base_text::Text;
use reg_records::{Key, Record, ValueText, has_line, write_line};
use std::alloc::Global;
use std::test::Fail;
use test_tools::Made;

/// That many records of no operation, the first at that offset.
pub(crate) fn batch_of(alloc: Global, first: u64, count: u64) -> Made<Vec<Record>>
    ensures { IfOk result (λ batch. All HasLine batch.items) }
{
    let mut batch = Vec::new(alloc);
    for k in 0..count {
        let record = Record {
            offset: first.saturating_add(k),
            key: Key::Noop,
            value: Some(ValueText::from(Text::copy_of(alloc, "1")?)),
        };
        if has_line(&record) {
            batch.push(record)?;
        }
    }
    Ok(batch)
}

/// Lines and an empty one.
pub(crate) fn file_of(alloc: Global, batch: &[Record]) -> Result<Vec<u8>, Fail>
    requires { All HasLine batch.now }
{
    let mut file = Vec::new(alloc);
    for record in batch {
        file.extend_from_slice(&write_line(alloc, record)?)?;
    }
    file.push(b'\n')?;
    Ok(file)
}
