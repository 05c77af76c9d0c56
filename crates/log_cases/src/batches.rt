// Batches of records.
use base_text::Text;
use reg_records::{Key, Record, ValueText};
use std::alloc::Global;
use test_tools::Made;

/// That many records of no operation, the first at that offset, each with that text or without a value.
pub(crate) fn batch_of(
    alloc: Global,
    first: u64,
    count: u64,
    text: Option<&str>,
) -> Made<Vec<Record>> {
    let mut batch = Vec::new(alloc);
    for k in 0..count {
        batch.push(Record {
            offset: first.saturating_add(k),
            key: Key::Noop,
            value: match text {
                Some(text) => Some(ValueText::from(Text::copy_of(alloc, text)?)),
                None => None,
            },
        })?;
    }
    Ok(batch)
}
