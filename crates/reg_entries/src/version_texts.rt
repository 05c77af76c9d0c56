// The versions of entries, with their texts.
ghost use Rattle.std.specs.Prelude.{◌≡◌, IfOk, map};
ghost use Rattle.reg_entries.specs.Sought.{texts_of};
ghost use Rattle.reg_entries.specs.declared.entry.Entry.{Entry};

use crate::entry::Entry;
use std::alloc::{AllocError, Global};

/// Lends the text of each entry, with its version. The only error is out of memory.
pub fn texts_of<'a>(alloc: Global, entries: &[&'a Entry]) -> Result<Vec<(u32, &'a str)>, AllocError>
    ensures texts { IfOk result (λ texts. map (λ old. (old.0, old.1.now)) texts.items ≡ texts_of (map (λ e. e.now) entries.now)) }
    ensures versions { IfOk result (λ texts. map (λ old. old.0) texts.items ≡ map {A = Entry} (λ e. e.version) (map (λ e. e.now) entries.now)) }
{
    let mut texts = Vec::new(alloc);
    for entry in entries {
        texts.push((entry.version, entry.text.as_str()))?;
    }
    Ok(texts)
}
