// Logs in words.
use crate::tally::{Made, cut};
use std::alloc::Global;

fn write_version_key(out: &mut String, subject: &str, version: &str) -> Made<()> {
    write!(
        out,
        "{{\"keytype\":\"SCHEMA\",\"subject\":\"{subject}\",\"version\":{version},\"magic\":1}}\t"
    )
}

fn write_version(out: &mut String, words: &str, deleted: bool) -> Made<()> {
    let (subject, rest) = cut(words);
    let (version, rest) = cut(rest);
    let (id, name) = cut(rest);
    write_version_key(out, subject, version)?;
    write!(
        out,
        "{{\"subject\":\"{subject}\",\"version\":{version},\"id\":{id},\"schema\":\"\\\"{name}\\\"\",\"deleted\":{deleted}}}"
    )
}

/// The key and the value of a setting, whose names in the formats are given.
fn write_setting(out: &mut String, words: &str, keytype: &str, member: &str) -> Made<()> {
    let (scope, name) = cut(words);
    write!(out, "{{\"keytype\":\"{keytype}\",\"subject\":")?;
    match scope {
        "*" => out.push_str("null,\"magic\":0}\t")?,
        _ => write!(out, "\"{scope}\",\"magic\":0}}\t")?,
    }
    match name {
        "-" => out.push_str("null"),
        _ => write!(out, "{{\"{member}\":\"{name}\"}}"),
    }
}

fn write_delete(out: &mut String, words: &str) -> Made<()> {
    let (subject, version) = cut(words);
    write!(
        out,
        "{{\"keytype\":\"DELETE_SUBJECT\",\"subject\":\"{subject}\",\"magic\":0}}\t{{\"subject\":\"{subject}\",\"version\":{version}}}"
    )
}

fn write_mark(out: &mut String, id: &str) -> Made<()> {
    out.push_str("{\"keytype\":\"ID_MARK\",\"magic\":0}\t")?;
    match id {
        "-" => out.push_str("null"),
        _ => write!(out, "{{\"id\":{id}}}"),
    }
}

/// A version's record with another value than a version's.
fn write_other(out: &mut String, words: &str, value: &str) -> Made<()> {
    let (subject, version) = cut(words);
    write_version_key(out, subject, version)?;
    out.push_str(value)
}

/// The key and the value of a record, with a TAB between them. Of no kind there is none.
fn write_fields(out: &mut String, kind: &str, words: &str) -> Made<()> {
    match kind {
        "S" => write_version(out, words, false),
        "X" => write_version(out, words, true),
        "N" => write_other(out, words, "null"),
        "U" => write_other(out, words, "{}"),
        "D" => write_delete(out, words),
        "C" => write_setting(out, words, "CONFIG", "compatibilityLevel"),
        "M" => write_setting(out, words, "MODE", "mode"),
        "I" => write_mark(out, words),
        "O" => out.push_str("{\"keytype\":\"NOOP\",\"magic\":0}\tnull"),
        _ => Ok(()),
    }
}

/// The lines of records in words. A record is a kind, an offset and what the kind has: `S` a subject, version, id and the name of a
/// primitive type; `X` the same, where the value says that it is deleted; `N` a subject and version without a value; `U` one whose
/// value can't be read; `D` a subject and the greatest version of a soft delete; `C` and `M` a scope and the name of a level or a
/// mode, where `*` is all subjects and `-` no value; `I` the id up to which ids were given away, or `-`; `O` is a record of no
/// operation. `F` is a floor.
pub fn log_text(alloc: Global, records: &[&str]) -> Made<String> {
    let mut log = String::new(alloc);
    for words in records {
        let (kind, rest) = cut(words);
        let (offset, rest) = cut(rest);
        if kind == "F" {
            write!(log, "floor\t{offset}\n")?;
            continue;
        }
        write!(log, "{offset}\t")?;
        write_fields(&mut log, kind, rest)?;
        log.push('\n')?;
    }
    Ok(log)
}

/// The rows of records, which begin with a capital letter, and the other ones.
pub fn sorted_rows<'t>(alloc: Global, text: &'t str) -> Made<(Vec<&'t str>, Vec<&'t str>)> {
    let (mut records, mut others) = (Vec::new(alloc), Vec::new(alloc));
    for row in text.lines() {
        match row.as_bytes().first() {
            None | Some(b'#') => {}
            Some(b'A'..=b'Z') => records.push(row)?,
            Some(_) => others.push(row)?,
        }
    }
    Ok((records, others))
}
