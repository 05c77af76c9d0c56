// The foreign lines of a log, by the keytypes of their keys.
ghost use Rattle.std.specs.Prelude.{◌≡◌, ◌≤◌, ◌+◌, ◌++◌, ◌∷◌, [], ℕ, List, Ok, Some, IfOk, IfSome, OnOk, length, option_map, codes};
ghost use Rattle.std.specs.List.{slice_get, slice_split};
ghost use Rattle.serde_json.specs.View.{view};
ghost use Rattle.reg_fold.specs.reg_records.Json.{text_at};
ghost use Rattle.reg_fold.specs.reg_records.Line.{is_tab, reading};
ghost use Rattle.reg_fold.specs.reg_records.Log.{IsLogOf, LogText, log_of};
ghost use Rattle.reg_fold.specs.reg_records.declared.record.Read.{Read};
ghost use Rattle.reg_compaction.specs.Fronts.{Front, HasLines};
ghost use Rattle.reg_inspection.specs.Foreign.{foreign_keytypes, foreign_tally, keytype_in, tally_of};

use reg_compaction::{floor_len, line_at};
use reg_fold::base_text::Text;
use reg_fold::reg_records::{Log, Read, lines_are_of_the_grammar, parse, text_at};
use reg_journal::lines_are_logs;
use serde_json::Value as Json;
use std::alloc::{AllocError, Global};
use std::collections::BTreeMap;

/// Returns the number of foreign lines of each keytype in a text, from which that log was read.
pub(crate) fn foreign_in(
    alloc: Global,
    text: &[u8],
    log: &Log,
) -> Result<BTreeMap<Option<Text>, u64>, AllocError>
    ensures { (found : LogText) → log_of text.now ≡ Ok found → IsLogOf found.floor found.reads log.now
        → IfOk result (λ tally. tally.entries ≡ foreign_tally text.now) }
{
    lines_are_logs();
    let count = (log.records.len() as u64).saturating_add(log.foreign);
    let (_, lines) = text.split_at(floor_len(text));
    let keytypes = keytypes_in(alloc, lines, count)?;
    tally_of(alloc, &keytypes)
}

/// Returns the keytypes of the foreign lines among the first `count` lines of a text.
fn keytypes_in(alloc: Global, text: &[u8], count: u64) -> Result<Vec<Option<Text>>, AllocError>
    ensures { (lines : List (List ℕ)) (read : List Read) → HasLines text.now lines read count
        → IfOk result (λ found. found.items ≡ foreign_keytypes lines) }
{
    let mut found = Vec::new(alloc);
    let mut rest = text;
    for _line in 0..count {
        let Some(len) = push_front(alloc, &mut found, rest)? else {
            return Ok(found);
        };
        rest = &rest[len..];
    }
    Ok(found)
}

/// Adds the keytype of the line at the front of a text if that is foreign. Returns its length in
/// bytes, with its LF; `None` if it has a fault.
fn push_front(
    alloc: Global,
    found: &mut Vec<Option<Text>>,
    text: &[u8],
) -> Result<Option<usize>, AllocError>
    ensures within { IfOk result (λ len. IfSome len (λ n. n ≤ length text.now)) }
    ensures pushed { (f : Front text.now) → IfOk result (λ len. (len ≡ Some (length f.line + 1))
        × (found.new.items ≡ found.old.items ++ foreign_keytypes (f.line ∷ []))) }
{
    let Some((len, read)) = line_at(alloc, text)? else {
        return Ok(None);
    };
    push_keytype(alloc, found, &text[..len - 1], &read)?;
    Ok(Some(len))
}

/// Adds the keytype of a line (without its LF), which says `read`, if it is foreign.
fn push_keytype(
    alloc: Global,
    found: &mut Vec<Option<Text>>,
    line: &[u8],
    read: &Read,
) -> Result<(), AllocError>
    ensures { reading line.now ≡ Ok read.now → OnOk result (found.new.items ≡ found.old.items ++ foreign_keytypes (line.now ∷ [])) }
{
    match read {
        Read::Record(_) => Ok(()),
        Read::Foreign(_) => {
            found.push(keytype_in(alloc, line)?)?;
            Ok(())
        }
    }
}

/// Returns the text `keytype` of the key of a line (without its LF), if it has one.
fn keytype_in(alloc: Global, line: &[u8]) -> Result<Option<Text>, AllocError>
    ensures { (read : Read) → reading line.now ≡ Ok read → IfOk result (λ keytype. keytype ≡ keytype_in line.now) }
{
    lines_are_of_the_grammar();
    match str::from_utf8(line) {
        Ok(line) => keytype_of(alloc, line),
        Err(_) => Ok(None),
    }
}

fn keytype_of(alloc: Global, line: &str) -> Result<Option<Text>, AllocError>
    ensures { IfOk result (λ keytype. keytype ≡ keytype_in line.now) }
{
    let Some(key) = key_in(line) else {
        return Ok(None);
    };
    match parse(alloc, key)? {
        Some(json) => keytype_at(alloc, &json),
        None => Ok(None),
    }
}

fn keytype_at(alloc: Global, json: &Json) -> Result<Option<Text>, AllocError>
    ensures { IfOk result (λ keytype. keytype ≡ text_at (codes "keytype") (view json.now)) }
{
    match text_at(json, "keytype") {
        Some(keytype) => Ok(Some(Text::copy_of(alloc, keytype)?)),
        None => Ok(None),
    }
}

/// Returns the second field of a line.
fn key_in(line: &str) -> Option<&str>
    ensures { option_map (λ key. key.now) result ≡ slice_get (slice_split is_tab line.now) 1 }
{
    match line.split_once('\t') {
        Some((_, rest)) => Some(first_field(rest)),
        None => None,
    }
}

/// Returns the first field of a text.
fn first_field(text: &str) -> &str
    ensures { slice_get (slice_split is_tab text.now) 0 ≡ Some result.now }
{
    match text.split_once('\t') {
        Some((field, _)) => field,
        None => text,
    }
}

/// Counts each of the keytypes.
fn tally_of(
    alloc: Global,
    keytypes: &[Option<Text>],
) -> Result<BTreeMap<Option<Text>, u64>, AllocError>
    ensures { IfOk result (λ tally. tally.entries ≡ tally_of keytypes.now) }
{
    let mut tally = BTreeMap::new(alloc);
    for keytype in keytypes {
        let count: u64 = tally.get(keytype).copied().unwrap_or(0);
        tally.insert(keytype.clone()?, count + 1)?;
    }
    Ok(tally)
}
