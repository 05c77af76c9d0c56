// Sets beside plain ones, on lines that are drawn and on wide ones.
use super::plain::PlainSet;
use crate::lines::{Line, Log};
use reg_records::{LogError, Record};
use reg_set::{LastRecords, RecordSet, TakeOutcome, keeps_lasts};
use std::alloc::Global;
use test_tools::{Draws, Made};

/// Keys by the bytes of their texts. Some subjects share a beginning, and some have what JSON escapes,
/// or what stands before the quote that ends a text.
static KEYS: [&str; 26] = [
    r#"{"keytype":"CONFIG","subject":"","magic":0}"#,
    r#"{"keytype":"CONFIG","subject":"s!","magic":0}"#,
    r#"{"keytype":"CONFIG","subject":"s","magic":0}"#,
    r#"{"keytype":"CONFIG","subject":null,"magic":0}"#,
    r#"{"keytype":"DELETE_SUBJECT","subject":"","magic":0}"#,
    r#"{"keytype":"DELETE_SUBJECT","subject":"s","magic":0}"#,
    r#"{"keytype":"DELETE_SUBJECT","subject":"s\n","magic":0}"#,
    r#"{"keytype":"ID_MARK","magic":0}"#,
    r#"{"keytype":"MODE","subject":"s\"","magic":0}"#,
    r#"{"keytype":"MODE","subject":"sé","magic":0}"#,
    r#"{"keytype":"MODE","subject":null,"magic":0}"#,
    r#"{"keytype":"NOOP","magic":0}"#,
    r#"{"keytype":"SCHEMA","subject":"","version":1,"magic":1}"#,
    r#"{"keytype":"SCHEMA","subject":"","version":10,"magic":1}"#,
    r#"{"keytype":"SCHEMA","subject":"s ","version":1,"magic":1}"#,
    r#"{"keytype":"SCHEMA","subject":"s!","version":1,"magic":1}"#,
    r#"{"keytype":"SCHEMA","subject":"s!","version":9,"magic":1}"#,
    r#"{"keytype":"SCHEMA","subject":"s","version":1,"magic":1}"#,
    r#"{"keytype":"SCHEMA","subject":"s","version":10,"magic":1}"#,
    r#"{"keytype":"SCHEMA","subject":"s","version":100,"magic":1}"#,
    r#"{"keytype":"SCHEMA","subject":"s","version":2147483647,"magic":1}"#,
    r#"{"keytype":"SCHEMA","subject":"s","version":9,"magic":1}"#,
    r#"{"keytype":"SCHEMA","subject":"s\"","version":100,"magic":1}"#,
    r#"{"keytype":"SCHEMA","subject":"s\n","version":9,"magic":1}"#,
    r#"{"keytype":"SCHEMA","subject":"sé","version":1,"magic":1}"#,
    r#"{"keytype":"SCHEMA","subject":"sé","version":10,"magic":1}"#,
];

/// Lines with few keys and with offsets below the limit.
fn drawn(alloc: Global, draws: &mut Draws, count: usize, offsets: u64) -> Made<Log> {
    let mut log = Log::new(alloc);
    for _ in 0..count {
        let key = KEYS.get(draws.place(KEYS.len())).copied().unwrap_or("");
        let offset = draws.below(offsets);
        let value = ["null", "{}", "a text"].get(draws.place(3)).copied();
        log.push(alloc, offset, key, value.unwrap_or("null"))?;
    }
    Ok(log)
}

/// Whether a set has the records of those lines, in their order.
fn has_lines(set: &RecordSet, lines: &[Line]) -> Made<bool> {
    let records = set.records()?;
    let are_same = records
        .iter()
        .zip(lines)
        .all(|(record, line)| record == line.record);
    Ok(are_same && records.len() == lines.len())
}

/// Sets of the same records.
#[derive(Drop)]
struct Both<'a> {
    set: RecordSet,
    lasts: LastRecords,
    plain: PlainSet<'a>,
}

impl<'a> Both<'a> {
    fn new(alloc: Global) -> Both<'a> {
        Both {
            set: RecordSet::new(alloc),
            lasts: LastRecords::new(alloc),
            plain: PlainSet::new(alloc),
        }
    }

    /// Takes a line's record, and tells whether the answers are alike.
    fn take(&mut self, line: Line<'a>) -> Made<bool> {
        let are_put_alike = self.put(line)?;
        let is_news = self.lasts.is_news(line.record);
        self.lasts.put(line.record)?;
        let taken = self.plain.take(line)?;
        Ok(
            are_put_alike
                && self.set.take(line.record)? == taken
                && is_news == (taken == TakeOutcome::Fresh)
                && self.have_one_last(line)
                && self.remove(line)?,
        )
    }

    /// Puts a record into the last ones and takes it back, and tells whether the answers are alike.
    fn put(&mut self, line: Line<'a>) -> Made<bool> {
        let record = line.record;
        let last = self.plain.last(line.key);
        if !self.lasts.is_news(record) {
            let is_last = last == Some(record);
            return Ok(self.lasts.put(record)?.is_none() && self.lasts.contains(record) == is_last);
        }
        let before = self.lasts.put(record)?;
        let is_told = are_equal(before.as_ref(), last) && self.lasts.contains(record);
        self.lasts.put_back(&record.key, before);
        Ok(is_told && are_equal(self.lasts.last(&record.key), last))
    }

    /// Removes a record from the last ones and puts it again, and tells whether its key was without one
    /// meanwhile; a record that isn't a last one removes no other.
    fn remove(&mut self, line: Line<'a>) -> Made<bool> {
        let stood = self.lasts.contains(line.record);
        self.lasts.remove(line.record);
        let left = self.lasts.last(&line.record.key);
        if !stood {
            return Ok(are_equal(left, self.plain.last(line.key)));
        }
        let is_gone = left.is_none();
        self.lasts.put(line.record)?;
        Ok(is_gone)
    }

    fn have_one_last(&self, line: Line<'a>) -> bool {
        let last = self.plain.last(line.key);
        self.set.last(&line.record.key) == last && self.lasts.last(&line.record.key) == last
    }

    /// Takes lines in turn, and tells whether the answers are alike, and the set is that of all their records at once.
    fn take_all(&mut self, alloc: Global, taking: Taking<'a>) -> Made<bool> {
        for line in taking.lines {
            if !self.take(*line)? {
                return Ok(false);
            }
        }
        let at_once = RecordSet::of(alloc, taking.records)?;
        Ok(self.are_same()? && has_lines(&at_once, &self.plain.lines)?)
    }

    fn are_same(&self) -> Made<bool> {
        has_lines(&self.set, &self.plain.lines)
    }

    fn contain_alike(&self, lines: &[Line<'a>]) -> bool {
        for line in lines {
            if self.set.contains(line.record) != self.plain.contains(*line) {
                return false;
            }
        }
        true
    }

    fn keep_lasts_alike(&self, whole: &Both<'a>) -> bool {
        keeps_lasts(&self.set, &whole.set) == self.plain.keeps_lasts(&whole.plain)
    }

    /// Merges with sets of further lines, and tells whether the answers are alike.
    fn merge_alike(&mut self, added: &Both<'a>, lines: &[Line<'a>]) -> Made<bool> {
        let are_alike = self.contain_alike(lines) && self.keep_lasts_alike(added);
        self.set.merge(&added.set)?;
        self.plain.merge(&added.plain)?;
        Ok(are_alike && added.keep_lasts_alike(self) && self.are_same()?)
    }

    /// Compacts the sets, and tells whether the answers are alike.
    fn compact_alike(&mut self, alloc: Global) -> Made<bool> {
        let whole = self.set.clone()?;
        self.set.compact();
        self.plain.compact(alloc)?;
        let lasts = LastRecords::of(&self.set)?;
        let count = lasts.records(alloc)?.len();
        Ok(keeps_lasts(&self.set, &whole) && count == self.plain.lines.len() && self.are_same()?)
    }
}

/// Lines in some order, and their records.
#[derive(Clone, Copy)]
struct Taking<'a> {
    lines: &'a [Line<'a>],
    records: &'a [Record],
}

/// Takes lines, then merges with sets of others, and tells whether the answers are alike.
fn join_alike<'a>(
    alloc: Global,
    both: &mut Both<'a>,
    added: &mut Both<'a>,
    takings: (Taking<'a>, Taking<'a>),
) -> Made<bool> {
    let (one, other) = takings;
    Ok(
        both.take_all(alloc, one)?
            && added.take_all(alloc, other)?
            && both.merge_alike(added, other.lines)?
            && both.compact_alike(alloc)?,
    )
}

/// Whether taking, merging and compacting leave the same, and what keeps the last records of what.
fn are_alike(alloc: Global, one: Taking, other: Taking) -> Made<bool> {
    let mut both = Both::new(alloc);
    let mut added = Both::new(alloc);
    join_alike(alloc, &mut both, &mut added, (one, other))
}

fn logs_alike(alloc: Global, one: &Log, other: &Log) -> Result<bool, LogError> {
    let (records, others) = (one.records(alloc)?, other.records(alloc)?);
    let lines = one.lines(alloc, &records)?;
    let other_lines = other.lines(alloc, &others)?;
    let one = Taking {
        lines: &lines,
        records: &records,
    };
    let other = Taking {
        lines: &other_lines,
        records: &others,
    };
    Ok(are_alike(alloc, one, other)?)
}

fn drawn_alike(
    alloc: Global,
    draws: &mut Draws,
    count: usize,
    offsets: u64,
) -> Result<bool, LogError> {
    let one = drawn(alloc, draws, count, offsets)?;
    let other = drawn(alloc, draws, 30, offsets)?;
    logs_alike(alloc, &one, &other)
}

#[test]
fn drawn_lines_give_the_same_answers(rt: HostRuntime) {
    let mut draws = Draws::new(2026);
    for offsets in [1, 3, 40, 1_000_000] {
        for count in [0, 1, 5, 60] {
            let found = drawn_alike(rt.alloc(), &mut draws, count, offsets);
            assert!(rt; found == Ok(true), "{count} below {offsets}");
        }
    }
}

/// Whether a set of records of all keys at one offset has them in the order of the keys, taken from the
/// last to the first.
fn keys_stand_in_order(alloc: Global) -> Result<bool, LogError> {
    let mut rising = Log::new(alloc);
    let mut falling = Log::new(alloc);
    for key in &KEYS {
        rising.push(alloc, 7, key, "null")?;
    }
    for key in KEYS.iter().rev() {
        falling.push(alloc, 7, key, "null")?;
    }
    let set = RecordSet::of(alloc, &falling.records(alloc)?)?;
    Ok(set.records()? == rising.records(alloc)?)
}

#[test]
fn keys_of_one_offset_stand_by_their_texts(rt: HostRuntime) {
    assert!(rt; keys_stand_in_order(rt.alloc()) == Ok(true));
}

/// Versions from the first to the last, or the other way round, at one offset or at many.
pub(super) fn wide(alloc: Global, count: u64, spread: u64, is_rising: bool) -> Made<Log> {
    let mut log = Log::new(alloc);
    for place in 0..count {
        let version = if is_rising {
            place.saturating_add(1)
        } else {
            count.saturating_sub(place)
        };
        let key = format!(in alloc;
            r#"{{"keytype":"SCHEMA","subject":"wide","version":{version},"magic":1}}"#
        )?;
        log.push(alloc, version.wrapping_mul(spread), key.as_str(), "null")?;
    }
    Ok(log)
}

#[test]
fn wide_sets_give_the_same_answers(rt: HostRuntime) {
    for (spread, is_rising) in [(0, true), (0, false), (1, true), (1, false)] {
        let found = wide_alike(rt.alloc(), spread, is_rising);
        assert!(rt; found == Ok(true), "{spread}");
    }
}

fn wide_alike(alloc: Global, spread: u64, is_rising: bool) -> Result<bool, LogError> {
    let log = wide(alloc, 149, spread, is_rising)?;
    logs_alike(alloc, &log, &log)
}

/// Whether two records are the same one, or neither is there.
fn are_equal(left: Option<&Record>, right: Option<&Record>) -> bool {
    match (left, right) {
        (Some(left), Some(right)) => left == right,
        (None, None) => true,
        _ => false,
    }
}
