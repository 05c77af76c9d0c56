// What levels ask for, as checks, judgements and judges tell it, what judgements fit, and what judges keep.
use crate::judgements::{Asked, Fault, asked_of, made, told, verdict_text};
use avro_schema::Schema;
use reg_judge::Judge;
use reg_levels::{JudgedError, LevelVerdict, check, versions_rise};
use std::alloc::{AllocError, Global};
use std::hash::RandomState;
use test_tools::{
    CaseError, Made, Said, Tally, cut, halves, number_of, numbered_text, paragraphs_of, rows_of,
};

fn schema_of(alloc: Global, text: &str, error: JudgedError) -> Result<Schema, Fault> {
    Schema::read_if_any(alloc, text)?.ok_or(Fault::Unjudged(error))
}

/// The verdict of a check of schemas.
fn checked(
    alloc: Global,
    asked: &Asked<'_>,
    new: &Schema,
    schemas: &[(u32, Schema)],
) -> Result<LevelVerdict, Fault> {
    let mut olds = Vec::new(alloc);
    for old in schemas {
        olds.push((old.0, &old.1))?;
    }
    if !versions_rise(&olds) {
        return Err(Fault::Case(CaseError::NotUnderstood));
    }
    Ok(check(alloc, asked.level, new, &olds)?)
}

/// What a check of the schemas tells.
fn by_schemas(alloc: Global, words: &str) -> Result<String, Fault> {
    let asked = asked_of(alloc, words)?;
    let new = schema_of(alloc, asked.new_text, JudgedError::NewText)?;
    let mut schemas = Vec::new(alloc);
    for old in &asked.olds {
        schemas.push((old.0, schema_of(alloc, old.1, JudgedError::OldText(old.0))?))?;
    }
    let verdict = checked(alloc, &asked, &new, &schemas)?;
    Ok(verdict_text(alloc, &verdict.clone()?)?)
}

/// What a check by a judge tells.
fn by_check(alloc: Global, judge: &mut Judge, words: &str) -> Result<String, Fault> {
    let asked = asked_of(alloc, words)?;
    let olds = asked.olds.as_slice();
    if !versions_rise(olds) {
        return Err(Fault::Case(CaseError::NotUnderstood));
    }
    let verdict = judge.check(asked.level, asked.new_text, olds)?;
    Ok(verdict_text(alloc, &verdict)?)
}

/// What a judgement tells, of a judge, if there is one: its verdict, or whether it fits what stands behind the word `fits`.
fn by_judgement(alloc: Global, judge: Option<&mut Judge>, words: &str) -> Result<String, Fault> {
    let (judgement, other) = words.split_once(" fits ").unwrap_or((words, words));
    let judged = made(alloc, judge, &asked_of(alloc, judgement)?)?;
    let asked = asked_of(alloc, other)?;
    match judged.fits(asked.level, asked.new_text, asked.olds.as_slice()) {
        false => Ok(String::from_str(alloc, "no")?),
        true if is_fit(words) => Ok(String::from_str(alloc, "yes")?),
        true => Ok(verdict_text(alloc, judged.verdict())?),
    }
}

/// Whether a row asks what a judgement fits.
fn is_fit(words: &str) -> bool {
    words.contains(" fits ")
}

/// Compares what a judge tells of a row, which is to keep all verdicts.
fn compare(tally: &mut Tally, judge: &mut Judge, row: &str, words: &str, wanted: &str) -> Made<()> {
    let alloc = tally.alloc;
    if !is_fit(words) {
        tally.tell_more(row, wanted, told(alloc, by_check(alloc, judge, words)))?;
    }
    let came = by_judgement(alloc, Some(&mut *judge), words);
    tally.tell_more(row, wanted, told(alloc, came))?;
    match judge.kept_all() {
        true => Ok(()),
        false => tally.compare(row, b"", b"a verdict that isn't kept"),
    }
}

/// Counts a row without a judge, or compares what the judge tells of it.
fn try_row(tally: &mut Tally, judge: Option<&mut Judge>, row: &str) -> Made<()> {
    let alloc = tally.alloc;
    let text = numbered_text(alloc, row)?;
    let (words, wanted) = halves(text.as_str());
    if let Some(judge) = judge {
        return compare(tally, judge, row, words, wanted);
    }
    tally.tell(row, wanted, told(alloc, by_judgement(alloc, None, words)))?;
    if is_fit(words) {
        return Ok(());
    }
    tally.tell_more(row, wanted, told(alloc, by_schemas(alloc, words)))
}

/// Tries each row, and then twice all of them with judges that keep less and more.
pub(crate) fn try_verdicts(tally: &mut Tally, keys: RandomState, text: &str) -> Made<()> {
    let rows = rows_of(tally.alloc, text)?;
    for row in &rows {
        try_row(tally, None, row)?;
    }
    for capacity in [1, 2, 100] {
        let made = Judge::new(tally.alloc, keys, capacity, capacity);
        let mut judge = made.ok().ok_or(AllocError)?;
        for _ in 0..2 {
            for row in &rows {
                try_row(tally, Some(&mut judge), row)?;
            }
        }
    }
    Ok(())
}

/// What comes of what a judge is asked.
fn asked_by(alloc: Global, judge: &mut Judge, words: &str) -> Said<String> {
    if let Some(texts) = words.strip_prefix("has ") {
        let (reader, writer) = texts.split_once("; ").ok_or(CaseError::NotUnderstood)?;
        let has = judge.has(reader, writer);
        return Ok(String::from_str(alloc, if has { "yes" } else { "no" })?);
    }
    match words.strip_prefix("make ") {
        Some(judgement) => told(alloc, by_judgement(alloc, Some(judge), judgement)),
        None => told(alloc, by_check(alloc, judge, words)),
    }
}

/// Tries the rows below the one of a judge, which is lent, so that it hasn't to be dropped on the way.
fn ask_judge(tally: &mut Tally, judge: &mut Judge, first: &str, rows: &[&str]) -> Made<()> {
    let (_words, wanted) = halves(first);
    tally.count(first, wanted.as_bytes(), b"made")?;
    for row in rows {
        let (words, wanted) = halves(row);
        tally.tell(row, wanted, asked_by(tally.alloc, judge, words))?;
    }
    Ok(())
}

/// Tries a judge that is to keep what a row says, and the rows below it.
fn try_judge(tally: &mut Tally, keys: RandomState, first: &str, rows: &[&str]) -> Made<()> {
    let alloc = tally.alloc;
    let (words, wanted) = halves(first);
    let (schemas, verdicts) = cut(words.strip_prefix("judge ").unwrap_or(""));
    let (Ok(schemas), Ok(verdicts)) = (number_of(schemas), number_of(verdicts)) else {
        return tally.refuse(first);
    };
    match Judge::new(alloc, keys, schemas as usize, verdicts as usize) {
        Ok(mut judge) => ask_judge(tally, &mut judge, first, rows),
        Err(error) => tally.tell(first, wanted, Ok(format!(in alloc; "{error:?}")?)),
    }
}

/// Tries the judge of each paragraph.
pub(crate) fn try_judges(tally: &mut Tally, keys: RandomState, text: &str) -> Made<()> {
    for paragraph in &paragraphs_of(tally.alloc, text)? {
        tally.begin(paragraph)?;
        let rows = rows_of(tally.alloc, paragraph)?;
        match rows.split_first() {
            Some((first, rest)) => try_judge(tally, keys, first, rest)?,
            None => tally.refuse(paragraph)?,
        }
    }
    Ok(())
}
