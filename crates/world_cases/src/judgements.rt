// What a node's view judges of commands, beside what is judged of the same texts without it.
use crate::nodes::{Peer, Visit};
use crate::topics::Place;
use base_text::Text;
use reg_fold::Registry;
use reg_judge::Judge;
use reg_leader::Command;
use reg_level_names::Level;
use reg_levels::{Judged, versions_rise};
use reg_node::Case;
use std::alloc::{AllocError, Global};
use std::hash::RandomState;
use test_tools::{Made, Said, cut, parted, small_of};
use test_words::{command_in_words, level_of, log_of, registry_of, schema_of};

/// A command that is judged by a view of a node that took the topic, and what the view shows of it.
#[derive(Drop)]
struct Showing<'x> {
    asked: &'x Command,
    judge: &'x mut Judge,
    case: Option<Case>,
    judged: Option<Judged>,
}

impl<'x> Visit for Showing<'x> {
    fn meet<A: Peer>(&mut self, node: &mut A) -> Made<()> {
        let _takes = node.take()?;
        node.renew()?;
        let (case, judged) = node.judge(self.asked, self.judge)?;
        self.case = case;
        self.judged = judged;
        Ok(())
    }
}

/// What a view shows of the command.
fn shown_of<P: Place>(
    alloc: Global,
    place: &P,
    asked: &Command,
    judge: &mut Judge,
) -> Made<(Option<Case>, Option<Judged>)> {
    let mut showing = Showing {
        asked,
        judge,
        case: None,
        judged: None,
    };
    place.with_node(alloc, &mut showing)?;
    Ok((showing.case, showing.judged))
}

/// What a text is judged at: a level, the text in its normal form, and old versions, each with its text.
#[derive(Drop)]
struct Judgement {
    level: Level,
    new_text: Text,
    olds: Vec<(u32, Text)>,
}

/// The judgement of those words.
fn judgement_of(alloc: Global, words: &str) -> Said<Judgement> {
    let (level, rest) = cut(words);
    let (text, rest) = cut(rest);
    let mut olds = Vec::new(alloc);
    let mut rest = rest;
    for _old in 0..rest.len() {
        if rest.is_empty() {
            break;
        }
        let (version, behind) = cut(rest);
        let (word, behind) = cut(behind);
        olds.push((small_of(version)?, schema_of(alloc, word)?))?;
        rest = behind;
    }
    Ok(Judgement {
        level: level_of(level)?,
        new_text: schema_of(alloc, text)?,
        olds,
    })
}

/// Whether a judgement is made of these, and has the verdict that they have plainly.
fn is_plain(alloc: Global, judged: &Judged, of: &Judgement) -> Made<bool> {
    let mut olds = Vec::new(alloc);
    for (version, text) in &of.olds {
        olds.push((*version, text.as_str()))?;
    }
    if !versions_rise(&olds) || !judged.fits(of.level, of.new_text.as_str(), &olds) {
        return Ok(false);
    }
    match Judged::make(alloc, of.level, of.new_text.as_str(), &olds) {
        Ok(plain) => tell_alike(alloc, judged, &plain),
        Err(_) => Ok(false),
    }
}

fn tell_alike(alloc: Global, one: &Judged, other: &Judged) -> Made<bool> {
    let told = one.verdict().message(alloc)?;
    Ok(other.verdict().message(alloc)? == told)
}

/// What another thread may be given, as a desk's judge is.
fn moved<T: Send>(given: T) -> T {
    given
}

/// A judge that keeps a few schemas, and so many verdicts.
pub(crate) fn judge_of(alloc: Global, keys: RandomState, verdicts: usize) -> Made<Judge> {
    match Judge::new(alloc, keys, 16, verdicts) {
        Ok(judge) => Ok(moved(judge)),
        Err(_) => Err(AllocError),
    }
}

/// The words that are wanted where what is judged is what they say; else what there is.
fn judged_text(alloc: Global, judged: &Option<Judged>, wanted: &str) -> Said<String> {
    let Some(judged) = judged else {
        return Ok(String::from_str(alloc, "no judgement")?);
    };
    let is_plain = is_plain(alloc, judged, &judgement_of(alloc, wanted)?)?;
    Ok(String::from_str(
        alloc,
        if is_plain {
            wanted
        } else {
            "another judgement"
        },
    )?)
}

/// What the case of the same registration that is made anew over the registry is judged at, if it stands there.
fn anew_text(
    alloc: Global,
    case: Case,
    registry: &Registry,
    judge: &mut Judge,
    wanted: &str,
) -> Said<String> {
    let mut anew = case.anew(registry)?;
    if !anew.stands(registry)? {
        return Ok(String::from_str(alloc, "nothing that stands there")?);
    }
    judged_text(alloc, &anew.judged(judge).ok(), wanted)
}

/// Whether the case stands over the registry of those records, and what it is judged at there.
fn standing_text(
    alloc: Global,
    case: Case,
    records: &str,
    judge: &mut Judge,
    wanted: &str,
) -> Said<String> {
    let registry = registry_over(alloc, records)?;
    let standing = if case.stands(&registry)? {
        "stands"
    } else {
        "changed"
    };
    let (_standing, wanted) = cut(wanted);
    let judged = anew_text(alloc, case, &registry, judge, wanted)?;
    Ok(format!(in alloc; "{standing} {judged}")?)
}

/// The registry over those records.
fn registry_over(alloc: Global, records: &str) -> Said<Registry> {
    let log = log_of(alloc, &parted(alloc, records)?)?;
    Ok(registry_of(alloc, &log.records)?)
}

/// What a view judges of the command; behind ` over `, what becomes of its case over the records of another time.
pub(crate) fn judge_text<P: Place>(
    alloc: Global,
    place: &P,
    judge: &mut Judge,
    words: &str,
    wanted: &str,
) -> Said<String> {
    let (command, records) = words.split_once(" over ").unwrap_or((words, ""));
    let asked = command_in_words(alloc, command)?;
    let (case, judged) = shown_of(alloc, place, &asked, judge)?;
    match case {
        Some(case) if !records.is_empty() => standing_text(alloc, case, records, judge, wanted),
        None if judged.is_none() => Ok(String::from_str(alloc, "nothing")?),
        _ => judged_text(alloc, &judged, wanted),
    }
}

/// Whether the judge has the verdict of two texts.
pub(crate) fn has_text(alloc: Global, judge: &Judge, texts: &str) -> Said<String> {
    let (reader, writer) = cut(texts);
    let (reader, writer) = (schema_of(alloc, reader)?, schema_of(alloc, writer)?);
    let has = judge.has(reader.as_str(), writer.as_str());
    Ok(String::from_str(alloc, if has { "yes" } else { "no" })?)
}
