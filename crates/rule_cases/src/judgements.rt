// Judgements in words, how they are made, and what they tell.
use reg_judge::Judge;
use reg_level_names::Level;
use reg_levels::{Judged, JudgedError, LevelVerdict, versions_rise};
use std::alloc::{AllocError, AllocFailed, Global};
use test_tools::{CaseError, Made, Said, cut, small_of};
use test_words::level_of;

/// Why nothing comes of a judgement.
#[derive(Clone, Copy)]
pub(crate) enum Fault {
    Case(CaseError),
    /// A text that is to be judged is no schema's.
    Unjudged(JudgedError),
}

impl From<CaseError> for Fault {
    fn from(error: CaseError) -> Fault {
        Fault::Case(error)
    }
}

impl From<AllocError> for Fault {
    fn from(_refused: AllocError) -> Fault {
        Fault::Case(CaseError::OutOfMemory)
    }
}

impl<T: Drop> From<AllocFailed<T>> for Fault {
    fn from(_refused: AllocFailed<T>) -> Fault {
        Fault::Case(CaseError::OutOfMemory)
    }
}

impl From<JudgedError> for Fault {
    fn from(error: JudgedError) -> Fault {
        Fault::Unjudged(error)
    }
}

/// What came, or which text is no schema.
pub(crate) fn told(alloc: Global, came: Result<String, Fault>) -> Said<String> {
    match came {
        Ok(came) => Ok(came),
        Err(Fault::Unjudged(JudgedError::NewText)) => {
            Ok(String::from_str(alloc, "the new text is no schema")?)
        }
        Err(Fault::Unjudged(JudgedError::OldText(version))) => {
            Ok(format!(in alloc; "version {version} is no schema")?)
        }
        Err(Fault::Unjudged(JudgedError::OutOfMemory)) => Err(CaseError::OutOfMemory),
        Err(Fault::Case(error)) => Err(error),
    }
}

/// What is judged: a level, a new text, and old ones with their versions, which rise.
#[derive(Drop)]
pub(crate) struct Asked<'a> {
    pub(crate) level: Level,
    pub(crate) new_text: &'a str,
    pub(crate) olds: Vec<(u32, &'a str)>,
}

/// What is judged in words, as `LEVEL; NEW; VERSION OLD; VERSION OLD`.
pub(crate) fn asked_of(alloc: Global, words: &str) -> Said<Asked<'_>> {
    let (name, texts) = words.split_once("; ").ok_or(CaseError::NotUnderstood)?;
    let (new_text, rest) = texts.split_once("; ").unwrap_or((texts, ""));
    let mut olds = Vec::new(alloc);
    if !rest.is_empty() {
        for part in rest.split("; ") {
            let (version, text) = cut(part);
            olds.push((small_of(version)?, text))?;
        }
    }
    Ok(Asked {
        level: level_of(name)?,
        new_text,
        olds,
    })
}

/// The judgement on that, by a judge, if there is one.
pub(crate) fn made(
    alloc: Global,
    judge: Option<&mut Judge>,
    asked: &Asked<'_>,
) -> Result<Judged, Fault> {
    let olds = asked.olds.as_slice();
    if !versions_rise(olds) {
        return Err(Fault::Case(CaseError::NotUnderstood));
    }
    match judge {
        Some(judge) => Ok(judge.make(asked.level, asked.new_text, olds)?),
        None => Ok(Judged::make(alloc, asked.level, asked.new_text, olds)?),
    }
}

/// What a verdict tells: `ok`, or the message.
pub(crate) fn verdict_text(alloc: Global, verdict: &LevelVerdict) -> Made<String> {
    let names_a_pair = verdict.version.is_some()
        || verdict.direction.is_some()
        || verdict.trail.is_some();
    match &verdict.message(alloc)? {
        Some(message) if !verdict.ok => String::from_str(alloc, message.as_str()),
        None if verdict.ok && !names_a_pair => String::from_str(alloc, "ok"),
        _ => String::from_str(alloc, "a verdict at odds with itself"),
    }
}
