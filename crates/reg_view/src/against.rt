// The grounds on which a new schema of a subject is judged.
ghost use Rattle.std.specs.Prelude.{◌≡◌, ◌↔◌, None, Some, true, IsTrue, IfErr, IfOk, IfSome, map};
ghost use Rattle.avro_schema.specs.Schema.{schema_of};
ghost use Rattle.reg_levels.specs.Judgement.{IsMadeOf, IsTrueVerdict, first_unread};
ghost use Rattle.reg_levels.specs.JudgedError.{IsJudgedRefusal};
ghost use Rattle.reg_levels.specs.RequiredPairs.{HasRisingVersions};
ghost use Rattle.reg_entries.specs.Sought.{texts_of};
ghost use Rattle.reg_view.specs.Judging.{against};

use avro_schema::Schema;
use base_text::{Listed, Text};
use reg_fold::{Entry, Registry};
use reg_judge::Judge;
use reg_level_names::Level;
use reg_levels::{Judged, JudgedError, LevelVerdict, check_read_texts, lend_texts, looked_at};
use reg_rules::{live_looked_at, live_versions_are_read};
use std::alloc::{AllocError, Global};
use std::marker::Model;

/// The longest text, in bytes, for which the judge's cache is used.
const LONGEST_KEPT: usize = 4_096;

/// What a new schema of a subject is checked against: the level in force, and the live versions
/// that this level looks at, with copies of their texts.
#[derive(Debug, Drop)]
pub(crate) struct Against {
    level: Level,
    olds: Listed<(u32, Text)>,
}

impl Model for Against {
    ghost use Rattle.std.specs.Prelude.{◌≡◌, None};
    ghost use Rattle.reg_levels.specs.Judgement.{first_unread};
    ghost use Rattle.reg_levels.specs.RequiredPairs.{HasRisingVersions};
    ghost use Rattle.reg_view.specs.Judging.{Standing};

    ghost Value = { Standing };

    ghost view = { λ a. record { level = a.level; olds = a.olds } };

    // Each of these texts is a schema.
    ghost invariant = { λ a. HasRisingVersions a.olds × (first_unread a.olds ≡ None) };
}

impl Against {
    /// Copies from a registry what a new schema of the subject is checked against. The only error
    /// is out of memory.
    pub(crate) fn over(
        alloc: Global,
        registry: &Registry,
        subject: &Text,
    ) -> Result<Against, AllocError>
        ensures { IfOk result (λ made. made ≡ against registry.now subject.now) }
    {
        live_versions_are_read();
        let level = registry.level(Some(subject.as_str()));
        let looked_at = live_looked_at(alloc, registry, subject.as_str(), level)?;
        let olds = copy_texts(alloc, &looked_at)?;
        Ok(Against { level, olds })
    }

    /// Returns whether a new schema of the subject would be checked against the same over this
    /// registry. Versions that the level doesn't look at don't matter. The only error is out of
    /// memory.
    pub(crate) fn stands(
        &self,
        alloc: Global,
        registry: &Registry,
        subject: &Text,
    ) -> Result<bool, AllocError>
        ensures { IfOk result (λ yes. (yes ≡ true) ↔ (against registry.now subject.now ≡ self.now)) }
    {
        if registry.level(Some(subject.as_str())) != self.level {
            return Ok(false);
        }
        let looked_at = live_looked_at(alloc, registry, subject.as_str(), self.level)?;
        Ok(are_texts_of(self.olds.as_slice(), &looked_at))
    }

    /// Judges a new schema. Old texts are read, or taken from the judge's cache; the new text isn't
    /// read if `new` has its schema. Refused if a text isn't a schema, the new one first, or if
    /// memory is refused.
    pub(crate) fn judged(
        &self,
        alloc: Global,
        new_text: &Text,
        new: Option<Schema>,
        judge: &mut Judge,
    ) -> Result<Judged, JudgedError>
        requires { IfSome new (λ schema. schema_of new_text.now ≡ Some schema) }
        ensures made { IfOk result (λ j. IsMadeOf j self.now.level new_text.now self.now.olds) }
        ensures refused { IfErr result (IsJudgedRefusal new_text.now self.now.olds) }
        ensures capacities { judge.new.capacities ≡ judge.old.capacities }
    {
        let olds = lend_texts(alloc, self.olds.as_slice())?;
        let verdict = verdict_on(alloc, self.level, new_text.as_str(), new, &olds, judge)?;
        let kept_text = new_text.clone()?;
        let kept_olds = self.olds.clone()?;
        Ok(Judged::of_parts(self.level, kept_text, kept_olds, verdict))
    }
}

/// Returns the verdict on a new schema. The judge's cache is used if no text that counts is longer
/// than 4,096 bytes, else none is.
fn verdict_on(
    alloc: Global,
    level: Level,
    new_text: &str,
    new: Option<Schema>,
    olds: &[(u32, &str)],
    judge: &mut Judge,
) -> Result<LevelVerdict, JudgedError>
    requires new { IfSome new (λ schema. schema_of new_text.now ≡ Some schema) }
    requires rising { HasRisingVersions olds.now }
    requires read { first_unread (map (λ old. (old.0, old.1.now)) olds.now) ≡ None }
    ensures verdict { IfOk result (IsTrueVerdict level new_text.now (map (λ old. (old.0, old.1.now)) olds.now)) }
    ensures refused { IfErr result (IsJudgedRefusal new_text.now (map (λ old. (old.0, old.1.now)) olds.now)) }
    ensures capacities { judge.new.capacities ≡ judge.old.capacities }
{
    if is_kept(new_text) && looked_at(level, olds).iter().all(|old| is_kept(old.1)) {
        return judge.check_read(level, new_text, new, olds);
    }
    let Some(new) = given_or_read(alloc, new_text, new)? else {
        return Err(JudgedError::NewText);
    };
    Ok(check_read_texts(alloc, level, &new, olds)?)
}

/// Returns the given schema, or reads the text's; `None` if the text isn't a schema. The only error
/// is out of memory.
fn given_or_read(
    alloc: Global,
    text: &str,
    given: Option<Schema>,
) -> Result<Option<Schema>, AllocError>
    requires { IfSome given (λ schema. schema_of text.now ≡ Some schema) }
    ensures { IfOk result (λ found. found ≡ schema_of text.now) }
{
    match given {
        Some(schema) => Ok(Some(schema)),
        None => Schema::read_if_any(alloc, text),
    }
}

/// Returns whether the text is short enough for the judge's cache.
fn is_kept(text: &str) -> bool {
    text.len() <= LONGEST_KEPT
}

/// Copies the versions and texts of the entries. The only error is out of memory.
fn copy_texts(alloc: Global, entries: &[&Entry]) -> Result<Listed<(u32, Text)>, AllocError>
    ensures { IfOk result (λ olds. olds ≡ texts_of (map (λ e. e.now) entries.now)) }
{
    let mut olds = Vec::new(alloc);
    for entry in entries {
        olds.push((entry.version, entry.text.clone()?))?;
    }
    Ok(Listed::from(olds))
}

/// Returns whether these are the versions and texts of the entries.
fn are_texts_of(olds: &[(u32, Text)], entries: &[&Entry]) -> bool
    ensures { IsTrue result ↔ (olds.now ≡ map (λ e. (e.now.version, e.now.text)) entries.now) }
{
    if olds.len() != entries.len() {
        return false;
    }
    for place in 0..olds.len() {
        if !is_text_of(&olds[place], entries[place]) {
            return false;
        }
    }
    true
}

/// Returns whether this is the version and text of the entry.
fn is_text_of(old: &(u32, Text), entry: &Entry) -> bool
    ensures { IsTrue result ↔ (old.now ≡ (entry.now.version, entry.now.text)) }
{
    old.0 == entry.version && old.1.as_str() == entry.text.as_str()
}
