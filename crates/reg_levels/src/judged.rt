// A verdict that is kept with what it was made of.
ghost use Rattle.std.specs.Prelude.{◌≡◌, ◌↔◌, IsTrue, IfOk, IfErr, map};
ghost use Rattle.reg_levels.specs.RequiredPairs.{HasRisingVersions};
ghost use Rattle.reg_levels.specs.Judgement.{IsTrueVerdict, IsMadeOf};
ghost use Rattle.reg_levels.specs.JudgedError.{IsJudgedRefusal};

use crate::judged_error::JudgedError;
use crate::texts::check_texts;
use crate::verdict::LevelVerdict;
use avro_resolve::avro_schema::Schema;
use avro_resolve::base_text::{Listed, Text};
use reg_level_names::Level;
use std::alloc::{AllocError, Global};
use std::marker::Model;

/// A verdict on a new schema's text against old ones under a level, kept with the level and the
/// texts.
///
/// Each value is true: its texts are those of schemas, and its verdict is theirs.
#[derive(Debug, Drop)]
pub struct Judged {
    level: Level,
    new_text: Text,
    olds: Listed<(u32, Text)>,
    verdict: LevelVerdict,
}

impl Model for Judged {
    ghost use Rattle.reg_levels.specs.Judgement.{Judgement, IsTrueVerdict};

    ghost Value = { Judgement };

    ghost view = { λ j. record { level = j.level; new_text = j.new_text; olds = j.olds; verdict = j.verdict } };

    ghost invariant = { λ j. IsTrueVerdict j.level j.new_text j.olds j.verdict };
}

impl Judged {
    /// Judges a new schema's text against old ones, in ascending order of version.
    ///
    /// Errors: `NewText` if the new text isn't a schema, else `OldText` for the first old text that
    /// isn't one; or out of memory.
    pub fn make(
        alloc: Global,
        level: Level,
        new_text: &str,
        olds: &[(u32, &str)],
    ) -> Result<Judged, JudgedError>
        requires { HasRisingVersions olds.now }
        ensures made { IfOk result (λ j. IsMadeOf j level new_text.now (map (λ old. (old.0, old.1.now)) olds.now)) }
        ensures refused { IfErr result (IsJudgedRefusal new_text.now (map (λ old. (old.0, old.1.now)) olds.now)) }
    {
        let verdict = judge(alloc, level, new_text, olds)?;
        Ok(Judged {
            level,
            new_text: Text::copy_of(alloc, new_text)?,
            olds: copy_of(alloc, olds)?,
            verdict,
        })
    }

    /// Makes the judgement from its parts; the verdict has to be the true one. Takes no memory.
    pub fn of_parts(
        level: Level,
        new_text: Text,
        olds: Listed<(u32, Text)>,
        verdict: LevelVerdict,
    ) -> Judged
        requires { IsTrueVerdict level new_text olds verdict }
        ensures made { IsMadeOf result level new_text olds }
        ensures verdict { result.verdict ≡ verdict }
    {
        Judged {
            level,
            new_text,
            olds,
            verdict,
        }
    }

    /// Returns the verdict, which is that of the texts. Takes no memory.
    pub fn verdict(&self) -> &LevelVerdict
        ensures verdict { result.now ≡ self.now.verdict }
        ensures is_true { IsTrueVerdict self.now.level self.now.new_text self.now.olds self.now.verdict }
    {
        &self.verdict
    }

    /// Returns whether the verdict was made of this level, this new text and these versions with
    /// their texts. Takes no memory.
    pub fn fits(&self, level: Level, new_text: &str, olds: &[(u32, &str)]) -> bool
        ensures { IsTrue result ↔ IsMadeOf self.now level new_text.now (map (λ old. (old.0, old.1.now)) olds.now) }
    {
        self.level == level
            && self.new_text.as_str() == new_text
            && are_same(self.olds.as_slice(), olds)
    }
}

/// Judges a new text against old ones.
fn judge(
    alloc: Global,
    level: Level,
    new_text: &str,
    olds: &[(u32, &str)],
) -> Result<LevelVerdict, JudgedError>
    requires { HasRisingVersions olds.now }
    ensures judged { IfOk result (IsTrueVerdict level new_text.now (map (λ old. (old.0, old.1.now)) olds.now)) }
    ensures refused { IfErr result (IsJudgedRefusal new_text.now (map (λ old. (old.0, old.1.now)) olds.now)) }
{
    let Some(new) = Schema::read_if_any(alloc, new_text)? else {
        return Err(JudgedError::NewText);
    };
    check_texts(alloc, level, &new, olds)
}

/// Copies the versions and their texts. The only error is out of memory.
pub fn copy_of(alloc: Global, olds: &[(u32, &str)]) -> Result<Listed<(u32, Text)>, AllocError>
    ensures { IfOk result (λ copy. copy ≡ map (λ old. (old.0, old.1.now)) olds.now) }
{
    let mut copy = Vec::new(alloc);
    for old in olds {
        copy.push((old.0, Text::copy_of(alloc, old.1)?))?;
    }
    Ok(Listed::from(copy))
}

/// Returns whether these are the same versions with the same texts.
fn are_same(kept: &[(u32, Text)], olds: &[(u32, &str)]) -> bool
    ensures { IsTrue result ↔ (kept.now ≡ map (λ old. (old.0, old.1.now)) olds.now) }
{
    if kept.len() != olds.len() {
        return false;
    }
    for place in 0..kept.len() {
        if !is_same(&kept[place], &olds[place]) {
            return false;
        }
    }
    true
}

fn is_same(kept: &(u32, Text), old: &(u32, &str)) -> bool
    ensures { IsTrue result ↔ (kept.now ≡ (old.now.0, old.now.1.now)) }
{
    kept.0 == old.0 && kept.1.as_str() == old.1
}
