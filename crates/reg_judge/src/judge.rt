// A judge, and what it answers.
ghost use Rattle.std.specs.Prelude.{◌≡◌, ◌∷◌, None, Some, IfOk, IfErr, IfSome, OnOk, OnErr, map};
ghost use Rattle.avro_resolve.specs.avro_schema.Schema.{schema_of};
ghost use Rattle.reg_levels.specs.RequiredPairs.{HasRisingVersions};
ghost use Rattle.reg_levels.specs.RequiredPairs as required;
ghost use Rattle.reg_levels.specs.Judgement.{IsTrueVerdict, IsMadeOf, first_unread};
ghost use Rattle.reg_levels.specs.JudgedError.{IsJudgedRefusal};
ghost use Rattle.reg_levels.specs.declared.verdict.LevelVerdict.{LevelVerdict as Verdict};
ghost use Rattle.reg_judge.specs.LastJudged.{HasLastJudged};
ghost use Rattle.reg_judge.specs.Judge.{HasUsed, IsCapacity, IsJudgeRefusal, KeepsSchemas, LosesTexts, has_pair, keeps_none, text_pairs};

use crate::judge_error::JudgeError;
use crate::judging::{Run, judge_each};
use crate::limits::KEPT_LIMIT;
use crate::schemas::{Schemas, keep, keep_olds, take_given, take_olds};
use crate::verdicts::{Verdicts, keep_all};
use avro_resolve::avro_schema::Schema;
use avro_resolve::base_text::Text;
use avro_resolve::schemas_have_one_verdict;
use lru::LruCache;
use reg_level_names::Level;
use reg_levels::{
    Judged, JudgedError, LevelVerdict, copy_of, level_verdicts_are_single, looked_at,
};
use std::alloc::Global;
use std::hash::RandomState;
use std::marker::Model;
use std::num::NonZeroUsize;

/// A judge of levels, which keeps the schemas that it read last and the verdicts that it used last.
///
/// Contracts see the texts whose schemas it has; the pairs of a reader's and a writer's text whose
/// verdicts it has, those used last first; how many of each there may be; and whether each verdict
/// of the last judgement was kept.
#[derive(Drop)]
pub struct Judge {
    alloc: Global,
    schemas: Schemas,
    verdicts: Verdicts,
    kept_all: bool,
}

impl Model for Judge {
    ghost use Rattle.reg_judge.specs.Judge.{Keeping};
    ghost use Rattle.reg_judge.specs.Kept.{AreSchemas, AreVerdicts, pairs_of, texts_in};

    ghost Value = { Keeping };

    ghost view = { λ j. record { texts = texts_in j.schemas.entries; pairs = pairs_of j.verdicts.entries; capacities = record { schemas = j.schemas.cap; verdicts = j.verdicts.cap }; kept_all = j.kept_all } };

    ghost invariant = { λ j. AreSchemas j.schemas.entries × AreVerdicts j.verdicts.entries };
}

impl Judge {
    /// Makes a judge that keeps at most that many schemas and verdicts, each from 1 to
    /// `KEPT_LIMIT`.
    ///
    /// The texts are found by hashes with these keys. Errors: `BadCapacity`, or out of memory.
    pub fn new(
        alloc: Global,
        keys: RandomState,
        schemas: usize,
        verdicts: usize,
    ) -> Result<Judge, JudgeError>
        ensures new { IfOk result (λ judge. judge ≡ keeps_none schemas verdicts) }
        ensures capacities { OnOk result (IsCapacity schemas × IsCapacity verdicts) }
        ensures refused { IfErr result (IsJudgeRefusal schemas verdicts) }
    {
        if schemas > KEPT_LIMIT || verdicts > KEPT_LIMIT {
            return Err(JudgeError::BadCapacity);
        }
        let (Some(schemas), Some(verdicts)) = (
            NonZeroUsize::new(schemas),
            NonZeroUsize::new(verdicts),
        ) else {
            return Err(JudgeError::BadCapacity);
        };
        Ok(Judge {
            alloc,
            schemas: LruCache::with_hasher(alloc, schemas, keys)?,
            verdicts: LruCache::with_hasher(alloc, verdicts, keys)?,
            kept_all: true,
        })
    }

    /// Checks whether a new schema's text meets a level against old ones, in ascending order of
    /// version. The verdict is that of `Judged::make`, whatever was asked before.
    ///
    /// Errors: `NewText` if the new text isn't a schema, else `OldText` for the first old text that
    /// isn't one; or out of memory. After an error, some schemas may have to be read again. If
    /// memory is refused for keeping something, it isn't kept, and the answer is the same.
    pub fn check(
        &mut self,
        level: Level,
        new_text: &str,
        olds: &[(u32, &str)],
    ) -> Result<LevelVerdict, JudgedError>
        requires { HasRisingVersions olds.now }
        ensures verdict { IfOk result (IsTrueVerdict level new_text.now (map (λ old. (old.0, old.1.now)) olds.now)) }
        ensures only { IfOk result (λ v. (u : Verdict) → IsTrueVerdict level new_text.now (map (λ old. (old.0, old.1.now)) olds.now) u → u ≡ v) }
        ensures refused { IfErr result (IsJudgedRefusal new_text.now (map (λ old. (old.0, old.1.now)) olds.now)) }
        ensures capacities { self.new.capacities ≡ self.old.capacities }
        ensures used { OnOk result (HasUsed self.old.capacities.verdicts
            (text_pairs level new_text.now (map (λ old. (old.0, old.1.now)) olds.now)) self.old.pairs self.new.pairs self.new.kept_all) }
        ensures schemas { OnOk result
            (KeepsSchemas self.old.capacities.schemas new_text.now (map (λ old. old.1.now) olds.now) self.old.texts self.new.texts) }
        ensures unchanged { OnErr result (self.new ≡ record self.old { texts = self.new.texts }) }
        ensures taken_out { OnErr result (LosesTexts (new_text.now ∷ map (λ old. old.1.now) olds.now) self.old.texts self.new.texts) }
    {
        self.check_with(level, new_text, None, olds)
    }

    /// Checks like [`Judge::check`], but each old text is known to be a schema: only those that the
    /// level looks at are read or taken from the cache. The new text isn't parsed if its schema is
    /// given.
    pub fn check_read(
        &mut self,
        level: Level,
        new_text: &str,
        new: Option<Schema>,
        olds: &[(u32, &str)],
    ) -> Result<LevelVerdict, JudgedError>
        requires new { IfSome new (λ schema. schema_of new_text.now ≡ Some schema) }
        requires rising { HasRisingVersions olds.now }
        requires read { first_unread (map (λ old. (old.0, old.1.now)) olds.now) ≡ None }
        ensures verdict { IfOk result (IsTrueVerdict level new_text.now (map (λ old. (old.0, old.1.now)) olds.now)) }
        ensures refused { IfErr result (IsJudgedRefusal new_text.now (map (λ old. (old.0, old.1.now)) olds.now)) }
        ensures capacities { self.new.capacities ≡ self.old.capacities }
        ensures used { OnOk result (HasUsed self.old.capacities.verdicts
            (text_pairs level new_text.now (map (λ old. (old.0, old.1.now)) olds.now)) self.old.pairs self.new.pairs self.new.kept_all) }
        ensures schemas { OnOk result (KeepsSchemas self.old.capacities.schemas new_text.now
            (map (λ old. old.1.now) (required.looked_at level olds.now)) self.old.texts self.new.texts) }
        ensures unchanged { OnErr result (self.new ≡ record self.old { texts = self.new.texts }) }
        ensures taken_out { OnErr result (LosesTexts (new_text.now ∷ map (λ old. old.1.now) (required.looked_at level olds.now))
            self.old.texts self.new.texts) }
    {
        self.check_with(level, new_text, new, looked_at(level, olds))
    }

    /// Checks like `check`; the schema of the new text may be given.
    fn check_with(
        &mut self,
        level: Level,
        new_text: &str,
        new: Option<Schema>,
        olds: &[(u32, &str)],
    ) -> Result<LevelVerdict, JudgedError>
        requires new { IfSome new (λ schema. schema_of new_text.now ≡ Some schema) }
        requires rising { HasRisingVersions olds.now }
        ensures verdict { IfOk result (IsTrueVerdict level new_text.now (map (λ old. (old.0, old.1.now)) olds.now)) }
        ensures only { IfOk result (λ v. (u : Verdict) → IsTrueVerdict level new_text.now (map (λ old. (old.0, old.1.now)) olds.now) u → u ≡ v) }
        ensures refused { IfErr result (IsJudgedRefusal new_text.now (map (λ old. (old.0, old.1.now)) olds.now)) }
        ensures capacities { self.new.capacities ≡ self.old.capacities }
        ensures used { OnOk result (HasUsed self.old.capacities.verdicts
            (text_pairs level new_text.now (map (λ old. (old.0, old.1.now)) olds.now)) self.old.pairs self.new.pairs self.new.kept_all) }
        ensures schemas { OnOk result
            (KeepsSchemas self.old.capacities.schemas new_text.now (map (λ old. old.1.now) olds.now) self.old.texts self.new.texts) }
        ensures unchanged { OnErr result (self.new ≡ record self.old { texts = self.new.texts }) }
        ensures taken_out { OnErr result (LosesTexts (new_text.now ∷ map (λ old. old.1.now) olds.now) self.old.texts self.new.texts) }
    {
        schemas_have_one_verdict();
        level_verdicts_are_single();
        let Some(new) = take_given(self.alloc, &mut self.schemas, new_text, new)? else {
            return Err(JudgedError::NewText);
        };
        let olds = take_olds(self.alloc, &mut self.schemas, olds)?;
        let Run { verdict, used } = judge_each(
            self.alloc,
            &self.verdicts,
            level,
            &new,
            looked_at(level, &olds),
        )?;
        keep_olds(&mut self.schemas, olds);
        keep(&mut self.schemas, new);
        self.kept_all = keep_all(&mut self.verdicts, used);
        Ok(verdict)
    }

    /// Judges a new schema's text against old ones, in ascending order of version. The judgement is
    /// that of `Judged::make`, whatever was asked before.
    ///
    /// Errors: `NewText` if the new text isn't a schema, else `OldText` for the first old text that
    /// isn't one; or out of memory. If memory is refused for keeping something, it isn't kept, and
    /// the answer is the same.
    pub fn make(
        &mut self,
        level: Level,
        new_text: &str,
        olds: &[(u32, &str)],
    ) -> Result<Judged, JudgedError>
        requires { HasRisingVersions olds.now }
        ensures made { IfOk result (λ j. IsMadeOf j level new_text.now (map (λ old. (old.0, old.1.now)) olds.now)) }
        ensures refused { IfErr result (IsJudgedRefusal new_text.now (map (λ old. (old.0, old.1.now)) olds.now)) }
        ensures capacities { self.new.capacities ≡ self.old.capacities }
        ensures used { OnOk result (HasUsed self.old.capacities.verdicts
            (text_pairs level new_text.now (map (λ old. (old.0, old.1.now)) olds.now)) self.old.pairs self.new.pairs self.new.kept_all) }
        ensures schemas { OnOk result
            (KeepsSchemas self.old.capacities.schemas new_text.now (map (λ old. old.1.now) olds.now) self.old.texts self.new.texts) }
        ensures unchanged { OnErr result (self.new ≡ record self.old { texts = self.new.texts }) }
        ensures taken_out { OnErr result (LosesTexts (new_text.now ∷ map (λ old. old.1.now) olds.now) self.old.texts self.new.texts) }
    {
        let kept_text = Text::copy_of(self.alloc, new_text)?;
        let kept_olds = copy_of(self.alloc, olds)?;
        let verdict = self.check(level, new_text, olds)?;
        Ok(Judged::of_parts(level, kept_text, kept_olds, verdict))
    }

    /// Returns whether the verdict on a reader's text and a writer's is kept. Takes no memory.
    pub fn has(&self, reader_text: &str, writer_text: &str) -> bool
        ensures { result ≡ has_pair self.now.pairs (reader_text.now, writer_text.now) }
    {
        for (pair, _) in &self.verdicts {
            if reader_text == pair.0.as_str() && writer_text == pair.1.as_str() {
                return true;
            }
        }
        false
    }

    /// Returns whether each verdict of the last judgement was kept. It is false only if memory was
    /// refused for one that the judge didn't have yet. Takes no memory.
    pub fn kept_all(&self) -> bool
        ensures { result ≡ self.now.kept_all }
    {
        self.kept_all
    }
}

/// Proves that the judge has the pair that was judged last, if it kept each verdict: by `used` of
/// `check` and `make`. It costs nothing at run time.
pub fn pairs_judged_last_are_kept()
    ensures { HasLastJudged }
{}
