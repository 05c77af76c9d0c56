// The query whether a schema may follow.
ghost use Rattle.std.specs.Prelude.{◌≡◌, ℕ, List, Option, IfOk, IfErr, None, Ok, map};
ghost use Rattle.reg_modes.specs.avro_schema.Schema.{schema_of};
ghost use Rattle.reg_levels.specs.RequiredPairs.{HasRisingVersions};
ghost use Rattle.reg_levels.specs.Judgement.{first_unread};
ghost use Rattle.reg_levels.specs.LevelVerdict.{IsLevelVerdict};
ghost use Rattle.reg_levels.specs.Message.{message_of};
ghost use Rattle.reg_levels.specs.Texts.{VersionText, IsVerdictOfTexts, versions_in};
ghost use Rattle.reg_modes.specs.reg_set.Records.{Records};
ghost use Rattle.reg_modes.specs.reg_fold.Entries.{entries};
ghost use Rattle.reg_modes.specs.reg_fold.declared.version_ref.VersionRef.{VersionRef};
ghost use Rattle.reg_lookup.specs.Answers.{IsAnswer};
ghost use Rattle.reg_lookup.specs.Bodies as bodies;
ghost use Rattle.reg_lookup.specs.Checked.{AreRead, asked_on, checked_on, olds_of, read_sound_schema, TellsVerdict};
ghost use Rattle.reg_lookup.specs.Gives.{IsRefusalOf};
ghost use Rattle.reg_lookup.specs.declared.query.Query.TheVariants.{Check};

use crate::answered::{Answer, answer_of};
use crate::bodies::check_body;
use crate::error::LookupError;
use crate::found::version_found;
use reg_levels::{LevelVerdict, check_read_texts, copy_of, lend_texts, looked_at};
use reg_modes::avro_schema::Schema;
use reg_modes::base_text::{Listed, Text};
use reg_modes::reg_entries::texts_of;
use reg_modes::reg_fold::{Refusal, Registry, VersionRef, entries_are_read, found_entries_stand};
use reg_modes::reg_level_names::Level;
use std::alloc::{AllocError, Global};
use std::marker::Model;

/// What a compatibility check is answered from: the level in force for the subject, and copies of
/// the versions that it looks at, or the refusal if the named version isn't found.
///
/// It is copied from a registry and then answers without it, since reading and comparing schemas
/// may take long.
#[derive(Debug, Drop)]
pub struct Grounds {
    level: Level,
    olds: Result<Listed<(u32, Text)>, Refusal>,
}

impl Model for Grounds {
    ghost use Rattle.std.specs.Prelude.{IfOk};
    ghost use Rattle.reg_lookup.specs.Checked.{AreRead, CheckedOn};

    ghost Value = { CheckedOn };

    ghost view = { λ g. record { level = g.level; olds = g.olds } };

    ghost invariant = { λ g. IfOk g.olds AreRead };
}

impl Grounds {
    /// Copies what a check of a subject needs: its live versions that the level looks at, or with
    /// `which` that live version. The only error is out of memory.
    pub fn of(
        alloc: Global,
        registry: &Registry,
        subject: &str,
        which: Option<VersionRef>,
    ) -> Result<Grounds, AllocError>
        ensures { IfOk result (λ grounds. grounds ≡ checked_on registry.now subject.now which) }
    {
        let level = registry.level(Some(subject));
        match olds_asked(alloc, registry, subject, which) {
            Ok(olds) => Ok(Grounds {
                level,
                olds: Ok(copy_of(alloc, looked_at(level, &olds))?),
            }),
            Err(LookupError::Refused(refusal)) => Ok(Grounds {
                level,
                olds: Err(refusal),
            }),
            Err(LookupError::OutOfMemory) => Err(AllocError),
        }
    }

    /// Answers whether the schema of a text is compatible, as [`crate::answer`] does over each
    /// registry that this could be copied from. A text that isn't a schema, or has an invalid
    /// default, is refused first. The only error is out of memory.
    pub fn answer(self, alloc: Global, text: &str, verbose: bool) -> Result<Answer, AllocError>
        ensures { IfOk result (λ a. (rs : Records) (subject : List ℕ) (which : Option VersionRef)
            → self ≡ checked_on rs subject which → IsAnswer rs (Check subject which text.now verbose) a) }
    {
        let Grounds { level, olds } = self;
        answer_on(alloc, level, olds, text, verbose)
    }
}

/// Answers a check over a registry. The only error is out of memory.
pub(crate) fn check_answer(
    alloc: Global,
    registry: &Registry,
    subject: &str,
    which: Option<VersionRef>,
    text: &str,
    verbose: bool,
) -> Result<Answer, AllocError>
    ensures { IfOk result (IsAnswer registry.now (Check subject.now which text.now verbose)) }
{
    let grounds = Grounds::of(alloc, registry, subject, which)?;
    grounds.answer(alloc, text, verbose)
}

/// Answers whether a schema is compatible with these versions, all of which the level looks at.
fn answer_on(
    alloc: Global,
    level: Level,
    olds: Result<Listed<(u32, Text)>, Refusal>,
    text: &str,
    verbose: bool,
) -> Result<Answer, AllocError>
    requires { IfOk olds AreRead }
    ensures { IfOk result (TellsVerdict level text.now verbose (asked_on olds text.now)) }
{
    match verdict_on(alloc, level, olds, text) {
        Ok(verdict) => {
            let body = verdict_body(alloc, verbose, &verdict)?;
            answer_of(alloc, Ok(body))
        }
        Err(error) => answer_of(alloc, Err(error)),
    }
}

/// Checks a schema against these versions under a level.
fn verdict_on(
    alloc: Global,
    level: Level,
    olds: Result<Listed<(u32, Text)>, Refusal>,
    text: &str,
) -> Result<LevelVerdict, LookupError>
    requires { IfOk olds AreRead }
    ensures found { IfOk result (λ v. (against : List VersionText)
        × (asked_on olds text.now ≡ Ok against) × IsVerdictOfTexts level text.now against v) }
    ensures refused { IfErr result (IsRefusalOf (asked_on olds text.now)) }
{
    let schema = sound_schema(alloc, text)?;
    match olds {
        Ok(olds) => Ok(check_each(alloc, level, &schema, &olds)?),
        Err(refusal) => Err(LookupError::Refused(refusal)),
    }
}

/// Checks a schema against these versions under a level. The only error is out of memory.
fn check_each(
    alloc: Global,
    level: Level,
    schema: &Schema,
    olds: &Listed<(u32, Text)>,
) -> Result<LevelVerdict, AllocError>
    requires { AreRead olds.now }
    ensures { IfOk result (IsLevelVerdict level schema.now.nodes (versions_in olds.now)) }
{
    let lent = lend_texts(alloc, olds.as_slice())?;
    check_read_texts(alloc, level, schema, &lent)
}

/// Reads the schema of a text. Refused with `InvalidSchema` if it isn't one, or if a default isn't
/// valid.
fn sound_schema(alloc: Global, text: &str) -> Result<Schema, LookupError>
    ensures found { IfOk result (λ schema. read_sound_schema text.now ≡ Ok schema) }
    ensures means { IfOk result (λ schema. schema_of text.now ≡ Some schema) }
    ensures refused { IfErr result (IsRefusalOf (read_sound_schema text.now)) }
{
    let Some(schema) = Schema::read_if_any(alloc, text)? else {
        return Err(LookupError::Refused(Refusal::InvalidSchema));
    };
    if schema.check_defaults().is_err() {
        return Err(LookupError::Refused(Refusal::InvalidSchema));
    }
    Ok(schema)
}

/// Returns the versions that a schema is checked against, with their texts: a subject's live ones,
/// or the one of them that is named.
fn olds_asked<'a>(
    alloc: Global,
    registry: &'a Registry,
    subject: &str,
    which: Option<VersionRef>,
) -> Result<Vec<(u32, &'a str)>, LookupError>
    ensures found { IfOk result (λ olds. olds_of (entries registry.now) subject.now which
        ≡ Ok (map (λ old. (old.0, old.1.now)) olds.items)) }
    ensures rising { IfOk result (λ olds. HasRisingVersions olds.items) }
    ensures read { IfOk result (λ olds. first_unread (map (λ old. (old.0, old.1.now)) olds.items) ≡ None) }
    ensures refused { IfErr result (IsRefusalOf (olds_of (entries registry.now) subject.now which)) }
{
    entries_are_read();
    found_entries_stand();
    match which {
        None => {
            let live = registry.live(subject)?;
            Ok(texts_of(alloc, &live)?)
        }
        Some(which) => {
            let found = version_found(registry, subject, which, false)?;
            Ok(texts_of(alloc, &[found])?)
        }
    }
}

/// Makes the body of a verdict; the message of a clash only if `verbose` is true.
fn verdict_body(alloc: Global, verbose: bool, verdict: &LevelVerdict) -> Result<Text, AllocError>
    ensures { IfOk result (λ body. body ≡ bodies.check_body verbose verdict.now.ok (message_of verdict.now)) }
{
    check_body(alloc, verbose, verdict.ok, verdict.clash_message())
}
