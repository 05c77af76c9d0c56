// Whether a schema meets the level in force.
ghost use Rattle.std.specs.Prelude.{◌≡◌, None, Some, IfOk, IfSome, map};
ghost use Rattle.reg_modes.specs.reg_fold.InForce.{level};
ghost use Rattle.reg_modes.specs.reg_fold.Standing.{live};
ghost use Rattle.reg_levels.specs.Judgement.{IsMadeOf, first_unread};
ghost use Rattle.reg_levels.specs.RequiredPairs.{HasRisingVersions};
ghost use Rattle.reg_levels.specs.Texts.{IsVerdictOfTexts};
ghost use Rattle.reg_modes.specs.reg_entries.Sought.{texts_of};
ghost use Rattle.reg_rules.specs.Report.{IsReport, LiveVersionsAreRead};

use crate::looking::live_looked_at;
use reg_levels::{Judged, LevelVerdict, check_read_texts};
use reg_modes::avro_schema::SchemaReading;
use reg_modes::base_text::Text;
use reg_modes::reg_entries::texts_of;
use reg_modes::reg_fold::{Registry, entries_are_read};
use reg_modes::reg_level_names::Level;
use std::alloc::{AllocError, Global};

/// Checks a schema under the subject's level in force: returns the message of the first required
/// pair that clashes, or `None` if the level is met. The only error is out of memory.
///
/// `judged` is used if it was made of this schema, this level and the live versions that the level
/// looks at; else the check is made here. Other versions aren't touched.
pub fn clash_of(
    alloc: Global,
    registry: &Registry,
    subject: &Text,
    schema: &SchemaReading,
    judged: Option<&Judged>,
) -> Result<Option<Text>, AllocError>
    ensures { IfOk result (IsReport (level registry.now (Some subject.now)) schema.now.normal (texts_of (live registry.now subject.now))) }
{
    live_versions_are_read();
    let level = registry.level(Some(subject.as_str()));
    let looked_at = live_looked_at(alloc, registry, subject.as_str(), level)?;
    let texts = texts_of(alloc, &looked_at)?;
    if let Some(judged) = fitting(judged, level, schema.normal().as_str(), &texts) {
        return judged.verdict().message(alloc);
    }
    let verdict = checked(alloc, level, schema, &texts)?;
    verdict.message(alloc)
}

/// States that the text of each live version is a schema's. Costs nothing at run time: a function
/// that needs the law calls it.
pub fn live_versions_are_read()
    ensures { LiveVersionsAreRead }
{
    entries_are_read();
}

/// Returns the judgement if it was made of this level, schema and versions.
fn fitting<'a>(
    judged: Option<&'a Judged>,
    level: Level,
    new_text: &str,
    texts: &[(u32, &str)],
) -> Option<&'a Judged>
    ensures { IfSome result (λ j. IsMadeOf j.now level new_text.now (map (λ old. (old.0, old.1.now)) texts.now)) }
{
    match judged {
        Some(judged) if judged.fits(level, new_text, texts) => Some(judged),
        _ => None,
    }
}

/// Checks a schema against these versions. The only error is out of memory.
fn checked(
    alloc: Global,
    level: Level,
    schema: &SchemaReading,
    texts: &[(u32, &str)],
) -> Result<LevelVerdict, AllocError>
    requires rising { HasRisingVersions texts.now }
    requires read { first_unread (map (λ old. (old.0, old.1.now)) texts.now) ≡ None }
    ensures { IfOk result (IsVerdictOfTexts level schema.now.normal (map (λ old. (old.0, old.1.now)) texts.now)) }
{
    let new = schema.schema(alloc)?;
    check_read_texts(alloc, level, &new, texts)
}
