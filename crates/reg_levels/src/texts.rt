// Whether a new schema meets a level against old versions that are given by their texts.
ghost use Rattle.std.specs.Prelude.{◌≡◌, ℕ, List, None, true, IfOk, IfErr, OnOk, flat_map, map, reverse};
ghost use Rattle.avro_resolve.specs.avro_schema.Schema.{is_schema};
ghost use Rattle.reg_levels.specs.RequiredPairs.{HasRisingVersions, Version, required_of};
ghost use Rattle.reg_levels.specs.LevelVerdict.{IsLevelVerdict, IsVerdictOn};
ghost use Rattle.reg_levels.specs.Texts.{nodes_in, versions_in};
ghost use Rattle.reg_levels.specs.Judgement.{first_unread};
ghost use Rattle.reg_levels.specs.JudgedError.{IsJudgedRefusal};

use crate::checking::{check, check_version, looked_at};
use crate::judged_error::JudgedError;
use crate::verdict::LevelVerdict;
use avro_resolve::avro_schema::Schema;
use avro_resolve::base_text::Text;
use reg_level_names::Level;
use std::alloc::{AllocError, Global};

/// Checks whether a new schema meets a level against old versions that are given by their texts, in
/// ascending order of version.
///
/// Errors: `OldText` for the first old text that isn't a schema, even if the level doesn't look at
/// it; or out of memory. It is never `NewText`.
pub fn check_texts(
    alloc: Global,
    level: Level,
    new: &Schema,
    olds: &[(u32, &str)],
) -> Result<LevelVerdict, JudgedError>
    requires { HasRisingVersions olds.now }
    ensures verdict { IfOk result (IsLevelVerdict level new.now.nodes (versions_in (map (λ old. (old.0, old.1.now)) olds.now))) }
    ensures read { OnOk result (first_unread (map (λ old. (old.0, old.1.now)) olds.now) ≡ None) }
    ensures refused { IfErr result (λ e. (new_text : List ℕ) → is_schema new_text ≡ true
        → IsJudgedRefusal new_text (map (λ old. (old.0, old.1.now)) olds.now) e) }
{
    let schemas = read_olds(alloc, olds)?;
    let versions = versions_of(alloc, &schemas)?;
    Ok(check(alloc, level, new, &versions)?)
}

/// Checks like [`check_texts`], but each old text is known to be a schema. It reads only the
/// versions that the level looks at, one at a time from the greatest down, up to one that clashes.
/// The only error is out of memory.
pub fn check_read_texts(
    alloc: Global,
    level: Level,
    new: &Schema,
    olds: &[(u32, &str)],
) -> Result<LevelVerdict, AllocError>
    requires rising { HasRisingVersions olds.now }
    requires read { first_unread (map (λ old. (old.0, old.1.now)) olds.now) ≡ None }
    ensures { IfOk result (IsLevelVerdict level new.now.nodes (versions_in (map (λ old. (old.0, old.1.now)) olds.now))) }
{
    check_each_text(alloc, level, new, looked_at(level, olds))
}

/// Checks a new schema against the text of each of these versions, all of which the level looks at.
fn check_each_text(
    alloc: Global,
    level: Level,
    new: &Schema,
    olds: &[(u32, &str)],
) -> Result<LevelVerdict, AllocError>
    requires { first_unread (map (λ old. (old.0, old.1.now)) olds.now) ≡ None }
    ensures { IfOk result (IsVerdictOn (flat_map (required_of level new.now.nodes)
        (reverse (map (λ old. (old.0, nodes_in old.1.now)) olds.now)))) }
{
    for place in (0..olds.len()).rev() {
        let verdict = check_text(alloc, level, new, &olds[place])?;
        if !verdict.ok {
            return Ok(verdict);
        }
    }
    Ok(LevelVerdict::passed())
}

/// Checks a new schema against the text of one version.
fn check_text(
    alloc: Global,
    level: Level,
    new: &Schema,
    old: &(u32, &str),
) -> Result<LevelVerdict, AllocError>
    requires { is_schema old.now.1.now ≡ true }
    ensures { IfOk result (IsVerdictOn (required_of level new.now.nodes (old.now.0, nodes_in old.now.1.now))) }
{
    let schema = read_known(alloc, old.1)?;
    check_version(alloc, level, new, old.0, &schema)
}

/// Reads a text that is known to be a schema. The only error is out of memory.
fn read_known(alloc: Global, text: &str) -> Result<Schema, AllocError>
    requires { is_schema text.now ≡ true }
    ensures { IfOk result (λ schema. schema.nodes ≡ nodes_in text.now) }
{
    match Schema::read_if_any(alloc, text)? {
        Some(schema) => Ok(schema),
        None => unreachable!(),
    }
}

/// Reads the schemas of the old texts, each with its version.
fn read_olds(alloc: Global, olds: &[(u32, &str)]) -> Result<Vec<(u32, Schema)>, JudgedError>
    ensures versions { IfOk result (λ schemas. map (λ old. (old.0, old.1.nodes)) schemas.items
        ≡ versions_in (map (λ old. (old.0, old.1.now)) olds.now)) }
    ensures read { OnOk result (first_unread (map (λ old. (old.0, old.1.now)) olds.now) ≡ None) }
    ensures refused { IfErr result (λ e. (new_text : List ℕ) → is_schema new_text ≡ true
        → IsJudgedRefusal new_text (map (λ old. (old.0, old.1.now)) olds.now) e) }
{
    let mut schemas = Vec::new(alloc);
    for old in olds {
        let Some(schema) = Schema::read_if_any(alloc, old.1)? else {
            return Err(JudgedError::OldText(old.0));
        };
        schemas.push((old.0, schema))?;
    }
    Ok(schemas)
}

/// Lends the schemas, each with its version.
fn versions_of<'a>(
    alloc: Global,
    schemas: &'a [(u32, Schema)],
) -> Result<Vec<(u32, &'a Schema)>, AllocError>
    ensures { IfOk result (λ versions. map {B = Version} (λ old. (old.0, old.1.now.nodes)) versions.items
        ≡ map {B = Version} (λ old. (old.0, old.1.nodes)) schemas.now) }
{
    let mut versions = Vec::new(alloc);
    for old in schemas {
        versions.push((old.0, &old.1))?;
    }
    Ok(versions)
}

/// Lends the texts, each with its version. The only error is out of memory.
pub fn lend_texts<'a>(
    alloc: Global,
    olds: &'a [(u32, Text)],
) -> Result<Vec<(u32, &'a str)>, AllocError>
    ensures texts { IfOk result (λ lent. map (λ old. (old.0, old.1.now)) lent.items ≡ olds.now) }
    ensures versions { IfOk result (λ lent. map (λ old. old.0) lent.items ≡ map (λ old. old.0) olds.now) }
{
    let mut lent = Vec::new(alloc);
    for old in olds {
        lent.push((old.0, old.1.as_str()))?;
    }
    Ok(lent)
}
