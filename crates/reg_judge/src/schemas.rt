// The schemas that a judge keeps.
ghost use Rattle.std.specs.Prelude.{◌≡◌, ◌⊎◌, None, Some, IfOk, IfErr, IfSome, OnErr, OnOk, is_some, map};
ghost use Rattle.avro_resolve.specs.avro_schema.Schema.{is_schema, schema_of};
ghost use Rattle.reg_levels.specs.Judgement.{first_unread};
ghost use Rattle.reg_judge.specs.Judge.{KeepsInTurn, LosesTexts, with_text, without_text, without_texts};
ghost use Rattle.reg_judge.specs.Kept.{AreSchemas, IsUnread, texts_in};

use crate::kept_schema::KeptSchema;
use crate::source::Source;
use avro_resolve::avro_schema::Schema;
use lru::LruCache;
use reg_levels::JudgedError;
use std::alloc::{AllocError, Global};
use std::hash::RandomState;

/// The kept schemas, each by its text.
pub(crate) type Schemas = LruCache<String, KeptSchema, RandomState>;

/// Takes the schema of a text out of the kept ones, or reads it; `None` if the text isn't a schema.
///
/// The only error is out of memory.
pub(crate) fn take(
    alloc: Global,
    kept: &mut Schemas,
    text: &str,
) -> Result<Option<Source>, AllocError>
    requires { AreSchemas kept.old.entries }
    ensures text { IfOk result (λ found. IfSome found (λ source. source ≡ text.now)) }
    ensures read { IfOk result (λ found. is_some found ≡ is_schema text.now) }
    ensures left { AreSchemas kept.new.entries }
    ensures out { texts_in kept.new.entries ≡ without_text text.now (texts_in kept.old.entries) }
    ensures capacity { kept.new.cap ≡ kept.old.cap }
{
    if let Some((text, stored)) = kept.pop_entry(text) {
        return Ok(Some(Source {
            text,
            schema: stored.into_schema(),
        }));
    }
    match Schema::read_if_any(alloc, text)? {
        Some(schema) => Ok(Some(Source {
            text: String::from_str(alloc, text)?,
            schema,
        })),
        None => Ok(None),
    }
}

/// Takes the schema of a text like `take`, unless it is given: then it isn't read, and a kept one
/// is removed.
pub(crate) fn take_given(
    alloc: Global,
    kept: &mut Schemas,
    text: &str,
    given: Option<Schema>,
) -> Result<Option<Source>, AllocError>
    requires kept { AreSchemas kept.old.entries }
    requires given { IfSome given (λ schema. schema_of text.now ≡ Some schema) }
    ensures text { IfOk result (λ found. IfSome found (λ source. source ≡ text.now)) }
    ensures read { IfOk result (λ found. is_some found ≡ is_schema text.now) }
    ensures left { AreSchemas kept.new.entries }
    ensures out { texts_in kept.new.entries ≡ without_text text.now (texts_in kept.old.entries) }
    ensures capacity { kept.new.cap ≡ kept.old.cap }
{
    match given {
        Some(schema) => {
            leave_out(kept, text);
            let text = String::from_str(alloc, text)?;
            Ok(Some(Source { text, schema }))
        }
        None => take(alloc, kept, text),
    }
}

/// Removes the schema of a text.
fn leave_out(kept: &mut Schemas, text: &str)
    requires { AreSchemas kept.old.entries }
    ensures left { AreSchemas kept.new.entries }
    ensures out { texts_in kept.new.entries ≡ without_text text.now (texts_in kept.old.entries) }
    ensures capacity { kept.new.cap ≡ kept.old.cap }
{
    let _gone = kept.pop_entry(text);
}

/// Takes the schemas of the old texts, each with its version.
pub(crate) fn take_olds(
    alloc: Global,
    kept: &mut Schemas,
    olds: &[(u32, &str)],
) -> Result<Vec<(u32, Source)>, JudgedError>
    requires { AreSchemas kept.old.entries }
    ensures texts { IfOk result (λ taken. taken.items ≡ map (λ old. (old.0, old.1.now)) olds.now) }
    ensures read { OnOk result (first_unread (map (λ old. (old.0, old.1.now)) olds.now) ≡ None) }
    ensures refused { IfErr result (IsUnread (map (λ old. (old.0, old.1.now)) olds.now)) }
    ensures left { AreSchemas kept.new.entries }
    ensures out { OnOk result (texts_in kept.new.entries ≡ without_texts (map (λ old. old.1.now) olds.now) (texts_in kept.old.entries)) }
    ensures out_by_then { OnErr result (LosesTexts (map (λ old. old.1.now) olds.now) (texts_in kept.old.entries) (texts_in kept.new.entries)) }
    ensures capacity { kept.new.cap ≡ kept.old.cap }
{
    let mut taken = Vec::new(alloc);
    for old in olds {
        let Some(source) = take(alloc, kept, old.1)? else {
            return Err(JudgedError::OldText(old.0));
        };
        taken.push((old.0, source))?;
    }
    Ok(taken)
}

/// Keeps a schema. If memory is refused, it isn't kept.
pub(crate) fn keep(kept: &mut Schemas, source: Source)
    requires { AreSchemas kept.old.entries }
    ensures schemas { AreSchemas kept.new.entries }
    ensures kept { (texts_in kept.new.entries ≡ texts_in kept.old.entries)
        ⊎ (texts_in kept.new.entries ≡ with_text kept.old.cap source (texts_in kept.old.entries)) }
    ensures capacity { kept.new.cap ≡ kept.old.cap }
{
    let Source { text, schema } = source;
    let _kept = kept.put(text, KeptSchema::of(schema));
}

/// Keeps the schemas.
pub(crate) fn keep_olds(kept: &mut Schemas, olds: Vec<(u32, Source)>)
    requires { AreSchemas kept.old.entries }
    ensures schemas { AreSchemas kept.new.entries }
    ensures kept { KeepsInTurn kept.old.cap (map (λ old. old.1) olds.items) (texts_in kept.old.entries) (texts_in kept.new.entries) }
    ensures capacity { kept.new.cap ≡ kept.old.cap }
{
    for (_, source) in olds {
        keep(kept, source);
    }
}
