// Queries by a schema's id.
ghost use Rattle.std.specs.Prelude.{◌≡◌, IfOk, IfErr, Ok};
ghost use Rattle.std.specs.List.{filter};
ghost use Rattle.reg_modes.specs.reg_entries.Sought.{counts};
ghost use Rattle.reg_modes.specs.reg_fold.Entries.{entries};
ghost use Rattle.reg_lookup.specs.ById as spec;
ghost use Rattle.reg_lookup.specs.Gives.{IsRefusalOf};

use crate::bodies::{places_body, schema_body};
use crate::error::LookupError;
use reg_modes::base_text::Text;
use reg_modes::reg_fold::{Entry, Refusal, Registry};
use std::alloc::Global;

/// Finds the schema that an id names. Refused with `SchemaNotFound` if it names none.
pub(crate) fn schema_by_id(alloc: Global, registry: &Registry, id: u32) -> Result<Text, LookupError>
    ensures found { IfOk result (λ body. spec.schema_by_id registry.now id ≡ Ok body) }
    ensures refused { IfErr result (IsRefusalOf (spec.schema_by_id registry.now id)) }
{
    let Some(entry) = registry.by_id(id) else {
        return Err(LookupError::Refused(Refusal::SchemaNotFound));
    };
    Ok(schema_body(alloc, entry.text.as_str())?)
}

/// Lists the subjects and versions of an id, soft-deleted ones only with `deleted`. Refused with
/// `SchemaNotFound` if no version has the id, live or soft-deleted.
pub(crate) fn id_versions(
    alloc: Global,
    registry: &Registry,
    id: u32,
    deleted: bool,
) -> Result<Text, LookupError>
    ensures found { IfOk result (λ body. spec.id_versions (entries registry.now) id deleted ≡ Ok body) }
    ensures refused { IfErr result (IsRefusalOf (spec.id_versions (entries registry.now) id deleted)) }
{
    let mut found = registry.with_id(id)?;
    if found.is_empty() {
        return Err(LookupError::Refused(Refusal::SchemaNotFound));
    }
    keep_counting(&mut found, deleted);
    Ok(places_body(alloc, &found)?)
}

/// Keeps the live entries, and with `deleted` all.
fn keep_counting(found: &mut Vec<&Entry>, deleted: bool)
    ensures { found.new.items ≡ filter (λ e. counts deleted e.now) found.old.items }
{
    found.retain(|entry| deleted || !entry.soft);
}
