// The query by a schema.
ghost use Rattle.std.specs.Prelude.{◌≡◌, IfOk, IfErr, Ok, map};
ghost use Rattle.std.specs.List.{filter};
ghost use Rattle.std.specs.Option.{option_copied};
ghost use Rattle.reg_modes.specs.reg_entries.Sought.{AreInVersionOrder, has_schema, newest};
ghost use Rattle.reg_modes.specs.reg_fold.Entries.{entries};
ghost use Rattle.reg_lookup.specs.BySchema as spec;
ghost use Rattle.reg_lookup.specs.Gives.{IsRefusalOf};

use crate::bodies::entry_body;
use crate::error::LookupError;
use reg_modes::avro_schema::Schema;
use reg_modes::base_text::Text;
use reg_modes::reg_fold::{Entry, Refusal, Registry};
use std::alloc::Global;

/// Finds the latest version of a subject that has the schema of a text. Refused with
/// `InvalidSchema` if the text isn't a schema, with `SubjectNotFound` if the subject has no version
/// that is looked at, and else with `SchemaNotFound`.
pub(crate) fn lookup(
    alloc: Global,
    registry: &Registry,
    subject: &str,
    text: &str,
    deleted: bool,
) -> Result<Text, LookupError>
    ensures found { IfOk result (λ body. spec.lookup (entries registry.now) subject.now text.now deleted ≡ Ok body) }
    ensures refused { IfErr result (IsRefusalOf (spec.lookup (entries registry.now) subject.now text.now deleted)) }
{
    let Some(schema) = Schema::read_if_any(alloc, text)? else {
        return Err(LookupError::Refused(Refusal::InvalidSchema));
    };
    let found = registry.counting(subject, deleted)?;
    match latest_with(&found, schema.normal().as_str()) {
        Some(entry) => Ok(entry_body(alloc, entry)?),
        None if found.is_empty() => Err(LookupError::Refused(Refusal::SubjectNotFound)),
        None => Err(LookupError::Refused(Refusal::SchemaNotFound)),
    }
}

/// Returns the last entry, and so the latest version, with this normal text.
fn latest_with<'a>(entries: &[&'a Entry], normal: &str) -> Option<&'a Entry>
    requires { AreInVersionOrder (map (λ e. e.now) entries.now) }
    ensures { option_copied result ≡ newest (filter (has_schema normal.now) (map (λ e. e.now) entries.now)) }
{
    entries
        .iter()
        .rev()
        .copied()
        .find(|entry| entry.normal.as_str() == normal)
}
