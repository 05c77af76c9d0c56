// What is found among the entries, or why nothing is.
ghost use Rattle.std.specs.Prelude.{◌≡◌, IfOk, IfErr, map, Ok};
ghost use Rattle.reg_modes.specs.reg_fold.Entries.{entries};
ghost use Rattle.reg_lookup.specs.Found as spec;
ghost use Rattle.reg_lookup.specs.Gives.{IsRefusalOf};

use crate::error::LookupError;
use reg_modes::reg_fold::{Entry, Refusal, Registry, VersionRef};

/// Returns a subject's live entries, and with `deleted` the soft-deleted ones too, by version.
/// Refused with `SubjectNotFound` if there are none.
pub(crate) fn counted<'a>(
    registry: &'a Registry,
    subject: &str,
    deleted: bool,
) -> Result<Vec<&'a Entry>, LookupError>
    ensures found { IfOk result (λ es. spec.counted (entries registry.now) subject.now deleted ≡ Ok (map (λ e. e.now) es.items)) }
    ensures refused { IfErr result (IsRefusalOf (spec.counted (entries registry.now) subject.now deleted)) }
{
    let found = registry.counting(subject, deleted)?;
    if found.is_empty() {
        return Err(LookupError::Refused(Refusal::SubjectNotFound));
    }
    Ok(found)
}

/// Finds a version of a subject without making a list. Refused with `SubjectNotFound` if the
/// subject has no version that is looked at, and else with `VersionNotFound`.
pub(crate) fn version_found<'a>(
    registry: &'a Registry,
    subject: &str,
    which: VersionRef,
    deleted: bool,
) -> Result<&'a Entry, LookupError>
    ensures found { IfOk result (λ e. spec.version_found (entries registry.now) subject.now which deleted ≡ Ok e.now) }
    ensures refused { IfErr result (IsRefusalOf (spec.version_found (entries registry.now) subject.now which deleted)) }
{
    if let Some(entry) = registry.version(subject, which, deleted)? {
        return Ok(entry);
    }
    if registry
        .version(subject, VersionRef::Latest, deleted)?
        .is_none()
    {
        return Err(LookupError::Refused(Refusal::SubjectNotFound));
    }
    Err(LookupError::Refused(Refusal::VersionNotFound))
}
