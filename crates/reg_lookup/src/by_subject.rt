// Queries by subject.
ghost use Rattle.std.specs.Prelude.{◌≡◌, IfOk, IfErr, Ok};
ghost use Rattle.reg_modes.specs.reg_fold.Entries.{entries};
ghost use Rattle.reg_lookup.specs.BySubject as spec;
ghost use Rattle.reg_lookup.specs.Gives.{IsRefusalOf};

use crate::bodies::{entry_body, subjects_body, versions_body};
use crate::error::LookupError;
use crate::found::{counted, version_found};
use reg_modes::base_text::Text;
use reg_modes::reg_fold::{Registry, VersionRef};
use std::alloc::{AllocError, Global};

/// Lists a subject's live versions, and with `deleted` the soft-deleted ones too. Refused with
/// `SubjectNotFound` if there are none.
pub(crate) fn versions(
    alloc: Global,
    registry: &Registry,
    subject: &str,
    deleted: bool,
) -> Result<Text, LookupError>
    ensures found { IfOk result (λ body. spec.versions (entries registry.now) subject.now deleted ≡ Ok body) }
    ensures refused { IfErr result (IsRefusalOf (spec.versions (entries registry.now) subject.now deleted)) }
{
    let found = counted(registry, subject, deleted)?;
    Ok(versions_body(alloc, &found)?)
}

/// Lists the subjects with a live version, or with `deleted` any version. The only error is out of
/// memory.
pub(crate) fn subjects(
    alloc: Global,
    registry: &Registry,
    deleted: bool,
) -> Result<Text, AllocError>
    ensures { IfOk result (λ body. body ≡ spec.subjects (entries registry.now) deleted) }
{
    subjects_body(alloc, &registry.subjects(deleted)?)
}

/// Finds a version of a subject.
pub(crate) fn version(
    alloc: Global,
    registry: &Registry,
    subject: &str,
    which: VersionRef,
    deleted: bool,
) -> Result<Text, LookupError>
    ensures found { IfOk result (λ body. spec.version (entries registry.now) subject.now which deleted ≡ Ok body) }
    ensures refused { IfErr result (IsRefusalOf (spec.version (entries registry.now) subject.now which deleted)) }
{
    let found = version_found(registry, subject, which, deleted)?;
    Ok(entry_body(alloc, found)?)
}

/// Finds the text of a version's schema.
pub(crate) fn version_schema(
    registry: &Registry,
    subject: &str,
    which: VersionRef,
    deleted: bool,
) -> Result<Text, LookupError>
    ensures found { IfOk result (λ body. spec.version_schema (entries registry.now) subject.now which deleted ≡ Ok body) }
    ensures refused { IfErr result (IsRefusalOf (spec.version_schema (entries registry.now) subject.now which deleted)) }
{
    let found = version_found(registry, subject, which, deleted)?;
    Ok(found.text.clone()?)
}
