// The commands that delete.
ghost use Rattle.std.specs.Prelude.{◌≡◌, ◌∷◌, not, false, true, IfOk, map, option_copied};
ghost use Rattle.std.specs.List.{list_any};
ghost use Rattle.reg_leader.specs.Deciding.{Follows};
ghost use Rattle.reg_rules.specs.Standing.{version_meant};
ghost use Rattle.reg_leader.specs.Step.{delete_all_permanently, delete_all_softly, delete_permanently, delete_softly, delete_subject, delete_version, marked, no_version};
ghost use Rattle.reg_rules.specs.Writings.{removed};

use crate::deed::Deed;
use crate::marking::marked;
use crate::reply::Reply;
use reg_rules::base_text::{Listed, Text};
use reg_rules::reg_fold::{Entry, Refusal, Registry, VersionRef};
use reg_rules::reg_modes::{may_write, mode_in_force};
use reg_rules::{Writing, must_be_open, must_have_offset, must_stand};
use std::alloc::{AllocError, Global};

pub(crate) fn delete_version(
    alloc: Global,
    registry: &Registry,
    next: u64,
    subject: &Text,
    version: VersionRef,
    permanent: bool,
) -> Result<Deed, Refusal>
    ensures { Follows (delete_version registry.now next subject.now version permanent) result }
{
    must_be_open(registry)?;
    must_have_offset(next)?;
    may_write(mode_in_force(registry, Some(subject.as_str())))?;
    must_stand(registry, subject)?;
    let Some(entry) = version_meant(registry, subject, version)? else {
        return Err(no_version(version));
    };
    if permanent {
        delete_permanently(alloc, registry, entry)
    } else {
        delete_softly(alloc, entry)
    }
}

/// Returns the entry that a delete names: the latest live one, or the one of that number, live or
/// soft-deleted.
fn version_meant<'a>(
    registry: &'a Registry,
    subject: &Text,
    version: VersionRef,
) -> Result<Option<&'a Entry>, AllocError>
    ensures { IfOk result (λ found. option_copied found ≡ version_meant registry.now subject.now version) }
{
    match version {
        VersionRef::Latest => registry.version(subject.as_str(), version, false),
        VersionRef::Number(_) => registry.version(subject.as_str(), version, true),
    }
}

/// Soft-deletes a version. Refused if it isn't live.
fn delete_softly(alloc: Global, entry: &Entry) -> Result<Deed, Refusal>
    ensures { Follows (delete_softly entry.now) result }
{
    if entry.soft {
        return Err(Refusal::VersionSoftDeleted);
    }
    let writing = Writing::deleted_again(entry)?;
    Ok(Deed {
        reply: Reply::Version(entry.version),
        writings: vec![in alloc; writing]?,
    })
}

/// Writes an id mark and removes a version. Refused if it isn't soft-deleted.
fn delete_permanently(alloc: Global, registry: &Registry, entry: &Entry) -> Result<Deed, Refusal>
    ensures { Follows (delete_permanently registry.now entry.now) result }
{
    if !entry.soft {
        return Err(Refusal::VersionNotSoftDeleted);
    }
    let writing = Writing::removed(entry)?;
    Ok(Deed {
        reply: Reply::Version(entry.version),
        writings: vec![in alloc; marked(registry), writing]?,
    })
}

/// Returns the refusal for a version that doesn't exist.
fn no_version(version: VersionRef) -> Refusal
    ensures { result ≡ no_version version }
{
    match version {
        VersionRef::Latest => Refusal::SubjectNotFound,
        VersionRef::Number(_) => Refusal::VersionNotFound,
    }
}

pub(crate) fn delete_subject(
    alloc: Global,
    registry: &Registry,
    next: u64,
    subject: &Text,
    permanent: bool,
) -> Result<Deed, Refusal>
    ensures { Follows (delete_subject registry.now next subject.now permanent) result }
{
    must_be_open(registry)?;
    must_have_offset(next)?;
    may_write(mode_in_force(registry, Some(subject.as_str())))?;
    let Some(greatest) = registry.greatest_version(subject.as_str()) else {
        return Err(Refusal::SubjectNotFound);
    };
    if permanent {
        delete_all_permanently(alloc, registry, subject, greatest)
    } else {
        delete_all_softly(alloc, registry, subject, greatest)
    }
}

/// Soft-deletes the subject's versions, up to the greatest. Refused if none is live.
fn delete_all_softly(
    alloc: Global,
    registry: &Registry,
    subject: &Text,
    greatest: u32,
) -> Result<Deed, Refusal>
    ensures { Follows (delete_all_softly registry.now subject.now greatest) result }
{
    let live = registry.live(subject.as_str())?;
    if live.is_empty() {
        return Err(Refusal::SubjectSoftDeleted);
    }
    let versions = versions_of(alloc, &live)?;
    let writing = Writing::deleted_up_to(subject, greatest)?;
    Ok(Deed {
        reply: Reply::Versions(Listed::from(versions)),
        writings: vec![in alloc; writing]?,
    })
}

/// Writes an id mark and removes the subject's versions, each with a record of its own. Refused if
/// one is live.
fn delete_all_permanently(
    alloc: Global,
    registry: &Registry,
    subject: &Text,
    greatest: u32,
) -> Result<Deed, Refusal>
    ensures { Follows (delete_all_permanently registry.now subject.now) result }
{
    let entries = registry.counting(subject.as_str(), true)?;
    if any_live(&entries) {
        return Err(Refusal::SubjectNotSoftDeleted);
    }
    Ok(Deed {
        reply: Reply::Versions(Listed::from(versions_of(alloc, &entries)?)),
        writings: removed_all(alloc, registry, &entries)?,
    })
}

/// Returns whether one of the entries is live.
fn any_live(entries: &[&Entry]) -> bool
    ensures { result ≡ list_any (λ e. not e.now.soft) entries.now }
{
    entries.iter().any(|entry| !entry.soft)
}

fn versions_of(alloc: Global, entries: &[&Entry]) -> Result<Vec<u32>, AllocError>
    ensures { IfOk result (λ versions. versions.items ≡ map (λ e. e.version) (map (λ e. e.now) entries.now)) }
{
    let mut versions = Vec::new(alloc);
    for entry in entries {
        versions.push(entry.version)?;
    }
    Ok(versions)
}

fn removed_all(
    alloc: Global,
    registry: &Registry,
    entries: &[&Entry],
) -> Result<Vec<Writing>, AllocError>
    ensures { IfOk result (λ writings. writings.items ≡ marked registry.now ∷ map removed (map (λ e. e.now) entries.now)) }
{
    let mut writings = vec![in alloc; marked(registry)]?;
    for entry in entries {
        writings.push(Writing::removed(entry)?)?;
    }
    Ok(writings)
}
