// Queries in words.
use crate::words::{parts_of, schema_of, scope_of, subject_in_words, version_in, version_of};
use reg_lookup::Query;
use std::alloc::Global;
use test_tools::{CaseError, Said, cut, small_of};

/// A query on a schema's text.
fn text_query(alloc: Global, kind: &str, switch: bool, words: &str) -> Said<Query> {
    let (subject, rest) = cut(words);
    let subject = subject_in_words(alloc, subject)?;
    if kind == "lookup" {
        return Ok(Query::Lookup {
            subject,
            text: schema_of(alloc, rest)?,
            deleted: switch,
        });
    }
    let (word, behind) = cut(rest);
    let (version, text) = match version_in(word) {
        Ok(version) => (version, behind),
        Err(_) => (None, rest),
    };
    Ok(Query::Check {
        subject,
        version,
        text: schema_of(alloc, text)?,
        verbose: switch,
    })
}

/// A query on a version.
fn version_query(alloc: Global, kind: &str, deleted: bool, words: &str) -> Said<Query> {
    let (subject, version) = cut(words);
    let (subject, version) = (subject_in_words(alloc, subject)?, version_of(version)?);
    match kind {
        "version" => Ok(Query::Version {
            subject,
            version,
            deleted,
        }),
        "version_schema" => Ok(Query::VersionSchema {
            subject,
            version,
            deleted,
        }),
        _ => Err(CaseError::NotUnderstood),
    }
}

/// The query of those words.
pub fn query_in_words(alloc: Global, words: &str) -> Said<Query> {
    let (kind, switch, rest) = parts_of(words);
    match kind {
        "schema" => Ok(Query::SchemaById {
            id: small_of(rest)?,
        }),
        "id_versions" => Ok(Query::IdVersions {
            id: small_of(rest)?,
            deleted: switch,
        }),
        "subjects" => Ok(Query::Subjects { deleted: switch }),
        "versions" => Ok(Query::Versions {
            subject: subject_in_words(alloc, rest)?,
            deleted: switch,
        }),
        "level" => Ok(Query::Level {
            subject: scope_of(alloc, rest)?,
            default_global: switch,
        }),
        "mode" => Ok(Query::Mode {
            subject: scope_of(alloc, rest)?,
            default_global: switch,
        }),
        "lookup" | "check" => text_query(alloc, kind, switch, rest),
        _ => version_query(alloc, kind, switch, rest),
    }
}
