// The answer to a query.
ghost use Rattle.std.specs.Prelude.{◌≡◌, IfOk, option_map};
ghost use Rattle.reg_modes.specs.reg_set.Compaction.{KeepsLasts};
ghost use Rattle.reg_modes.specs.reg_set.LastRecords.{last_records};
ghost use Rattle.reg_modes.specs.reg_set.Records.{Records};
ghost use Rattle.reg_lookup.specs.Answers.{IsAnswer, IsAnswerOver, HaveOneAnswer};

use crate::answered::{Answer, answer_of};
use crate::by_id::{id_versions, schema_by_id};
use crate::by_schema::lookup;
use crate::by_subject::{subjects, version, version_schema, versions};
use crate::checked::check_answer;
use crate::laws::{keeping_lasts_answers_alike, queries_have_one_answer};
use crate::query::Query;
use crate::settings::{level_found, mode_found};
use reg_modes::base_text::Text;
use reg_modes::reg_fold::Registry;
use std::alloc::{AllocError, Global};

/// Answers a query; a refusal is an answer too. The only error is out of memory.
///
/// A registry over a set of records gives the same bytes as one over a part that keeps its last
/// records.
pub fn answer(alloc: Global, registry: &Registry, query: &Query) -> Result<Answer, AllocError>
    ensures answered { IfOk result (IsAnswer registry.now query.now) }
    ensures one_answer { HaveOneAnswer }
    ensures compactions { IfOk result (λ a. (part whole : Records) → registry.now ≡ last_records whole
        → KeepsLasts part whole → IsAnswerOver part query.now a) }
{
    queries_have_one_answer();
    keeping_lasts_answers_alike();
    answer_by_kind(alloc, registry, query)
}

fn answer_by_kind(alloc: Global, registry: &Registry, query: &Query) -> Result<Answer, AllocError>
    ensures { IfOk result (IsAnswer registry.now query.now) }
{
    match query {
        Query::SchemaById { id } => answer_of(alloc, schema_by_id(alloc, registry, *id)),
        Query::IdVersions { id, deleted } => {
            answer_of(alloc, id_versions(alloc, registry, *id, *deleted))
        }
        Query::Subjects { deleted } => Ok(Answer {
            status: 200,
            body: subjects(alloc, registry, *deleted)?,
        }),
        Query::Lookup {
            subject,
            text,
            deleted,
        } => answer_of(
            alloc,
            lookup(alloc, registry, subject.as_str(), text.as_str(), *deleted),
        ),
        Query::Versions { subject, deleted } => {
            answer_of(alloc, versions(alloc, registry, subject.as_str(), *deleted))
        }
        Query::Version {
            subject,
            version: which,
            deleted,
        } => answer_of(
            alloc,
            version(alloc, registry, subject.as_str(), *which, *deleted),
        ),
        Query::VersionSchema {
            subject,
            version: which,
            deleted,
        } => answer_of(
            alloc,
            version_schema(registry, subject.as_str(), *which, *deleted),
        ),
        Query::Check {
            subject,
            version: which,
            text,
            verbose,
        } => check_answer(
            alloc,
            registry,
            subject.as_str(),
            *which,
            text.as_str(),
            *verbose,
        ),
        Query::Level {
            subject,
            default_global,
        } => answer_of(
            alloc,
            level_found(alloc, registry, text_of(subject), *default_global),
        ),
        Query::Mode {
            subject,
            default_global,
        } => answer_of(
            alloc,
            mode_found(alloc, registry, text_of(subject), *default_global),
        ),
    }
}

fn text_of(subject: &Option<Text>) -> Option<&str>
    ensures { option_map (λ s. s.now) result ≡ subject.now }
{
    match subject {
        Some(subject) => Some(subject.as_str()),
        None => None,
    }
}
