// Lookups that may miss what others just wrote.
ghost use Rattle.std.specs.Prelude.{◌≡◌, ◌&&◌, eqb};
ghost use Rattle.reg_join_desk.specs.Hidden.{asks_for_one, may_be_hidden};

use reg_lookup::{Answer, Query};

/// The HTTP status "Not Found" (RFC 9110, section 15.5.5).
const NOT_FOUND: u16 = 404;

/// Returns whether the answer says that an id or a version isn't found. Another process may have
/// written it, and this one may not have been told yet.
pub(crate) fn may_be_hidden(query: &Query, answer: &Answer) -> bool
    ensures { result ≡ may_be_hidden query.now answer.now }
{
    answer.status == NOT_FOUND && asks_for_one(query)
}

/// Returns whether the query asks for one id or one version.
fn asks_for_one(query: &Query) -> bool
    ensures { result ≡ asks_for_one query.now }
{
    match query {
        Query::SchemaById { .. }
        | Query::IdVersions { .. }
        | Query::Lookup { .. }
        | Query::Version { .. }
        | Query::VersionSchema { .. } => true,
        Query::Check { version, .. } => version.is_some(),
        Query::Subjects { .. }
        | Query::Versions { .. }
        | Query::Level { .. }
        | Query::Mode { .. } => false,
    }
}
