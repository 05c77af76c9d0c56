// The paths of the registry, and what each method asks of them.
ghost use Rattle.std.specs.Prelude.{◌≡◌, codes};
ghost use Rattle.std.specs.List.{join_by};
ghost use Rattle.reg_refusals.specs.Allow.{allow_text};
ghost use Rattle.reg_routes.specs.Routes.{action_of, allow_of, method_of, methods_of, number_place, pattern_of, subject_place};

use reg_refusals::Allow;

/// A path of the Schema Registry API; the parts in braces are parameters.
#[derive(Clone, Copy, Debug, PartialEq, Eq)]
pub enum Route {
    /// `/schemas/ids/{id}`
    SchemaById,
    /// `/schemas/ids/{id}/versions`
    IdVersions,
    /// `/subjects`
    Subjects,
    /// `/subjects/{subject}`
    Subject,
    /// `/subjects/{subject}/versions`
    Versions,
    /// `/subjects/{subject}/versions/{version}`
    Version,
    /// `/subjects/{subject}/versions/{version}/schema`
    VersionSchema,
    /// `/compatibility/subjects/{subject}/versions`
    CheckAll,
    /// `/compatibility/subjects/{subject}/versions/{version}`
    CheckOne,
    /// `/config`
    Level,
    /// `/config/{subject}`
    SubjectLevel,
    /// `/mode`
    Mode,
    /// `/mode/{subject}`
    SubjectMode,
}

/// What a method asks of a path: the query or the command of that name, without its arguments.
#[derive(Clone, Copy, Debug, PartialEq, Eq)]
pub enum Action {
    SchemaById,
    IdVersions,
    Subjects,
    Lookup,
    DeleteSubject,
    Versions,
    Register,
    Version,
    DeleteVersion,
    VersionSchema,
    Check,
    Level,
    SetLevel,
    ClearLevel,
    Mode,
    SetMode,
    ClearMode,
}

impl Action {
    /// Returns the HTTP method that asks the action.
    pub fn method(self) -> &'static str
        ensures { result.now ≡ method_of self }
    {
        match self {
            Action::SchemaById
            | Action::IdVersions
            | Action::Subjects
            | Action::Versions
            | Action::Version
            | Action::VersionSchema
            | Action::Level
            | Action::Mode => "GET",
            Action::Lookup | Action::Register | Action::Check => "POST",
            Action::SetLevel | Action::SetMode => "PUT",
            Action::DeleteSubject
            | Action::DeleteVersion
            | Action::ClearLevel
            | Action::ClearMode => "DELETE",
        }
    }
}

impl Route {
    /// Returns the path with its parameters in braces.
    pub fn pattern(self) -> &'static str
        ensures { result.now ≡ pattern_of self }
    {
        match self {
            Route::SchemaById => "/schemas/ids/{id}",
            Route::IdVersions => "/schemas/ids/{id}/versions",
            Route::Subjects => "/subjects",
            Route::Subject => "/subjects/{subject}",
            Route::Versions => "/subjects/{subject}/versions",
            Route::Version => "/subjects/{subject}/versions/{version}",
            Route::VersionSchema => "/subjects/{subject}/versions/{version}/schema",
            Route::CheckAll => "/compatibility/subjects/{subject}/versions",
            Route::CheckOne => "/compatibility/subjects/{subject}/versions/{version}",
            Route::Level => "/config",
            Route::SubjectLevel => "/config/{subject}",
            Route::Mode => "/mode",
            Route::SubjectMode => "/mode/{subject}",
        }
    }

    /// Returns what a method asks of the path; `None` if the path doesn't offer it. Methods are
    /// case-sensitive (RFC 9110, section 9.1).
    pub fn action(self, method: &str) -> Option<Action>
        ensures { result ≡ action_of self method.now }
    {
        match (self, method) {
            (Route::SchemaById, "GET") => Some(Action::SchemaById),
            (Route::IdVersions, "GET") => Some(Action::IdVersions),
            (Route::Subjects, "GET") => Some(Action::Subjects),
            (Route::Subject, "POST") => Some(Action::Lookup),
            (Route::Subject, "DELETE") => Some(Action::DeleteSubject),
            (Route::Versions, "GET") => Some(Action::Versions),
            (Route::Versions, "POST") => Some(Action::Register),
            (Route::Version, "GET") => Some(Action::Version),
            (Route::Version, "DELETE") => Some(Action::DeleteVersion),
            (Route::VersionSchema, "GET") => Some(Action::VersionSchema),
            (Route::CheckAll | Route::CheckOne, "POST") => Some(Action::Check),
            (Route::Level | Route::SubjectLevel, "GET") => Some(Action::Level),
            (Route::Level | Route::SubjectLevel, "PUT") => Some(Action::SetLevel),
            (Route::SubjectLevel, "DELETE") => Some(Action::ClearLevel),
            (Route::Mode | Route::SubjectMode, "GET") => Some(Action::Mode),
            (Route::Mode | Route::SubjectMode, "PUT") => Some(Action::SetMode),
            (Route::SubjectMode, "DELETE") => Some(Action::ClearMode),
            _ => None,
        }
    }

    /// Returns the methods that the path offers, for the field `Allow` (RFC 9110, section 10.2.1).
    pub fn allow(self) -> Allow
        ensures value { result ≡ allow_of self }
        ensures text { allow_text result ≡ join_by (λ method. method) (codes ", ") (methods_of self) }
    {
        match self {
            Route::SchemaById | Route::IdVersions | Route::Subjects | Route::VersionSchema => {
                Allow::Get
            }
            Route::Subject => Allow::PostDelete,
            Route::Versions => Allow::GetPost,
            Route::Version => Allow::GetDelete,
            Route::CheckAll | Route::CheckOne => Allow::Post,
            Route::Level | Route::Mode => Allow::GetPut,
            Route::SubjectLevel | Route::SubjectMode => Allow::GetPutDelete,
        }
    }

    /// Returns which part of the path is a subject; `None` if none is. Parts are counted from 0,
    /// which is the empty part before the first slash.
    pub fn subject_place(self) -> Option<usize>
        ensures { result ≡ subject_place self }
    {
        match self {
            Route::SchemaById | Route::IdVersions | Route::Subjects | Route::Level | Route::Mode =>
                None,
            Route::Subject
            | Route::Versions
            | Route::Version
            | Route::VersionSchema
            | Route::SubjectLevel
            | Route::SubjectMode => Some(2),
            Route::CheckAll | Route::CheckOne => Some(3),
        }
    }

    /// Returns which part of the path is an id or a version, counted from 0 as in
    /// [`Route::subject_place`]; `None` if none is.
    pub fn number_place(self) -> Option<usize>
        ensures { result ≡ number_place self }
    {
        match self {
            Route::SchemaById | Route::IdVersions => Some(3),
            Route::Version | Route::VersionSchema => Some(4),
            Route::CheckOne => Some(5),
            Route::Subjects
            | Route::Subject
            | Route::Versions
            | Route::CheckAll
            | Route::Level
            | Route::SubjectLevel
            | Route::Mode
            | Route::SubjectMode => None,
        }
    }
}
