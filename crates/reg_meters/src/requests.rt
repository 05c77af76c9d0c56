// What requests ask, as metrics tell them apart.
use reg_routes::Action;

/// The class of a request on the page of metrics, by its path and its method.
#[derive(Clone, Copy, Debug, PartialEq, Eq)]
pub enum RequestClass {
    /// A query.
    Lookup,
    /// A check of a schema.
    Check,
    /// A command, which may write something.
    Command,
    /// Not a request of the registry: no such path, no such method at the path, or it couldn't be
    /// read.
    Refused,
}

impl RequestClass {
    /// Returns the class of the requests with that action.
    pub fn of(action: Option<Action>) -> RequestClass {
        match action {
            Some(
                Action::SchemaById
                | Action::IdVersions
                | Action::Subjects
                | Action::Lookup
                | Action::Versions
                | Action::Version
                | Action::VersionSchema
                | Action::Level
                | Action::Mode,
            ) => RequestClass::Lookup,
            Some(Action::Check) => RequestClass::Check,
            Some(
                Action::DeleteSubject
                | Action::Register
                | Action::DeleteVersion
                | Action::SetLevel
                | Action::ClearLevel
                | Action::SetMode
                | Action::ClearMode,
            ) => RequestClass::Command,
            None => RequestClass::Refused,
        }
    }

    /// Returns its name on the page.
    pub fn word(self) -> &'static str {
        match self {
            RequestClass::Lookup => "lookup",
            RequestClass::Check => "check",
            RequestClass::Command => "command",
            RequestClass::Refused => "refused",
        }
    }
}
