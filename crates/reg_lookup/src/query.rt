// Queries.
use reg_modes::base_text::Text;
use reg_modes::reg_fold::VersionRef;

/// A query to a registry. With `deleted`, soft-deleted versions are looked at like live ones.
#[derive(Debug, Drop, PartialEq, Eq)]
pub enum Query {
    /// Asks for the schema that an id names, live or soft-deleted.
    SchemaById {
        id: u32,
    },
    /// Asks for the subjects and versions that have an id.
    IdVersions {
        id: u32,
        deleted: bool,
    },
    /// Asks for the subjects that have a version.
    Subjects {
        deleted: bool,
    },
    /// Asks for the latest version of a subject that has the schema of a text.
    Lookup {
        subject: Text,
        text: Text,
        deleted: bool,
    },
    /// Asks for the versions of a subject.
    Versions {
        subject: Text,
        deleted: bool,
    },
    /// Asks for a version of a subject.
    Version {
        subject: Text,
        version: VersionRef,
        deleted: bool,
    },
    /// Asks for the bare text of a version's schema.
    VersionSchema {
        subject: Text,
        version: VersionRef,
        deleted: bool,
    },
    /// Asks whether the schema of a text is compatible under the level in force: with one live
    /// version, or without `version` with those that the level looks at. With `verbose`, the answer
    /// also says why not.
    Check {
        subject: Text,
        version: Option<VersionRef>,
        text: Text,
        verbose: bool,
    },
    /// Asks for the global level in force, or for the subject's own; with `default_global` for the
    /// one in force for the subject.
    Level {
        subject: Option<Text>,
        default_global: bool,
    },
    /// Asks for the global mode in force, or for the subject's own; with `default_global` for the
    /// one in force for the subject.
    Mode {
        subject: Option<Text>,
        default_global: bool,
    },
}
