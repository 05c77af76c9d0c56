// What a registry is told to do.
use reg_rules::avro_schema::SchemaText;
use reg_rules::base_text::Text;
use reg_rules::reg_fold::VersionRef;
use reg_rules::reg_level_names::Level;
use reg_rules::reg_modes::Mode;

/// A change to the registry. A `subject` of `None` means all subjects.
#[derive(Debug, Drop, Clone)]
pub enum Command {
    /// Registers a schema. The id and the version are chosen by the registry.
    Register {
        subject: Text,
        text: SchemaText,
    },
    /// Registers a schema with the caller's id, and with the caller's version if there is one.
    ImportRegister {
        subject: Text,
        text: SchemaText,
        id: u32,
        version: Option<u32>,
    },
    /// Soft-deletes a version; with `permanent` removes one that is soft-deleted.
    DeleteVersion {
        subject: Text,
        version: VersionRef,
        permanent: bool,
    },
    /// Soft-deletes all versions of a subject; with `permanent` removes them if none is live.
    DeleteSubject {
        subject: Text,
        permanent: bool,
    },
    /// Sets the level of a scope.
    SetLevel {
        subject: Option<Text>,
        level: Level,
    },
    /// Removes the subject's own level.
    ClearLevel(Text),
    /// Sets the mode of a scope. With `force`, IMPORT is set even if versions are live.
    SetMode {
        subject: Option<Text>,
        mode: Mode,
        force: bool,
    },
    /// Removes the subject's own mode.
    ClearMode(Text),
    /// Writes a record that changes nothing.
    Noop,
}

impl Command {
    /// Returns the text of the schema that a registration carries, else `None`. Takes no memory.
    pub fn schema(&self) -> Option<&SchemaText> {
        match self {
            Command::Register { text, .. } | Command::ImportRegister { text, .. } => Some(text),
            Command::DeleteVersion { .. }
            | Command::DeleteSubject { .. }
            | Command::SetLevel { .. }
            | Command::ClearLevel(_)
            | Command::SetMode { .. }
            | Command::ClearMode(_)
            | Command::Noop => None,
        }
    }
}
