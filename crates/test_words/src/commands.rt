// Commands in words.
use crate::words::{
    level_of, mode_of, parts_of, schema_of, scope_of, subject_in_words, version_of,
};
use reg_leader::Command;
use reg_leader::avro_schema::SchemaText;
use std::alloc::Global;
use test_tools::{CaseError, Said, cut, small_of};

fn import_command(alloc: Global, subject: &str, words: &str) -> Said<Command> {
    let (id, rest) = cut(words);
    let (version, schema) = cut(rest);
    let version = match version {
        "-" => None,
        _ => Some(small_of(version)?),
    };
    Ok(Command::ImportRegister {
        subject: subject_in_words(alloc, subject)?,
        text: SchemaText::new(alloc, schema_of(alloc, schema)?),
        id: small_of(id)?,
        version,
    })
}

/// A command that removes something or sets it.
fn other_command(alloc: Global, kind: &str, switch: bool, words: &str) -> Said<Command> {
    let (scope, rest) = cut(words);
    match kind {
        "delete" => Ok(Command::DeleteVersion {
            subject: subject_in_words(alloc, scope)?,
            version: version_of(rest)?,
            permanent: switch,
        }),
        "delete_all" => Ok(Command::DeleteSubject {
            subject: subject_in_words(alloc, words)?,
            permanent: switch,
        }),
        "set_level" => Ok(Command::SetLevel {
            subject: scope_of(alloc, scope)?,
            level: level_of(rest)?,
        }),
        "set_mode" => Ok(Command::SetMode {
            subject: scope_of(alloc, scope)?,
            mode: mode_of(rest)?,
            force: switch,
        }),
        _ => Err(CaseError::NotUnderstood),
    }
}

/// The command of those words.
pub fn command_in_words(alloc: Global, words: &str) -> Said<Command> {
    let (kind, switch, rest) = parts_of(words);
    let (subject, schema) = cut(rest);
    match kind {
        "register" => Ok(Command::Register {
            subject: subject_in_words(alloc, subject)?,
            text: SchemaText::new(alloc, schema_of(alloc, schema)?),
        }),
        "import" => import_command(alloc, subject, schema),
        "clear_level" => Ok(Command::ClearLevel(subject_in_words(alloc, rest)?)),
        "clear_mode" => Ok(Command::ClearMode(subject_in_words(alloc, rest)?)),
        "noop" => Ok(Command::Noop),
        _ => other_command(alloc, kind, switch, rest),
    }
}
