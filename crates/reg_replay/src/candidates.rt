// The command that may have written a batch.
ghost use Rattle.std.specs.Prelude.{◌≡◌, IfOk, option_map};
ghost use Rattle.reg_leader.specs.reg_modes.InForce.{mode};
ghost use Rattle.reg_replay.specs.Candidate as spec;

use reg_leader::Command;
use reg_leader::avro_schema::SchemaText;
use reg_leader::base_text::Text;
use reg_leader::reg_fold::{Registry, VersionRef};
use reg_leader::reg_level_names::Level;
use reg_leader::reg_modes::{Mode, mode_in_force};
use reg_leader::reg_records::{Key, Record, Value};
use reg_leader::reg_values::decode_value;
use std::alloc::{AllocError, Global};

/// Returns the one command that may have written the batch over this registry; `None` if no command
/// can have. Whether it did is decided by its step: if any command's step writes this batch, the
/// step of this command does too, though its reply may differ
/// ([`crate::batches_are_of_candidates`]).
///
/// It depends on the batch's first record that isn't an id mark, on how many records there are, and
/// on the mode in force. The only error is out of memory.
pub fn candidate(
    alloc: Global,
    registry: &Registry,
    batch: &[Record],
) -> Result<Option<Command>, AllocError>
    ensures { IfOk result (λ found. found ≡ spec.candidate (mode registry.now) batch.now) }
{
    let told = without_mark(batch);
    match told.first() {
        Some(first) => candidate_by(alloc, registry, first, told.len() == 1),
        None => Ok(None),
    }
}

/// Returns the batch without the id mark that it may begin with.
fn without_mark(batch: &[Record]) -> &[Record]
    ensures { result.now ≡ spec.without_mark batch.now }
{
    match batch.first() {
        Some(first) if is_mark(&first.key) => &batch[1..],
        _ => batch,
    }
}

fn is_mark(key: &Key) -> bool
    ensures { result ≡ spec.is_mark key.now }
{
    match key {
        Key::IdMark => true,
        Key::Schema { .. } | Key::Config(_) | Key::Mode(_) | Key::DeleteSubject(_) | Key::Noop =>
            false,
    }
}

/// Finds the command by the first record; `alone` says that it is the only one.
fn candidate_by(
    alloc: Global,
    registry: &Registry,
    first: &Record,
    alone: bool,
) -> Result<Option<Command>, AllocError>
    ensures { IfOk result (λ found. found ≡ spec.candidate_by (mode registry.now) first.now alone) }
{
    if first.value.is_none() {
        return removing(&first.key, alone);
    }
    match decode_value(alloc, first)? {
        Some(value) => putting(alloc, registry, &first.key, value),
        None => Ok(None),
    }
}

/// Returns the command that removes what a key has.
fn removing(key: &Key, alone: bool) -> Result<Option<Command>, AllocError>
    ensures { IfOk result (λ found. found ≡ spec.removing key.now alone) }
{
    match key {
        Key::Schema { subject, version } => removing_version(subject, *version, alone),
        Key::Config(scope) => match scope {
            Some(subject) => Ok(Some(Command::ClearLevel(subject.clone()?))),
            None => Ok(None),
        },
        Key::Mode(scope) => match scope {
            Some(subject) => Ok(Some(Command::ClearMode(subject.clone()?))),
            None => Ok(None),
        },
        Key::Noop => Ok(Some(Command::Noop)),
        Key::DeleteSubject(_) | Key::IdMark => Ok(None),
    }
}

/// Returns the deletion of one version, or of a subject, whose versions are removed one by one.
fn removing_version(
    subject: &Text,
    version: u32,
    alone: bool,
) -> Result<Option<Command>, AllocError>
    ensures { IfOk result (λ found. found ≡ spec.removing_version subject.now version alone) }
{
    let subject = subject.clone()?;
    if alone {
        return Ok(Some(Command::DeleteVersion {
            subject,
            version: VersionRef::Number(version),
            permanent: true,
        }));
    }
    Ok(Some(Command::DeleteSubject {
        subject,
        permanent: true,
    }))
}

/// Returns the command that gives a key this value.
fn putting(
    alloc: Global,
    registry: &Registry,
    key: &Key,
    value: Value,
) -> Result<Option<Command>, AllocError>
    ensures { IfOk result (λ found. found ≡ spec.putting (mode registry.now) key.now value) }
{
    match value {
        Value::Schema {
            subject,
            version,
            id,
            schema,
            deleted,
        } => {
            if deleted {
                return Ok(Some(Command::DeleteVersion {
                    subject,
                    version: VersionRef::Number(version),
                    permanent: false,
                }));
            }
            let text = SchemaText::new(alloc, schema);
            Ok(Some(registering(registry, subject, version, id, text)))
        }
        Value::Config(name) => setting_level(key, name.as_str()),
        Value::Mode(name) => setting_mode(key, name.as_str()),
        Value::DeleteSubject {
            subject,
            version: _,
        } => Ok(Some(Command::DeleteSubject {
            subject,
            permanent: false,
        })),
        Value::Noop | Value::IdMark(_) => Ok(None),
    }
}

/// Returns an import if the mode in force is IMPORT, else a registration.
fn registering(
    registry: &Registry,
    subject: Text,
    version: u32,
    id: u32,
    text: SchemaText,
) -> Command
    ensures { result ≡ spec.registering (mode registry.now (Some subject)) subject version id text }
{
    match mode_in_force(registry, Some(subject.as_str())) {
        Mode::Import => Command::ImportRegister {
            subject,
            text,
            id,
            version: Some(version),
        },
        Mode::Readwrite | Mode::Readonly => Command::Register { subject, text },
    }
}

/// Returns the command that sets the level of that name in the key's scope.
fn setting_level(key: &Key, name: &str) -> Result<Option<Command>, AllocError>
    ensures { IfOk result (λ found. found ≡ spec.setting_level key.now name.now) }
{
    match (key, Level::parse(name)) {
        (Key::Config(subject), Some(level)) => Ok(Some(Command::SetLevel {
            subject: subject.clone()?,
            level,
        })),
        _ => Ok(None),
    }
}

/// Returns the command that sets the mode of that name in the key's scope. It is forced, which
/// doesn't change what is written.
fn setting_mode(key: &Key, name: &str) -> Result<Option<Command>, AllocError>
    ensures { IfOk result (λ found. found ≡ spec.setting_mode key.now name.now) }
{
    match (key, Mode::parse(name)) {
        (Key::Mode(subject), Some(mode)) => Ok(Some(Command::SetMode {
            subject: subject.clone()?,
            mode,
            force: true,
        })),
        _ => Ok(None),
    }
}
