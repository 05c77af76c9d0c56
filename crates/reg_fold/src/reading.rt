// What the value of a record says.
ghost use Rattle.std.specs.Prelude.{◌≡◌, [], IfOk};
ghost use Rattle.std.specs.Option.{option_map_or};
ghost use Rattle.reg_fold.specs.IdMark.{id_marked_of};
ghost use Rattle.reg_fold.specs.InForce.{level_of, mode_name_of};
ghost use Rattle.reg_fold.specs.Own.{own_entry_of};
ghost use Rattle.reg_fold.specs.SoftDeletes.{delete_of};

use reg_entries::{Entry, SoftDelete};
use reg_values::avro_schema::KnownNormal;
use reg_values::base_text::Text;
use reg_values::reg_level_names::Level;
use reg_values::reg_records::{Record, Value};
use reg_values::{Decoded, decode, decode_value};
use std::alloc::{AllocError, Global};

/// Reads the entry that a record gives by itself, if it has a version's value. A schema text whose
/// normal text is known isn't read again.
#[tactic(auto, unfolding(crate::specs::Own::own_entry_of))]
pub(crate) fn own_entry_of(
    alloc: Global,
    given: &Record,
    known: Option<KnownNormal<'_>>,
) -> Result<Option<Entry>, AllocError>
    ensures { IfOk result (λ entry. entry ≡ own_entry_of given.now) }
{
    let Some(Decoded { value, normal }) = decode(alloc, given, known)? else {
        return Ok(None);
    };
    match value {
        Value::Schema {
            subject,
            version,
            id,
            schema: text,
            deleted,
        } => {
            Ok(Some(Entry {
                subject,
                version,
                id,
                text,
                normal: or_empty(normal),
                offset: given.offset,
                soft: deleted,
            }))
        }
        Value::Config(_)
        | Value::Mode(_)
        | Value::DeleteSubject { .. }
        | Value::Noop
        | Value::IdMark(_) => Ok(None),
    }
}

/// Returns the text, or the empty one.
fn or_empty(text: Option<Text>) -> Text
    ensures { result ≡ option_map_or (λ text. text) text [] }
{
    match text {
        Some(text) => text,
        None => Text::empty(),
    }
}

/// Reads the level that a record names, if it has a level's value.
#[tactic(auto, unfolding(crate::specs::InForce::level_of))]
pub(crate) fn level_of(alloc: Global, given: &Record) -> Result<Option<Level>, AllocError>
    ensures { IfOk result (λ level. level ≡ level_of given.now) }
{
    match decode_value(alloc, given)? {
        Some(Value::Config(name)) => Ok(Level::parse(name.as_str())),
        Some(
            Value::Schema { .. }
            | Value::Mode(_)
            | Value::DeleteSubject { .. }
            | Value::Noop
            | Value::IdMark(_),
        )
        | None => Ok(None),
    }
}

/// Reads the name of the mode in a record, if it has a mode's value.
#[tactic(auto, unfolding(crate::specs::InForce::mode_name_of))]
pub(crate) fn mode_name_of(alloc: Global, given: &Record) -> Result<Option<Text>, AllocError>
    ensures { IfOk result (λ name. name ≡ mode_name_of given.now) }
{
    match decode_value(alloc, given)? {
        Some(Value::Mode(name)) => Ok(Some(name)),
        Some(
            Value::Schema { .. }
            | Value::Config(_)
            | Value::DeleteSubject { .. }
            | Value::Noop
            | Value::IdMark(_),
        )
        | None => Ok(None),
    }
}

/// Reads the soft delete of a subject in a record, if it has the value of one.
#[tactic(auto, unfolding(crate::specs::SoftDeletes::delete_of))]
pub(crate) fn delete_of(alloc: Global, given: &Record) -> Result<Option<SoftDelete>, AllocError>
    ensures { IfOk result (λ delete. delete ≡ delete_of given.now) }
{
    match decode_value(alloc, given)? {
        Some(Value::DeleteSubject { version, .. }) => Ok(Some(SoftDelete {
            offset: given.offset,
            version,
        })),
        Some(
            Value::Schema { .. }
            | Value::Config(_)
            | Value::Mode(_)
            | Value::Noop
            | Value::IdMark(_),
        )
        | None => Ok(None),
    }
}

/// Reads the id in an id mark's record, if it has the value of one.
#[tactic(auto, unfolding(crate::specs::IdMark::id_marked_of))]
pub(crate) fn id_marked_of(alloc: Global, given: &Record) -> Result<Option<u32>, AllocError>
    ensures { IfOk result (λ id. id ≡ id_marked_of given.now) }
{
    match decode_value(alloc, given)? {
        Some(Value::IdMark(id)) => Ok(Some(id)),
        Some(
            Value::Schema { .. }
            | Value::Config(_)
            | Value::Mode(_)
            | Value::DeleteSubject { .. }
            | Value::Noop,
        )
        | None => Ok(None),
    }
}
