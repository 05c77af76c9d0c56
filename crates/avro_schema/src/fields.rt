// Fields of records, their types apart.
ghost use Rattle.std.specs.Prelude.{◌≡◌, IfOk, IfErr, MatchOption, true, false, map, option_map, codes, bytes_eq};
ghost use Rattle.std.specs.List.{list_all};
ghost use Rattle.json_tree.specs.View.{view, items_view};
ghost use Rattle.serde_json.specs.Find.{get};
ghost use Rattle.avro_schema.specs.Names as spec;
ghost use Rattle.avro_schema.specs.Form.{field_heading_of};
ghost use Rattle.avro_schema.specs.Faults.{unless};
ghost use Rattle.avro_schema.specs.Schema.{IsRefusalBy};
ghost use Rattle.avro_schema.specs.Plain.{IsPlain};
ghost use Rattle.avro_schema.specs.Building.{HasFieldNames, field_faults, items_at};

use crate::members::{aliases_of, string_at};
use crate::names::is_name;
use crate::{DefaultValue, Field, NodeId, SchemaError};
use base_text::{Listed, Text};
use json_tree::Json;
use named_list::NamedList;
use std::alloc::{AllocError, Global};

/// The parts of a field other than its type.
#[derive(Drop)]
pub(crate) struct FieldNames {
    pub(crate) name: Text,
    pub(crate) aliases: Vec<Text>,
    pub(crate) default: Option<DefaultValue>,
}

impl FieldNames {
    /// Makes the field, with this type.
    pub(crate) fn of_type(self, node: NodeId) -> Field
        ensures { result ≡ record { name = self.name; aliases = self.aliases.items; default = self.default; node = node } }
    {
        let FieldNames {
            name,
            aliases,
            default,
        } = self;
        Field {
            name,
            aliases: Listed::from(aliases),
            default,
            node,
        }
    }
}

/// Returns the array of a record's `fields` member.
pub(crate) fn field_items<'v, 'a>(value: &'v Json<'a>) -> Option<&'v Vec<Json<'a>>>
    ensures { option_map (λ v. items_view v.now.items) result ≡ items_at (codes "fields") (view value.now) }
{
    value.get("fields").and_then(Json::as_array)
}

/// Reads the parts of a field other than its type.
pub(crate) fn read_field_names(alloc: Global, value: &Json<'_>) -> Result<FieldNames, SchemaError>
    requires { IsPlain (view value.now) }
    ensures ok { IfOk result (HasFieldNames (field_heading_of (view value.now))) }
    ensures err { IfErr result (IsRefusalBy (field_faults (field_heading_of (view value.now)))) }
{
    let Some(name) = string_at(value, "name") else {
        return Err(SchemaError::BadForm);
    };
    if !is_name(name) {
        return Err(SchemaError::BadForm);
    }
    let Some(aliases) = aliases_of(alloc, value)? else {
        return Err(SchemaError::BadForm);
    };
    if !are_names(aliases.as_slice()) {
        return Err(SchemaError::BadName);
    }
    let name = Text::copy_of(alloc, name)?;
    let default = default_of(alloc, value)?;
    Ok(FieldNames {
        name,
        aliases,
        default,
    })
}

/// Returns a field's default, if it has one.
fn default_of(alloc: Global, value: &Json<'_>) -> Result<Option<DefaultValue>, AllocError>
    requires { IsPlain (view value.now) }
    ensures { IfOk result (λ o. o ≡ get (codes "default") (view value.now)) }
{
    match value.get("default") {
        Some(member) => Ok(Some(DefaultValue::copy_of(alloc, member)?)),
        None => Ok(None),
    }
}

/// Returns whether each of the texts is a valid name.
pub(crate) fn are_names(texts: &[Text]) -> bool
    ensures { result ≡ list_all spec.is_name texts.now }
{
    texts.iter().all(|text| is_name(text.as_str()))
}

/// Makes the list of a record's fields. Their names must be distinct, else `BadForm`.
pub(crate) fn named_fields(
    alloc: Global,
    fields: Vec<Field>,
) -> Result<NamedList<Field>, SchemaError>
    ensures ok { IfOk result (λ list. (list ≡ fields.items) × (spec.all_distinct bytes_eq (map (λ f. f.name) fields.items) ≡ true)) }
    ensures err { IfErr result (IsRefusalBy (unless (spec.all_distinct bytes_eq (map (λ f. f.name) fields.items)) SchemaError.BadForm)) }
{
    match distinct_fields(alloc, fields)? {
        Some(list) => Ok(list),
        None => Err(SchemaError::BadForm),
    }
}

/// Makes the list of fields. `None` if two of them have the same name.
fn distinct_fields(
    alloc: Global,
    fields: Vec<Field>,
) -> Result<Option<NamedList<Field>>, AllocError>
    ensures { IfOk result (λ found. MatchOption found
        (spec.all_distinct bytes_eq (map (λ f. f.name) fields.items) ≡ false)
        (λ list. (list ≡ fields.items) × (spec.all_distinct bytes_eq (map (λ f. f.name) fields.items) ≡ true))) }
{
    NamedList::of(alloc, fields)
}
