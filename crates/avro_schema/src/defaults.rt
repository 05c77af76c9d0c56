// Which defaults are values of their fields' types (Avro 1.11, "Records").
ghost use Rattle.std.specs.Prelude.{◌≡◌, ◌&&◌, [], true, false, not, int_le, map, filter, IfErr, OnOk, Contains, option_copied, option_map, is_some};
ghost use Rattle.std.specs.Option.{option_map_or};
ghost use Rattle.serde_json.specs.Find.{get_member, as_integer};
ghost use Rattle.serde_json.specs.View.{view, number_view, items_view, members_view};
ghost use Rattle.avro_schema.specs.Defaults as spec;
ghost use Rattle.avro_schema.specs.Required.{required_of, have_all};

use crate::{BadDefault, Field, Node, NodeId, Primitive, Schema};
use base_text::{Listed, Text};
use named_list::NamedList;
use serde_json::{Map, Number, Value};

impl Schema {
    /// Checks that each field's default is a value of the field's type (Avro 1.11, "Records").
    /// Returns the name of a field whose default isn't; if there are several, any one of them.
    /// Allocates nothing.
    ///
    /// The JSON values of a type are: `null` for null, a boolean for boolean, an integer of 32
    /// signed bits for int and of 64 for long, any integer for float and double, and a string for
    /// string, bytes, a fixed type and an enum. For an array, an array of values of its items; for
    /// a map, an object of its values; for a union, a value of its first branch. For a record, an
    /// object whose members named like fields are values of those fields; each field that it leaves
    /// out needs a default.
    pub fn check_defaults(&self) -> Result<(), BadDefault<'_>>
        ensures ok { OnOk result (spec.bad_defaults self.now.nodes ≡ []) }
        ensures bad { IfErr result (λ bad. Contains (spec.bad_defaults self.now.nodes) bad.field.now) }
    {
        let nodes = self.nodes();
        for node in nodes {
            if let Node::Record { fields, .. } = node {
                check_fields(self, fields.as_slice())?;
            }
        }
        Ok(())
    }
}

/// Checks the defaults of a record's fields.
fn check_fields<'s>(schema: &Schema, fields: &'s [Field]) -> Result<(), BadDefault<'s>>
    ensures ok { OnOk result (map (λ f. f.name) (filter (λ f. not (spec.has_good_default schema.now.nodes f)) fields.now) ≡ []) }
    ensures bad { IfErr result (λ bad. Contains (map (λ f. f.name) (filter (λ f. not (spec.has_good_default schema.now.nodes f)) fields.now)) bad.field.now) }
{
    for field in fields {
        if !has_good_default(schema, field) {
            return Err(BadDefault { field: &field.name });
        }
    }
    Ok(())
}

/// Returns whether a field has no default, or one that is a value of its type.
fn has_good_default(schema: &Schema, field: &Field) -> bool
    ensures { result ≡ spec.has_good_default schema.now.nodes field.now }
{
    match &field.default {
        Some(default) => default_fits(schema, field.node, default.json()),
        None => true,
    }
}

/// Returns the type that a default must be a value of: the type itself, or a union's first branch.
/// `None` for an empty union.
fn default_type(schema: &Schema, id: NodeId) -> Option<&Node>
    ensures { option_copied result ≡ spec.default_type schema.now.nodes id }
{
    match schema.nodes().get(id.index) {
        Some(Node::Union(branches)) => match branches.as_slice().first() {
            Some(branch) => schema.nodes().get(branch.index),
            None => None,
        },
        other => other,
    }
}

/// Returns the names of the fields that a default of this type must have: those without a default.
fn required_names(schema: &Schema, id: NodeId) -> Option<&Listed<Text>>
    ensures { option_copied result ≡ option_map required_of (spec.default_type schema.now.nodes id) }
{
    match schema.nodes().get(id.index) {
        Some(Node::Union(branches)) => match branches.as_slice().first() {
            Some(branch) => schema.required(*branch),
            None => None,
        },
        _ => schema.required(id),
    }
}

/// Returns whether a JSON value is a valid default of a type.
#[cycle(default_fits)]
fn default_fits(schema: &Schema, id: NodeId, value: &Value) -> bool
    ensures { result ≡ spec.default_fits schema.now.nodes id (view value.now) }
{
    let node = default_type(schema, id);
    match value {
        Value::Null => takes_null(node),
        Value::Bool(_) => takes_boolean(node),
        Value::Number(number) => takes_number(node, number),
        Value::String(_) => takes_string(node),
        Value::Array(items) => match node {
            Some(Node::Array(inner)) => items_fit(schema, *inner, items),
            _ => false,
        },
        Value::Object(members) => match node {
            Some(Node::Map(inner)) => values_fit(schema, *inner, members),
            Some(Node::Record { fields, .. }) => {
                fields_fit(schema, fields, members)
                    && have_required(members, required_names(schema, id))
            }
            _ => false,
        },
    }
}

#[cycle(default_fits)]
fn items_fit(schema: &Schema, id: NodeId, items: &Vec<Value>) -> bool
    ensures { result ≡ spec.items_fit schema.now.nodes id (items_view items.now.items) }
{
    for item in items {
        if !default_fits(schema, id, item) {
            return false;
        }
    }
    true
}

#[cycle(default_fits)]
fn values_fit(schema: &Schema, id: NodeId, members: &Map<String, Value>) -> bool
    ensures { result ≡ spec.values_fit schema.now.nodes id (members_view members.now.entries) }
{
    for (_name, value) in members.iter() {
        if !default_fits(schema, id, value) {
            return false;
        }
    }
    true
}

/// Returns whether the members named like fields are values of those fields.
#[cycle(default_fits)]
fn fields_fit(schema: &Schema, fields: &NamedList<Field>, members: &Map<String, Value>) -> bool
    ensures { result ≡ spec.fields_fit schema.now.nodes fields.now (members_view members.now.entries) }
{
    for (name, value) in members.iter() {
        if let Some(field) = field_named(fields, name.as_str()) {
            if !default_fits(schema, field.node, value) {
                return false;
            }
        }
    }
    true
}

fn field_named<'f>(fields: &'f NamedList<Field>, name: &str) -> Option<&'f Field>
    ensures { option_copied result ≡ spec.field_named fields.now name.now }
{
    fields.find(name)
}

/// Returns whether each of the names is a member's. Stops at the first that isn't, so it looks up
/// at most one name more than there are members.
fn have_required(members: &Map<String, Value>, required: Option<&Listed<Text>>) -> bool
    ensures { result ≡ option_map_or (have_all (members_view members.now.entries)) (option_copied required.entry) true }
{
    match required {
        Some(names) => have_all_of(members, names.as_slice()),
        None => true,
    }
}

fn have_all_of(members: &Map<String, Value>, names: &[Text]) -> bool
    ensures { result ≡ have_all (members_view members.now.entries) names.now }
{
    names.iter().all(|name| has_member(members, name.as_str()))
}

fn has_member(members: &Map<String, Value>, name: &str) -> bool
    ensures { result ≡ is_some (get_member name.now (members_view members.now.entries)) }
{
    members.contains_key(name)
}

fn takes_null(node: Option<&Node>) -> bool
    ensures { result ≡ spec.takes (option_copied node.entry) spec.a_null }
{
    match node {
        Some(Node::Primitive(primitive)) => matches!(primitive, Primitive::Null),
        _ => false,
    }
}

fn takes_boolean(node: Option<&Node>) -> bool
    ensures { result ≡ spec.takes (option_copied node.entry) spec.a_truth_value }
{
    match node {
        Some(Node::Primitive(primitive)) => matches!(primitive, Primitive::Boolean),
        _ => false,
    }
}

fn takes_number(node: Option<&Node>, number: &Number) -> bool
    ensures { result ≡ spec.takes (option_copied node.entry) (spec.a_number (number_view number.now)) }
{
    match node {
        Some(Node::Primitive(primitive)) => is_number_of(number, *primitive),
        _ => false,
    }
}

fn takes_string(node: Option<&Node>) -> bool
    ensures { result ≡ spec.takes (option_copied node.entry) spec.a_string }
{
    match node {
        Some(Node::Primitive(primitive)) => {
            matches!(primitive, Primitive::String | Primitive::Bytes)
        }
        Some(Node::Fixed { .. } | Node::Enum { .. }) => true,
        _ => false,
    }
}

/// Returns whether a number is a valid default of a primitive type.
fn is_number_of(number: &Number, primitive: Primitive) -> bool
    ensures { result ≡ spec.primitive_takes (spec.a_number (number_view number.now)) primitive }
{
    match primitive {
        Primitive::Int => is_within(number, i64::from(i32::MIN), i64::from(i32::MAX)),
        Primitive::Long => is_within(number, i64::MIN, i64::MAX),
        Primitive::Float | Primitive::Double => !number.is_f64(),
        _ => false,
    }
}

fn is_within(number: &Number, least: i64, greatest: i64) -> bool
    ensures { result ≡ option_map_or (λ z. int_le least z && int_le z greatest) (as_integer (number_view number.now)) false }
{
    match number.as_i64() {
        Some(n) => least <= n && n <= greatest,
        None => false,
    }
}
