// A schema: the list of its nodes, the root first.
ghost use Rattle.std.specs.Prelude.{◌≡◌, ◌≢◌, ◌<◌, ◌≤◌, length, slice_get, Some, None, All, IfOk, IfErr, option_copied, option_map, string_bytes};
ghost use Rattle.serde_json.specs.Read.{read as json_of};
ghost use Rattle.json_tree.specs.View.{view};

use crate::builder::Builder;
use crate::laws::schemas_are_sound;
use crate::limits::TEXT_LIMIT;
use crate::members::has_float;
use crate::normal::normal_of;
use crate::required::required_fields;
use crate::{FullName, Node, NodeId, SchemaError};
use base_text::{Listed, Text};
use json::Scratch;
use json_tree::{Json, JsonError};
use std::alloc::{AllocError, Global};
use std::marker::Model;

/// A schema, read from its text. Contracts see its nodes, the root first, and its normal text.
#[derive(Drop)]
pub struct Schema {
    nodes: Vec<Node>,
    /// For each node, the names of its fields without a default.
    required: Vec<Listed<Text>>,
    normal: Text,
}

impl Model for Schema {
    ghost use Rattle.std.specs.Prelude.{◌≡◌, Some, map};
    ghost use Rattle.avro_schema.specs.Required.{required_of};
    ghost use Rattle.std.specs.Coded.{codes};
    ghost use Rattle.avro_schema.specs.JsonCode.{json_code};
    ghost use Rattle.avro_schema.specs.Schema.{Meaning, schema_of};

    ghost Value = { Meaning };

    ghost coded = { Prim.hlevel (codes, json_code) };

    ghost view = { λ s. record { nodes = s.nodes.items; normal_text = s.normal } };

    ghost invariant = { λ s. (schema_of s.normal ≡ Some (record { nodes = s.nodes.items; normal_text = s.normal }))
        × (s.required.items ≡ map required_of s.nodes.items) };
}

impl Schema {
    ghost use Rattle.avro_schema.specs.Nodes.{name_in};
    ghost use Rattle.avro_schema.specs.Schema.{schema_of, faults, IsRefusalBy};
    ghost use Rattle.avro_schema.specs.Sound.{IsSound, parts_of_node};
    ghost use Rattle.avro_schema.specs.Required.{required_of};

    /// Reads a schema's text: JSON of at most `TEXT_LIMIT` bytes (Avro 1.11, "Schema Declaration").
    ///
    /// A name must be defined before its use. A name with a dot is looked up as written; another in
    /// the enclosing namespace, then in the null namespace. Defaults aren't checked. Errors are
    /// those of [`SchemaError`], each only if the text has that fault.
    pub fn read(alloc: Global, text: &str) -> Result<Schema, SchemaError>
        ensures ok { IfOk result (λ s. schema_of text.now ≡ Some s) }
        ensures err { IfErr result (IsRefusalBy (faults text.now)) }
    {
        if text.len() > TEXT_LIMIT {
            return Err(SchemaError::TooLong);
        }
        let mut scratch = Scratch::new(alloc);
        let value = read_json(alloc, text, &mut scratch)?;
        Schema::of_json(alloc, text, &value)
    }

    /// Reads the schema from the JSON value of `text`.
    fn of_json(alloc: Global, text: &str, value: &Json<'_>) -> Result<Schema, SchemaError>
        requires of_text { json_of text.now ≡ Some (view value.now) }
        requires within { length text.now ≤ TEXT_LIMIT }
        ensures ok { IfOk result (λ s. schema_of text.now ≡ Some s) }
        ensures err { IfErr result (IsRefusalBy (faults text.now)) }
    {
        if has_float(value) {
            return Err(SchemaError::FloatNumber);
        }
        let mut builder = Builder::new(alloc);
        let null = builder.numbered(alloc, &Text::empty(), None)?;
        builder.read_type(alloc, value, &null)?;
        let normal = normal_of(alloc, text, value)?;
        let required = required_fields(alloc, builder.nodes.as_slice())?;
        Ok(Schema {
            nodes: builder.nodes,
            required,
            normal,
        })
    }

    /// Reads a text. `None` if it isn't a schema's. The only error is out of memory.
    pub fn read_if_any(alloc: Global, text: &str) -> Result<Option<Schema>, AllocError>
        ensures { IfOk result (λ found. found ≡ schema_of text.now) }
    {
        match Schema::read(alloc, text) {
            Ok(schema) => Ok(Some(schema)),
            Err(error) => {
                if error.is_memory() {
                    return Err(AllocError);
                }
                Ok(None)
            }
        }
    }

    /// Returns the normal text: the schema's JSON without spaces, the members of each object in
    /// byte order of their names. It reads back as this schema, so schemas with equal normal texts
    /// are equal.
    pub fn normal(&self) -> &Text
        ensures text { result.now ≡ self.now.normal_text }
        ensures reads_back { schema_of self.now.normal_text ≡ Some self.now }
    {
        &self.normal
    }

    /// Copies the normal text. The only error is out of memory.
    pub fn normal_text(&self) -> Result<String, AllocError>
        ensures text { IfOk result (λ s. string_bytes s ≡ self.now.normal_text) }
        ensures reads_back { schema_of self.now.normal_text ≡ Some self.now }
    {
        String::from_str(*self.nodes.allocator(), self.normal.as_str())
    }

    pub(crate) fn nodes(&self) -> &[Node]
        ensures { result.now ≡ self.now.nodes }
    {
        &self.nodes
    }

    /// Returns the names of a node's fields that have no default. `None` if there is no such node.
    pub(crate) fn required(&self, id: NodeId) -> Option<&Listed<Text>>
        ensures { option_copied result ≡ option_map required_of (slice_get self.now.nodes id.index) }
    {
        self.required.get(id.index)
    }

    /// Returns the number of nodes, from 1 to `SCHEMA_NODES_LIMIT`.
    pub fn node_count(&self) -> usize
        ensures count { result ≡ length self.now.nodes }
        ensures sound { IsSound self.now.nodes }
    {
        schemas_are_sound();
        self.nodes.len()
    }

    /// Returns the id of the schema's own type, which is 0.
    pub fn root(&self) -> NodeId
        ensures first { result ≡ record { index = 0 } }
        ensures within { result.index < length self.now.nodes }
    {
        schemas_are_sound();
        prove!(self.nodes.len() > 0);
        NodeId { index: 0 }
    }

    /// Returns the node of an id, which must be below `node_count`.
    pub fn node(&self, id: NodeId) -> &Node
        requires { id.index < length self.now.nodes }
        ensures at { slice_get self.now.nodes id.index ≡ Some result.now }
        ensures within { All (λ part. part.index < length self.now.nodes) (parts_of_node result.now) }
        ensures sound { IsSound self.now.nodes }
    {
        schemas_are_sound();
        &self.nodes[id.index]
    }

    /// Returns the full name of a record, an enum or a fixed type. `None` for other types. The id
    /// must be below `node_count`.
    pub fn name_of(&self, id: NodeId) -> Option<&FullName>
        requires { id.index < length self.now.nodes }
        ensures { option_copied result ≡ name_in (slice_get self.now.nodes id.index) }
    {
        match self.node(id) {
            Node::Record { name, .. } => Some(name),
            Node::Enum { name, .. } => Some(name),
            Node::Fixed { name, .. } => Some(name),
            _ => None,
        }
    }
}

/// Reads a JSON text.
fn read_json<'a>(
    alloc: Global,
    text: &'a str,
    scratch: &'a mut Scratch,
) -> Result<Json<'a>, SchemaError>
    ensures ok { IfOk result (λ v. json_of text.now ≡ Some (view v)) }
    ensures err { IfErr result (λ e. e ≢ SchemaError.OutOfMemory → (e ≡ SchemaError.NotJson) × (json_of text.now ≡ None)) }
{
    match Json::read(alloc, text, scratch) {
        Ok(value) => Ok(value),
        Err(JsonError::NotJson) => Err(SchemaError::NotJson),
        Err(JsonError::OutOfMemory) => Err(SchemaError::OutOfMemory),
    }
}
