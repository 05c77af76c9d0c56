// Reading types with names, but for the fields of records.
ghost use Rattle.std.specs.Prelude.{◌≡◌, ◌<◌, List, map, bytes_eq, IfOk, IfErr};
ghost use Rattle.json_tree.specs.View.{view};
ghost use Rattle.avro_schema.specs.declared.error.SchemaError.TheVariants as fault;
ghost use Rattle.avro_schema.specs.Form.{form_of_name, heading_of};
ghost use Rattle.avro_schema.specs.Names.{all_distinct};
ghost use Rattle.avro_schema.specs.Faults.{unless};
ghost use Rattle.avro_schema.specs.Schema.{IsRefusalBy};

use crate::builder::Builder;
use crate::defined_names::Namespace;
use crate::fields::named_fields;
use crate::heading::{TypeNames, read_type_names};
use crate::names::primitive_named;
use crate::symbols::{Symbols, read_size, read_symbols};
use crate::{Field, FullName, Node, NodeId, Primitive, SchemaError};
use base_text::{Listed, Text};
use json_tree::Json;
use std::alloc::Global;

/// A named type whose node is still a placeholder.
#[derive(Drop)]
pub(crate) struct OpenType {
    pub(crate) index: usize,
    /// The namespace of the types inside it.
    pub(crate) namespace: Namespace,
    pub(crate) name: FullName,
    pub(crate) aliases: Vec<FullName>,
}

impl Builder {
    ghost use Rattle.avro_schema.specs.Places.{Definition};
    ghost use Rattle.avro_schema.specs.DefinedNames.{IsNumbered};
    ghost use Rattle.avro_schema.specs.Building.{HasMet, opened, ReadsType, RefusesType, OpensType, ClosesRecord, opening_faults, enum_in, fixed_in};

    /// Reads a name: a primitive type's, or a use of a defined type.
    pub(crate) fn read_name(
        &mut self,
        alloc: Global,
        name: &str,
        namespace: &Namespace,
    ) -> Result<NodeId, SchemaError>
        requires { IsNumbered self.old.names namespace.now }
        ensures ok { IfOk result (ReadsType self.old self.new namespace.now.text (form_of_name name.now)) }
        ensures err { IfErr result (RefusesType self.old namespace.now.text (form_of_name name.now)) }
    {
        if let Some(primitive) = primitive_named(name) {
            let index = self.open(Node::Primitive(primitive))?;
            return Ok(NodeId { index });
        }
        match self.find(name, namespace) {
            Some(index) => Ok(NodeId { index }),
            None => Err(SchemaError::Unknown(Text::copy_of(alloc, name)?)),
        }
    }

    /// Opens a named type and defines its name.
    pub(crate) fn open_type(
        &mut self,
        alloc: Global,
        value: &Json<'_>,
        namespace: &Namespace,
    ) -> Result<OpenType, SchemaError>
        requires { IsNumbered self.old.names namespace.now }
        ensures ok { IfOk result (OpensType self.old self.new namespace.now.text (heading_of (view value.now))) }
        ensures err { IfErr result (λ e. (ds : List Definition) → HasMet self.old ds
            → IsRefusalBy (opening_faults ds namespace.now.text (heading_of (view value.now)) (opened self.old)) e) }
    {
        let TypeNames {
            name,
            aliases,
            number,
        } = read_type_names(alloc, value, namespace)?;
        let namespace = self.numbered(alloc, &name.namespace, number)?;
        let index = self.open_named(alloc, &namespace, name.name.as_str())?;
        Ok(OpenType {
            index,
            namespace,
            name,
            aliases,
        })
    }

    /// Completes an open record with its fields, whose names must be distinct.
    pub(crate) fn close_record(
        &mut self,
        alloc: Global,
        started: OpenType,
        fields: Vec<Field>,
    ) -> Result<NodeId, SchemaError>
        requires { started.index < opened self.old }
        ensures ok { IfOk result (ClosesRecord self.old self.new started fields.items) }
        ensures err { IfErr result (IsRefusalBy (unless (all_distinct bytes_eq (map (λ f. f.name) fields.items)) fault.BadForm)) }
    {
        let list = named_fields(alloc, fields)?;
        let OpenType {
            index,
            name,
            aliases,
            ..
        } = started;
        let node = Node::Record {
            name,
            aliases: Listed::from(aliases),
            fields: list,
        };
        self.close(index, node);
        Ok(NodeId { index })
    }

    pub(crate) fn read_enum(
        &mut self,
        alloc: Global,
        value: &Json<'_>,
        namespace: &Namespace,
    ) -> Result<NodeId, SchemaError>
        requires { IsNumbered self.old.names namespace.now }
        ensures ok { IfOk result (ReadsType self.old self.new namespace.now.text (enum_in (view value.now))) }
        ensures err { IfErr result (RefusesType self.old namespace.now.text (enum_in (view value.now))) }
    {
        let OpenType {
            index,
            name,
            aliases,
            ..
        } = self.open_type(alloc, value, namespace)?;
        let Symbols { symbols, default } = read_symbols(alloc, value)?;
        let node = Node::Enum {
            name,
            aliases: Listed::from(aliases),
            symbols,
            default,
        };
        self.close(index, node);
        Ok(NodeId { index })
    }

    pub(crate) fn read_fixed(
        &mut self,
        alloc: Global,
        value: &Json<'_>,
        namespace: &Namespace,
    ) -> Result<NodeId, SchemaError>
        requires { IsNumbered self.old.names namespace.now }
        ensures ok { IfOk result (ReadsType self.old self.new namespace.now.text (fixed_in (view value.now))) }
        ensures err { IfErr result (RefusesType self.old namespace.now.text (fixed_in (view value.now))) }
    {
        let OpenType {
            index,
            name,
            aliases,
            ..
        } = self.open_type(alloc, value, namespace)?;
        let size = read_size(value)?;
        let node = Node::Fixed {
            name,
            aliases: Listed::from(aliases),
            size,
        };
        self.close(index, node);
        Ok(NodeId { index })
    }
}
