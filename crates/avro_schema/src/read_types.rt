// Reading a schema's JSON into nodes, in one pass.
ghost use Rattle.std.specs.Prelude.{◌≡◌, true, codes, IfOk, IfErr};
ghost use Rattle.json_tree.specs.View.{view, items_view};
ghost use Rattle.serde_json.specs.Data.{array};
ghost use Rattle.avro_schema.specs.Plain.{IsPlain};

use crate::builder::Builder;
use crate::defined_names::Namespace;
use crate::fields::{field_items, read_field_names};
use crate::kinds::Kinds;
use crate::members::string_at;
use crate::word::TypeWord;
use crate::{Field, Node, NodeId, SchemaError};
use base_text::Listed;
use json_tree::Json;
use std::alloc::Global;

impl Builder {
    ghost use Rattle.avro_schema.specs.Form.{form, forms, union_of, fields_of_items, field_heading_of};
    ghost use Rattle.avro_schema.specs.DefinedNames.{IsNumbered};
    ghost use Rattle.avro_schema.specs.Building.{ReadsType, RefusesType, ReadsBranches, RefusesBranches, ReadsField, RefusesField, ReadsFields, RefusesFields, is_object, form_in, record_in, array_in, map_in};

    /// Reads a type. `namespace` is that of the type around it.
    #[cycle(types)]
    pub(crate) fn read_type(
        &mut self,
        alloc: Global,
        value: &Json<'_>,
        namespace: &Namespace,
    ) -> Result<NodeId, SchemaError>
        requires plain { IsPlain (view value.now) }
        requires numbered { IsNumbered self.old.names namespace.now }
        ensures ok { IfOk result (ReadsType self.old self.new namespace.now.text (form (view value.now))) }
        ensures err { IfErr result (RefusesType self.old namespace.now.text (form (view value.now))) }
    {
        match value {
            Json::String(name) => self.read_name(alloc, name, namespace),
            Json::Array(items) => self.read_union(alloc, items, namespace),
            Json::Object(_) => self.read_object(alloc, value, namespace),
            _ => Err(SchemaError::BadForm),
        }
    }

    #[cycle(types)]
    fn read_object(
        &mut self,
        alloc: Global,
        value: &Json<'_>,
        namespace: &Namespace,
    ) -> Result<NodeId, SchemaError>
        requires object { is_object (view value.now) ≡ true }
        requires plain { IsPlain (view value.now) }
        requires numbered { IsNumbered self.old.names namespace.now }
        ensures ok { IfOk result (ReadsType self.old self.new namespace.now.text (form (view value.now))) }
        ensures err { IfErr result (RefusesType self.old namespace.now.text (form (view value.now))) }
    {
        let Some(name) = string_at(value, "type") else {
            return self.read_member(alloc, value, "type", namespace);
        };
        match TypeWord::of(name) {
            TypeWord::Record => self.read_record(alloc, value, namespace),
            TypeWord::Enum => self.read_enum(alloc, value, namespace),
            TypeWord::Fixed => self.read_fixed(alloc, value, namespace),
            TypeWord::Array => self.read_array(alloc, value, namespace),
            TypeWord::Map => self.read_map(alloc, value, namespace),
            TypeWord::Error => Err(SchemaError::BadForm),
            TypeWord::Other => self.read_name(alloc, name, namespace),
        }
    }

    /// Reads the type of a member.
    #[cycle(types)]
    fn read_member(
        &mut self,
        alloc: Global,
        value: &Json<'_>,
        name: &str,
        namespace: &Namespace,
    ) -> Result<NodeId, SchemaError>
        requires plain { IsPlain (view value.now) }
        requires numbered { IsNumbered self.old.names namespace.now }
        ensures ok { IfOk result (ReadsType self.old self.new namespace.now.text (form_in name.now (view value.now))) }
        ensures err { IfErr result (RefusesType self.old namespace.now.text (form_in name.now (view value.now))) }
    {
        match value.get(name) {
            Some(member) => self.read_type(alloc, member, namespace),
            None => Err(SchemaError::BadForm),
        }
    }

    #[cycle(types)]
    fn read_array(
        &mut self,
        alloc: Global,
        value: &Json<'_>,
        namespace: &Namespace,
    ) -> Result<NodeId, SchemaError>
        requires plain { IsPlain (view value.now) }
        requires numbered { IsNumbered self.old.names namespace.now }
        ensures ok { IfOk result (ReadsType self.old self.new namespace.now.text (array_in (view value.now))) }
        ensures err { IfErr result (RefusesType self.old namespace.now.text (array_in (view value.now))) }
    {
        let index = self.reserve()?;
        let items = self.read_member(alloc, value, "items", namespace)?;
        self.close(index, Node::Array(items));
        Ok(NodeId { index })
    }

    #[cycle(types)]
    fn read_map(
        &mut self,
        alloc: Global,
        value: &Json<'_>,
        namespace: &Namespace,
    ) -> Result<NodeId, SchemaError>
        requires plain { IsPlain (view value.now) }
        requires numbered { IsNumbered self.old.names namespace.now }
        ensures ok { IfOk result (ReadsType self.old self.new namespace.now.text (map_in (view value.now))) }
        ensures err { IfErr result (RefusesType self.old namespace.now.text (map_in (view value.now))) }
    {
        let index = self.reserve()?;
        let values = self.read_member(alloc, value, "values", namespace)?;
        self.close(index, Node::Map(values));
        Ok(NodeId { index })
    }

    #[cycle(types)]
    fn read_union(
        &mut self,
        alloc: Global,
        items: &Vec<Json<'_>>,
        namespace: &Namespace,
    ) -> Result<NodeId, SchemaError>
        requires plain { IsPlain (array (items_view items.now.items)) }
        requires numbered { IsNumbered self.old.names namespace.now }
        ensures ok { IfOk result (ReadsType self.old self.new namespace.now.text (union_of (forms (items_view items.now.items)))) }
        ensures err { IfErr result (RefusesType self.old namespace.now.text (union_of (forms (items_view items.now.items)))) }
    {
        let index = self.reserve()?;
        let branches = self.read_branches(alloc, items, namespace)?;
        self.close(index, Node::Union(Listed::from(branches)));
        Ok(NodeId { index })
    }

    #[cycle(types)]
    fn read_branches(
        &mut self,
        alloc: Global,
        items: &Vec<Json<'_>>,
        namespace: &Namespace,
    ) -> Result<Vec<NodeId>, SchemaError>
        requires plain { IsPlain (array (items_view items.now.items)) }
        requires numbered { IsNumbered self.old.names namespace.now }
        ensures ok { IfOk result (λ v. ReadsBranches self.old self.new namespace.now.text (forms (items_view items.now.items)) v.items) }
        ensures err { IfErr result (RefusesBranches self.old namespace.now.text (forms (items_view items.now.items))) }
    {
        let mut branches = Vec::with_capacity(alloc, items.len())?;
        let mut kinds = Kinds::new(alloc);
        for item in items {
            let before = self.nodes.len();
            let branch = self.read_type(alloc, item, namespace)?;
            if !kinds.add(self.branch_kind(branch, before))? {
                return Err(SchemaError::BadUnion);
            }
            branches.push(branch)?;
        }
        Ok(branches)
    }

    #[cycle(types)]
    fn read_record(
        &mut self,
        alloc: Global,
        value: &Json<'_>,
        namespace: &Namespace,
    ) -> Result<NodeId, SchemaError>
        requires plain { IsPlain (view value.now) }
        requires numbered { IsNumbered self.old.names namespace.now }
        ensures ok { IfOk result (ReadsType self.old self.new namespace.now.text (record_in (view value.now))) }
        ensures err { IfErr result (RefusesType self.old namespace.now.text (record_in (view value.now))) }
    {
        let Some(items) = field_items(value) else {
            return Err(SchemaError::BadForm);
        };
        let record = self.open_type(alloc, value, namespace)?;
        let fields = self.read_fields(alloc, items, &record.namespace)?;
        self.close_record(alloc, record, fields)
    }

    #[cycle(types)]
    fn read_fields(
        &mut self,
        alloc: Global,
        items: &Vec<Json<'_>>,
        namespace: &Namespace,
    ) -> Result<Vec<Field>, SchemaError>
        requires plain { IsPlain (array (items_view items.now.items)) }
        requires numbered { IsNumbered self.old.names namespace.now }
        ensures ok { IfOk result (λ v. ReadsFields self.old self.new namespace.now.text (fields_of_items (items_view items.now.items)) v.items) }
        ensures err { IfErr result (RefusesFields self.old namespace.now.text (fields_of_items (items_view items.now.items))) }
    {
        let mut fields = Vec::with_capacity(alloc, items.len())?;
        for item in items {
            let field = self.read_field(alloc, item, namespace)?;
            fields.push(field)?;
        }
        Ok(fields)
    }

    #[cycle(types)]
    fn read_field(
        &mut self,
        alloc: Global,
        value: &Json<'_>,
        namespace: &Namespace,
    ) -> Result<Field, SchemaError>
        requires plain { IsPlain (view value.now) }
        requires numbered { IsNumbered self.old.names namespace.now }
        ensures ok { IfOk result (ReadsField self.old self.new namespace.now.text (field_heading_of (view value.now)) (form_in (codes "type") (view value.now))) }
        ensures err { IfErr result (RefusesField self.old namespace.now.text (field_heading_of (view value.now)) (form_in (codes "type") (view value.now))) }
    {
        let names = read_field_names(alloc, value)?;
        let node = self.read_member(alloc, value, "type", namespace)?;
        Ok(names.of_type(node))
    }
}
