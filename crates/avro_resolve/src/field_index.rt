// Indexes of the reader's records, which find the fields that have a partner from the writer's
// side.
ghost use Rattle.std.specs.Prelude.{◌≡◌, ◌≢◌, ◌+◌, ◌++◌, ℕ, List, Some, IsTrue, length, map, slice_get, IfOk, IfSome, OnOk};
ghost use Rattle.avro_schema.specs.declared.node.Node.{Node as SpecNode};
ghost use Rattle.avro_schema.specs.Sound.{HaveDistinctNames};
ghost use Rattle.avro_resolve.specs.FieldIndex as spec;

use avro_schema::{Field, NodeId, Schema};
use base_text::Text;
use std::alloc::{AllocError, Global};
use std::collections::{BTreeMap, BTreeSet};

/// The most fields, and aliases of each, of a record that is searched without an index.
const FEW: usize = 16;

/// A field's number, and a position among its names: 0 is its own name, and its aliases follow.
#[derive(Clone, Copy, PartialEq, Eq, PartialOrd, Ord, Drop)]
pub struct Holder {
    pub field: usize,
    pub rank: usize,
}

/// A reader's field with one of its names, and the position of the writer's field of that name. If
/// it is listed for having no default, the first position is after its names, and the other after
/// the writer's fields.
#[derive(Clone, Copy, PartialEq, Eq, PartialOrd, Ord, Drop)]
pub struct FoundField {
    pub holder: Holder,
    pub place: usize,
}

/// The index of a reader's record: its fields by their names.
#[derive(Drop)]
pub struct FieldIndex<'a> {
    /// The fields without a default, each with a position after its names.
    pub others: Vec<Holder>,
    /// For each name, the fields that have it.
    pub holders: BTreeMap<&'a Text, Vec<Holder>>,
    /// The number of names, counting an alias as often as it is written.
    names: usize,
}

/// The field indexes of the reader's records, by the numbers of their nodes.
#[derive(Drop)]
pub struct FieldIndexes<'a> {
    memory: Global,
    /// The records that were looked at before.
    met: BTreeSet<usize>,
    pub of: BTreeMap<usize, FieldIndex<'a>>,
}

impl<'a> FieldIndexes<'a> {
    /// Makes an empty set of field indexes.
    pub fn none(memory: Global) -> FieldIndexes<'a>
        ensures { (r : List SpecNode) → spec.AreFieldIndexes r result.of }
    {
        FieldIndexes {
            memory,
            met: BTreeSet::new(memory),
            of: BTreeMap::new(memory),
        }
    }

    /// Returns the allocator.
    pub fn memory(&self) -> Global {
        self.memory
    }

    /// Returns the field index of the reader's record of that id, if one was made.
    pub fn of_record(&self, _r: &Schema, id: NodeId) -> Option<&FieldIndex<'a>>
        requires { spec.AreFieldIndexes _r.now.nodes self.now.of }
        ensures { IfSome result (λ field_index. spec.IsFieldIndex (spec.fields_in (slice_get _r.now.nodes id.index)) field_index.now) }
    {
        self.of.get(&id.index)
    }

    /// Notes that the reader's record of that id is looked at, and makes its field index the second
    /// time. Making one takes longer than looking at all fields once. The only error is out of
    /// memory.
    pub fn look_at(
        &mut self,
        _r: &Schema,
        id: NodeId,
        fields: &'a [Field],
    ) -> Result<(), AllocError>
        requires fields { fields.now ≡ spec.fields_in (slice_get _r.now.nodes id.index) }
        requires made { spec.AreFieldIndexes _r.now.nodes self.old.of }
        ensures { OnOk result (spec.AreFieldIndexes _r.now.nodes self.new.of) }
    {
        if !self.met.insert(id.index)? && !self.of.contains_key(&id.index) {
            let field_index = field_index_of(self.memory, fields)?;
            self.of.insert(id.index, field_index)?;
        }
        Ok(())
    }
}

/// Makes the field index of these fields.
fn field_index_of<'a>(alloc: Global, fields: &'a [Field]) -> Result<FieldIndex<'a>, AllocError>
    ensures { IfOk result (spec.IsFieldIndex fields.now) }
{
    Ok(FieldIndex {
        others: others_of(alloc, fields)?,
        holders: holders_of(alloc, fields)?,
        names: names_in(fields),
    })
}

/// Returns the number of names that fields have.
fn names_in(fields: &[Field]) -> usize {
    let mut names = fields.len();
    for f in fields {
        names = names.saturating_add(f.aliases.as_slice().len());
    }
    names
}

/// Returns the fields that have no default.
fn others_of(alloc: Global, fields: &[Field]) -> Result<Vec<Holder>, AllocError>
    ensures { IfOk result (λ others. spec.AreOthers fields.now others.items) }
{
    let mut others = Vec::new(alloc);
    for (k, f) in fields.iter().enumerate() {
        if f.default.is_none() {
            others.push(Holder {
                field: k,
                rank: f.aliases.as_slice().len() + 1,
            })?;
        }
    }
    Ok(others)
}

/// Returns, for each name, the fields that have it.
fn holders_of<'a>(
    alloc: Global,
    fields: &'a [Field],
) -> Result<BTreeMap<&'a Text, Vec<Holder>>, AllocError>
    ensures { IfOk result (λ holders. spec.AreHolders fields.now (length fields.now) 0 holders) }
{
    let mut holders = BTreeMap::new(alloc);
    for (k, f) in fields.iter().enumerate() {
        add_names(alloc, &mut holders, k, f, fields)?;
    }
    Ok(holders)
}

/// Adds the names of the field of that number.
fn add_names<'a>(
    alloc: Global,
    holders: &mut BTreeMap<&'a Text, Vec<Holder>>,
    field: usize,
    f: &'a Field,
    _fields: &[Field],
) -> Result<(), AllocError>
    requires field { slice_get _fields.now field ≡ Some f.now }
    requires before { spec.AreHolders _fields.now field 0 holders.old }
    ensures { OnOk result (spec.AreHolders _fields.now (field + 1) 0 holders.new) }
{
    add_name(alloc, holders, &f.name, Holder { field, rank: 0 })?;
    for (k, alias) in f.aliases.as_slice().iter().enumerate() {
        let rank = k + 1;
        add_name(alloc, holders, alias, Holder { field, rank })?;
    }
    Ok(())
}

/// Adds a name of a field.
fn add_name<'a>(
    alloc: Global,
    holders: &mut BTreeMap<&'a Text, Vec<Holder>>,
    name: &'a Text,
    holder: Holder,
) -> Result<(), AllocError>
    ensures here { OnOk result ((n : spec.Name) → n.now ≡ name.now → spec.IsAddedTo (spec.held holders.old n) (spec.held holders.new n) holder) }
    ensures others { OnOk result ((n : spec.Name) → n.now ≢ name.now → spec.held holders.new n ≡ spec.held holders.old n) }
{
    match holders.get_mut(&name) {
        Some(kept) => {
            add_holder(kept, holder)?;
            Ok(())
        }
        None => {
            let mut kept = Vec::new(alloc);
            kept.push(holder)?;
            holders.insert(name, kept)?;
            Ok(())
        }
    }
}

/// Adds a field that has a name, unless it is the field that was added last.
fn add_holder(kept: &mut Vec<Holder>, holder: Holder) -> Result<(), AllocError>
    ensures { OnOk result (spec.IsAddedTo kept.old.items kept.new.items holder) }
{
    if !is_last(kept.as_slice(), holder.field) {
        kept.push(holder)?;
    }
    Ok(())
}

/// Returns whether the last of these is that field.
fn is_last(kept: &[Holder], field: usize) -> bool
    ensures { IsTrue result → spec.IsAbsent field kept.now → ⊥ }
{
    match kept {
        [.., last] => last.field == field,
        [] => false,
    }
}

/// Returns whether a reader's record has many fields, more than four times the writer's, or a field
/// with many aliases.
pub fn is_long(reader: &[Field], writer: &[Field]) -> bool {
    reader.len() > FEW && writer.len() < reader.len() / 4 || has_many_aliases(reader)
}

/// Returns whether one of the fields has many aliases.
fn has_many_aliases(fields: &[Field]) -> bool {
    for f in fields {
        if f.aliases.as_slice().len() > FEW {
            return true;
        }
    }
    false
}

impl<'a> FieldIndex<'a> {
    /// Returns the fields that have a name.
    fn with_name(&self, name: &'a Text) -> &[Holder]
        ensures { result.now ≡ spec.held self.now.holders name.entry }
    {
        match self.holders.get(&name) {
            Some(holders) => holders.as_slice(),
            None => &[],
        }
    }

    /// Returns whether the index saves time against a writer's record of so many fields: both these
    /// and the reader's fields without a default are few beside the names.
    pub fn is_worth_while(&self, writer: usize) -> bool {
        let many = self.names / 4;
        self.others.len() < many && writer < many
    }
}

/// Returns the reader's fields that have a name of the writer's, once for each such name, and those
/// without a default. They are sorted by number, and for one field by the position of the name.
pub fn found_fields<'a>(
    alloc: Global,
    _reader: &[Field],
    field_index: &FieldIndex<'a>,
    writer: &'a [Field],
) -> Result<Vec<FoundField>, AllocError>
    requires distinct { HaveDistinctNames writer.now }
    requires field_index { spec.IsFieldIndex _reader.now field_index.now }
    ensures { IfOk result (λ found. spec.AreFound _reader.now writer.now found.items) }
{
    let mut found = found_unsorted(alloc, _reader, field_index, writer)?;
    found.sort_unstable();
    Ok(found)
}

/// Returns what [`found_fields`] returns, in any order.
fn found_unsorted<'a>(
    alloc: Global,
    _reader: &[Field],
    field_index: &FieldIndex<'a>,
    writer: &'a [Field],
) -> Result<Vec<FoundField>, AllocError>
    requires distinct { HaveDistinctNames writer.now }
    requires field_index { spec.IsFieldIndex _reader.now field_index.now }
    ensures { IfOk result (λ found. spec.AreFoundUpto _reader.now writer.now (length writer.now) found.items) }
{
    let mut found = Vec::new(alloc);
    add_found(&mut found, field_index.others.as_slice(), writer.len())?;
    for (place, g) in writer.iter().enumerate() {
        add_found(&mut found, field_index.with_name(&g.name), place)?;
    }
    Ok(found)
}

/// Adds these fields, each with that position.
fn add_found(
    found: &mut Vec<FoundField>,
    holders: &[Holder],
    place: usize,
) -> Result<(), AllocError>
    ensures { OnOk result (found.new.items ≡ found.old.items ++ map (spec.at_place place) holders.now) }
{
    for holder in holders {
        found.push(FoundField {
            holder: *holder,
            place,
        })?;
    }
    Ok(())
}
