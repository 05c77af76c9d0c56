// The table of resolution: for a pair of types, the row that applies to it.
ghost use Rattle.std.specs.Prelude.{◌≡◌, ◌≢◌, ◌<◌, ℕ, List, [], ◌∷◌, Option, IsTrue, true, is_some, All, length, map, not, find, slice_get, bytes_eq, option_copied, Some, Ok, IfOk, IfSome};
ghost use Rattle.std.specs.List.{enumerate_from};
ghost use Rattle.avro_schema.specs.declared.node.Node.TheVariants as kind;
ghost use Rattle.avro_schema.specs.declared.node.NodeId.{NodeId as SpecId};
ghost use Rattle.avro_schema.specs.Names.{has_text};
ghost use Rattle.avro_resolve.specs.Match as matching;
ghost use Rattle.avro_resolve.specs.FieldIndex.{fields_in};
ghost use Rattle.avro_resolve.specs.Table as spec;
ghost use Rattle.avro_resolve.specs.Unions.{IsIndex, branches_in};
ghost use Rattle.avro_schema.specs.Sound.{HaveDistinctNames, fields_of_node};
ghost use Rattle.avro_resolve.specs.Row.{clash_of_cause, hop_into, outcome_of, HasDistinct};

use crate::field_index::is_long;
use crate::matching::matches;
use crate::names::{names_match, primitives_match};
use crate::obligations::Pair;
use crate::trail::{ClashKind, Hop};
use crate::unions::{Branches, first_by_index};
use avro_schema::{Field, FullName, Node, NodeId, Primitive, Schema};
use base_text::Text;
use named_list::NamedList;
use std::alloc::AllocError;

/// Why a pair clashes, with the name of the field or symbol borrowed from the schema.
#[derive(Clone, Copy)]
pub enum Cause<'a> {
    MissingUnionBranch,
    NameMismatch,
    LackingField(&'a Text),
    UnknownSymbol(&'a Text),
    FixedSizeMismatch,
    TypeMismatch,
}

impl Cause<'_> {
    /// Returns the kind that a clash is reported as, with its own copy of the name. The only error
    /// is out of memory.
    pub fn kind(self) -> Result<ClashKind, AllocError>
        ensures { IfOk result (λ kind. kind ≡ clash_of_cause self.entry) }
    {
        match self {
            Cause::MissingUnionBranch => Ok(ClashKind::MissingUnionBranch),
            Cause::NameMismatch => Ok(ClashKind::NameMismatch),
            Cause::LackingField(name) => {
                Ok(ClashKind::ReaderFieldMissingDefaultValue(name.clone()?))
            }
            Cause::UnknownSymbol(name) => Ok(ClashKind::MissingEnumSymbols(name.clone()?)),
            Cause::FixedSizeMismatch => Ok(ClashKind::FixedSizeMismatch),
            Cause::TypeMismatch => Ok(ClashKind::TypeMismatch),
        }
    }
}

/// The part of a pair that is its only obligation.
#[derive(Clone, Copy)]
pub enum Part {
    Items,
    Values,
    /// The branch of the reader's union, counted from 0.
    Branch(usize),
}

impl Part {
    /// Returns the hop into the part.
    pub fn hop(self) -> Hop
        ensures { result ≡ hop_into self }
    {
        match self {
            Part::Items => Hop::Items,
            Part::Values => Hop::Values,
            Part::Branch(k) => Hop::Reader(k),
        }
    }
}

/// The outcome of a pair: a clash, or its obligations (the pairs that have to resolve for it),
/// described by the parts of the schemas that they come from.
#[derive(Clone, Copy)]
pub enum Row<'a> {
    Clash(Cause<'a>),
    /// The reader's type has to resolve with each branch of the writer's union.
    WriterBranches(NodeId, &'a [NodeId]),
    /// The pair has one obligation.
    One(Part, Pair),
    /// The names of two records match: the reader's fields and the writer's, still to be paired.
    Fields(&'a [Field], &'a NamedList<Field>),
    Nothing,
}

/// Returns whether a pair is of two primitives that match. Most pairs are, and have no obligations.
#[inline(always)]
pub fn are_matching_primitives(r: &Schema, w: &Schema, pair: Pair) -> bool
    requires reader { pair.reader.index < length r.now.nodes }
    requires writer { pair.writer.index < length w.now.nodes }
    ensures { IsTrue result → spec.outcome r.now.nodes w.now.nodes pair ≡ Ok [] }
{
    match r.node(pair.reader) {
        Node::Primitive(p) => match w.node(pair.writer) {
            Node::Primitive(q) => primitives_match(*p, *q),
            _ => false,
        },
        _ => false,
    }
}

/// Returns the fields of two records whose names match, if the reader has many fields and the
/// writer few, or a field has many aliases. Else `None`.
pub fn long_records<'a>(
    r: &'a Schema,
    w: &'a Schema,
    pair: Pair,
) -> Option<(&'a NamedList<Field>, &'a NamedList<Field>)>
    requires reader { pair.reader.index < length r.now.nodes }
    requires writer { pair.writer.index < length w.now.nodes }
    ensures outcome { IfSome result (λ both. spec.outcome r.now.nodes w.now.nodes pair ≡ spec.to_fields both.0.now both.1.now) }
    ensures reader { IfSome result (λ both. both.0.now ≡ fields_in (slice_get r.now.nodes pair.reader.index)) }
    ensures readers { IfSome result (λ both. HaveDistinctNames both.0.now) }
    ensures writers { IfSome result (λ both. HaveDistinctNames both.1.now) }
{
    let Node::Record {
        name,
        aliases,
        fields,
    } = r.node(pair.reader)
    else {
        return None;
    };
    let Node::Record {
        name: other,
        fields: others,
        ..
    } = w.node(pair.writer)
    else {
        return None;
    };
    if is_long(fields.as_slice(), others.as_slice())
        && names_match(name, aliases.as_slice(), other)
    {
        Some((fields, others))
    } else {
        None
    }
}

/// Returns the row of a pair (Avro 1.11, "Schema Resolution"). Each id must be below its schema's
/// `node_count`.
pub fn row_at<'a>(r: &'a Schema, w: &'a Schema, pair: Pair) -> Row<'a>
    requires reader { pair.reader.index < length r.now.nodes }
    requires writer { pair.writer.index < length w.now.nodes }
    ensures row { outcome_of result ≡ spec.outcome r.now.nodes w.now.nodes pair }
    ensures distinct { HasDistinct result }
{
    row_by_index(r, w, pair, None)
}

/// Returns the row of a pair. `index` is the index of the reader's union, if it has one.
pub fn row_by_index<'a>(
    r: &'a Schema,
    w: &'a Schema,
    pair: Pair,
    index: Option<&Branches<'a>>,
) -> Row<'a>
    requires reader { pair.reader.index < length r.now.nodes }
    requires writer { pair.writer.index < length w.now.nodes }
    requires index { IfSome index (λ x. IsIndex r.now.nodes (branches_in (slice_get r.now.nodes pair.reader.index)) x.now) }
    ensures row { outcome_of result ≡ spec.outcome r.now.nodes w.now.nodes pair }
    ensures distinct { HasDistinct result }
{
    let writer = w.node(pair.writer);
    if let Node::Union(branches) = writer {
        return Row::WriterBranches(pair.reader, branches.as_slice());
    }
    match r.node(pair.reader) {
        Node::Union(branches) => branch_row(
            r,
            pair.reader,
            branches.as_slice(),
            w,
            pair.writer,
            index,
        ),
        reader => plain_row(reader, writer),
    }
}

/// Returns the row of two types that aren't unions.
fn plain_row<'a>(reader: &'a Node, writer: &'a Node) -> Row<'a>
    requires { HaveDistinctNames (fields_of_node writer.now) }
    ensures row { outcome_of result ≡ spec.plain_row reader.now writer.now }
    ensures distinct { HasDistinct result }
{
    match reader {
        Node::Array(a) => match writer {
            Node::Array(b) => one_row(Part::Items, *a, *b),
            _ => Row::Clash(Cause::TypeMismatch),
        },
        Node::Map(a) => match writer {
            Node::Map(b) => one_row(Part::Values, *a, *b),
            _ => Row::Clash(Cause::TypeMismatch),
        },
        Node::Record {
            name,
            aliases,
            fields,
        } => record_row(name, aliases.as_slice(), fields.as_slice(), writer),
        Node::Enum {
            name,
            aliases,
            symbols,
            default,
        } => {
            let has_default = default.is_some();
            enum_row(name, aliases.as_slice(), symbols, has_default, writer)
        }
        Node::Fixed {
            name,
            aliases,
            size,
        } => fixed_row(name, aliases.as_slice(), *size, writer),
        Node::Primitive(p) => match writer {
            Node::Primitive(q) => primitive_row(*p, *q),
            _ => Row::Clash(Cause::TypeMismatch),
        },
        Node::Union(_) => Row::Clash(Cause::TypeMismatch),
    }
}

/// Returns the row with one obligation.
fn one_row<'a>(part: Part, reader: NodeId, writer: NodeId) -> Row<'a>
    ensures row { outcome_of result ≡ Ok (spec.obligation (hop_into part) reader writer ∷ []) }
    ensures distinct { HasDistinct result }
{
    Row::One(part, Pair { reader, writer })
}

fn record_row<'a>(
    name: &FullName,
    aliases: &[FullName],
    fields: &'a [Field],
    writer: &'a Node,
) -> Row<'a>
    requires { HaveDistinctNames (fields_of_node writer.now) }
    ensures row { outcome_of result ≡ spec.plain_row (kind.Record name.now aliases.now fields.now) writer.now }
    ensures distinct { HasDistinct result }
{
    match writer {
        Node::Record {
            name: other,
            fields: others,
            ..
        } => {
            if names_match(name, aliases, other) {
                Row::Fields(fields, others)
            } else {
                Row::Clash(Cause::NameMismatch)
            }
        }
        _ => Row::Clash(Cause::TypeMismatch),
    }
}

fn enum_row<'a>(
    name: &FullName,
    aliases: &[FullName],
    symbols: &NamedList<Text>,
    has_default: bool,
    writer: &'a Node,
) -> Row<'a>
    ensures row { (d : Option (List ℕ)) → is_some d ≡ has_default
        → outcome_of result ≡ spec.plain_row (kind.Enum name.now aliases.now symbols.now d) writer.now }
    ensures distinct { HasDistinct result }
{
    match writer {
        Node::Enum {
            name: other,
            symbols: others,
            ..
        } => {
            if names_match(name, aliases, other) {
                symbol_row(symbols, has_default, others.as_slice())
            } else {
                Row::Clash(Cause::NameMismatch)
            }
        }
        _ => Row::Clash(Cause::TypeMismatch),
    }
}

fn fixed_row<'a>(name: &FullName, aliases: &[FullName], size: u32, writer: &Node) -> Row<'a>
    ensures row { outcome_of result ≡ spec.plain_row (kind.Fixed name.now aliases.now size) writer.now }
    ensures distinct { HasDistinct result }
{
    match writer {
        Node::Fixed {
            name: other,
            size: written,
            ..
        } => {
            if !names_match(name, aliases, other) {
                Row::Clash(Cause::NameMismatch)
            } else if size == *written {
                Row::Nothing
            } else {
                Row::Clash(Cause::FixedSizeMismatch)
            }
        }
        _ => Row::Clash(Cause::TypeMismatch),
    }
}

fn primitive_row<'a>(reader: Primitive, writer: Primitive) -> Row<'a>
    ensures row { outcome_of result ≡ spec.plain_row (kind.Primitive reader) (kind.Primitive writer) }
    ensures distinct { HasDistinct result }
{
    if primitives_match(reader, writer) {
        Row::Nothing
    } else {
        Row::Clash(Cause::TypeMismatch)
    }
}

/// Returns the row of a reader's union and a writer's type that isn't one: the first branch that
/// matches.
fn branch_row<'a>(
    r: &'a Schema,
    i: NodeId,
    branches: &[NodeId],
    w: &'a Schema,
    j: NodeId,
    index: Option<&Branches<'a>>,
) -> Row<'a>
    requires reader { All (λ b. b.index < length r.now.nodes) branches.now }
    requires writer { j.index < length w.now.nodes }
    requires plain { (cs : List SpecId) → slice_get w.now.nodes j.index ≢ Some (kind.Union cs) }
    requires branches { branches.now ≡ branches_in (slice_get r.now.nodes i.index) }
    requires index { IfSome index (λ x. IsIndex r.now.nodes (branches_in (slice_get r.now.nodes i.index)) x.now) }
    ensures row { outcome_of result ≡ spec.to_reader_branch j (find (λ b. matching.matches r.now.nodes w.now.nodes b.1 j) (enumerate_from 0 branches.now)) }
    ensures distinct { HasDistinct result }
{
    let first = match index {
        Some(index) => first_by_index(r, i, index, w, j),
        None => first_matching_branch(r, branches, w, j),
    };
    match first {
        Some((k, b)) => Row::One(
            Part::Branch(k),
            Pair {
                reader: b,
                writer: j,
            },
        ),
        None => Row::Clash(Cause::MissingUnionBranch),
    }
}

/// The first branch that matches, with its number.
fn first_matching_branch(
    r: &Schema,
    branches: &[NodeId],
    w: &Schema,
    j: NodeId,
) -> Option<(usize, NodeId)>
    requires reader { All (λ b. b.index < length r.now.nodes) branches.now }
    requires writer { j.index < length w.now.nodes }
    ensures { result ≡ find (λ b. matching.matches r.now.nodes w.now.nodes b.1 j) (enumerate_from 0 branches.now) }
{
    for (k, b) in branches.iter().enumerate() {
        if matches(r, *b, w, j) {
            return Some((k, *b));
        }
    }
    None
}

/// Returns the row of two enums whose names match. `has_default` is about the reader's.
fn symbol_row<'a>(reader: &NamedList<Text>, has_default: bool, writer: &'a [Text]) -> Row<'a>
    ensures row { outcome_of result ≡ spec.with_symbols reader.now has_default writer.now }
    ensures distinct { HasDistinct result }
{
    if has_default {
        return Row::Nothing;
    }
    match first_unknown(reader, writer) {
        Some(s) => Row::Clash(Cause::UnknownSymbol(s)),
        None => Row::Nothing,
    }
}

/// Returns the first of the writer's symbols that isn't among the reader's.
fn first_unknown<'a>(reader: &NamedList<Text>, writer: &'a [Text]) -> Option<&'a Text>
    ensures { option_copied result ≡ find (λ s. not (has_text reader.now s)) writer.now }
{
    let mut near = 0;
    for s in writer {
        match symbol_near(s, reader, near) {
            Some(place) => near = place.saturating_add(1),
            None => return Some(s),
        }
    }
    None
}

/// Returns the position of a symbol, if it is in the list. Looks at `near` first.
fn symbol_near(symbol: &Text, symbols: &NamedList<Text>, near: usize) -> Option<usize>
    ensures { is_some result ≡ has_text symbols.now symbol.now }
{
    if is_at(symbol, symbols.as_slice(), near) {
        return Some(near);
    }
    symbols.place(symbol)
}

/// Returns whether the symbol is at a position.
fn is_at(symbol: &Text, symbols: &[Text], k: usize) -> bool
    ensures { IsTrue result → true ≡ has_text symbols.now symbol.now }
{
    match symbol_at(symbols, k) {
        Some(other) => *symbol == *other,
        None => false,
    }
}

/// Returns the symbol at a position, if there is one.
fn symbol_at(symbols: &[Text], k: usize) -> Option<&Text>
    ensures { option_copied result ≡ slice_get symbols.now k }
{
    symbols.get(k)
}
