// What is looked up at a pair of types. Nothing here takes memory.
ghost use Rattle.std.specs.Prelude.{◌≡◌, ◌<◌, length, slice_get, option_map, option_copied, find, Some, if◌then◌else◌};
ghost use Rattle.std.specs.List.{enumerate_from};
ghost use Rattle.std.specs.Result.{result_err};
ghost use Rattle.avro_resolve.specs.avro_schema.declared.node.Node.TheVariants as kind;
ghost use Rattle.avro_resolve.specs.avro_schema.Names.{has_text};
ghost use Rattle.avro_resolve.specs.Match as matching;
ghost use Rattle.avro_resolve.specs.Row.{outcome_of};
ghost use Rattle.avro_resolve.specs.Table.{clash_of};
ghost use Rattle.avro_readings.specs.Reads as spec;
ghost use Rattle.avro_readings.specs.Readable as readable;
ghost use Rattle.avro_readings.specs.Steps as steps;

use avro_data::node_at;
use avro_resolve::avro_schema::{Field, Node, NodeId, Schema};
use avro_resolve::base_text::Text;
use avro_resolve::named_list::NamedList;
use avro_resolve::{Cause, Pair, Row, first_lacking, matches, row_at};

/// Returns whether no value can be read at this pair of types.
pub fn is_barred(r: &Schema, w: &Schema, pair: Pair) -> bool
    ensures { result ≡ spec.bars (clash_of r.now.nodes w.now.nodes pair) }
{
    if pair.reader.index >= r.node_count() || pair.writer.index >= w.node_count() {
        return true;
    }
    if are_enums(r.node(pair.reader), w.node(pair.writer)) {
        // Which symbols there are doesn't count, and they may be many.
        !matches(r, pair.reader, w, pair.writer)
    } else {
        bars(row_at(r, w, pair))
    }
}

fn are_enums(reader: &Node, writer: &Node) -> bool
    ensures { result ≡ steps.are_enums reader.now writer.now }
{
    matches!(reader, Node::Enum { .. }) && matches!(writer, Node::Enum { .. })
}

fn bars(row: Row<'_>) -> bool
    ensures { result ≡ spec.bars (result_err (outcome_of row.entry)) }
{
    match row {
        Row::Clash(cause) => !matches!(cause, Cause::UnknownSymbol(_)),
        Row::Fields(reader, writer) => first_lacking(reader, writer).is_some(),
        Row::WriterBranches(..) | Row::One(..) | Row::Nothing => false,
    }
}

/// Returns the branch of that number, counted from 0, if the node is a union that has it.
pub fn branch_at(node: Option<&Node>, k: usize) -> Option<NodeId>
    ensures { result ≡ spec.branch_at (option_copied node.entry) k }
{
    match node {
        Some(Node::Union(branches)) => branch_in(branches.as_slice(), k),
        _ => None,
    }
}

fn branch_in(branches: &[NodeId], k: usize) -> Option<NodeId>
    ensures { result ≡ slice_get branches.now k }
{
    branches.get(k).copied()
}

/// Returns the first branch of the reader's union that matches the writer's type, with its number.
pub fn first_matching(
    r: &Schema,
    branches: &[NodeId],
    w: &Schema,
    j: NodeId,
) -> Option<(usize, NodeId)>
    ensures { result ≡ find (λ b. matching.matches r.now.nodes w.now.nodes b.1 j) (enumerate_from 0 branches.now) }
{
    for (k, b) in branches.iter().enumerate() {
        if is_match(r, *b, w, j) {
            return Some((k, *b));
        }
    }
    None
}

fn is_match(r: &Schema, i: NodeId, w: &Schema, j: NodeId) -> bool
    ensures { result ≡ matching.matches r.now.nodes w.now.nodes i j }
{
    if i.index < r.node_count() && j.index < w.node_count() {
        matches(r, i, w, j)
    } else {
        false
    }
}

/// Returns the reader's type at a pair, that of the matching branch if it is a union; `None` if no
/// value can be read there.
pub fn row_type(r: &Schema, w: &Schema, pair: Pair) -> Option<NodeId>
    ensures { result ≡ readable.row_type r.now.nodes w.now.nodes pair }
{
    if is_barred(r, w, pair) {
        return None;
    }
    match node_at(r, pair.reader) {
        Some(Node::Union(branches)) => branch_type(r, branches.as_slice(), w, pair),
        _ => Some(pair.reader),
    }
}

fn branch_type(r: &Schema, branches: &[NodeId], w: &Schema, pair: Pair) -> Option<NodeId>
    ensures { result ≡ readable.behind r.now.nodes w.now.nodes (Some (kind.Union branches.now)) pair }
{
    match first_matching(r, branches, w, pair.writer) {
        Some((_k, reader)) => {
            let next = Pair {
                reader,
                writer: pair.writer,
            };
            if is_barred(r, w, next) {
                None
            } else {
                Some(reader)
            }
        }
        None => None,
    }
}

/// Returns whether both types have leaves as values.
pub fn both_leaves(reader: Option<&Node>, writer: Option<&Node>) -> bool
    ensures { result ≡ steps.both_leaves (option_copied reader.entry) (option_copied writer.entry) }
{
    match reader {
        Some(Node::Primitive(_)) => matches!(writer, Some(Node::Primitive(_))),
        Some(Node::Fixed { .. }) => matches!(writer, Some(Node::Fixed { .. })),
        _ => false,
    }
}

/// Returns the item types of two arrays.
pub fn items_at(reader: Option<&Node>, writer: Option<&Node>) -> Option<Pair>
    ensures { result ≡ steps.items_at (option_copied reader.entry) (option_copied writer.entry) }
{
    match reader {
        Some(Node::Array(i)) => match writer {
            Some(Node::Array(j)) => Some(Pair {
                reader: *i,
                writer: *j,
            }),
            _ => None,
        },
        _ => None,
    }
}

/// Returns the value types of two maps.
pub fn values_at(reader: Option<&Node>, writer: Option<&Node>) -> Option<Pair>
    ensures { result ≡ steps.values_at (option_copied reader.entry) (option_copied writer.entry) }
{
    match reader {
        Some(Node::Map(i)) => match writer {
            Some(Node::Map(j)) => Some(Pair {
                reader: *i,
                writer: *j,
            }),
            _ => None,
        },
        _ => None,
    }
}

/// Returns the field at a place, if there is one.
pub fn record_field_at(fields: &[Field], k: usize) -> Option<&Field>
    ensures { option_copied result ≡ slice_get fields.now k }
{
    fields.get(k)
}

/// Returns the reader's item type of two arrays, or its value type of two maps.
pub fn inner_at(reader: Option<&Node>, writer: Option<&Node>) -> Option<NodeId>
    ensures { result ≡ readable.inner_at (option_copied reader.entry) (option_copied writer.entry) }
{
    match reader {
        Some(Node::Array(i)) => match writer {
            Some(Node::Array(_)) => Some(*i),
            _ => None,
        },
        Some(Node::Map(i)) => match writer {
            Some(Node::Map(_)) => Some(*i),
            _ => None,
        },
        _ => None,
    }
}

/// Returns the fields of two records, the reader's first.
pub fn fields_at<'a>(
    reader: Option<&'a Node>,
    writer: Option<&'a Node>,
) -> Option<(&'a [Field], &'a NamedList<Field>)>
    ensures { option_map (λ found. (found.0.now, found.1.now)) result ≡ steps.fields_at (option_copied reader.entry) (option_copied writer.entry) }
{
    match reader {
        Some(Node::Record { fields, .. }) => match writer {
            Some(Node::Record { fields: others, .. }) => Some((fields.as_slice(), others)),
            _ => None,
        },
        _ => None,
    }
}

/// Returns the symbol as the reader has it: itself, or else the reader's default, if it has one.
pub fn symbol_at<'a>(
    reader: Option<&'a Node>,
    writer: Option<&Node>,
    symbol: &'a Text,
) -> Option<&'a Text>
    ensures { option_copied result ≡ steps.symbol_at (option_copied reader.entry) (option_copied writer.entry) symbol.now }
{
    match reader {
        Some(
            Node::Enum {
                symbols,
                default,
                ..
            },
        ) => match writer {
            Some(Node::Enum { .. }) => known_symbol(symbols, default.as_ref(), symbol),
            _ => None,
        },
        _ => None,
    }
}

fn known_symbol<'a>(
    symbols: &NamedList<Text>,
    default: Option<&'a Text>,
    symbol: &'a Text,
) -> Option<&'a Text>
    ensures { option_copied result ≡ (if has_text symbols.now symbol.now then Some symbol.now else option_copied default.entry) }
{
    if has_symbol(symbols, symbol) {
        Some(symbol)
    } else {
        default
    }
}

fn has_symbol(symbols: &NamedList<Text>, symbol: &Text) -> bool
    ensures { result ≡ has_text symbols.now symbol.now }
{
    symbols.get(symbol).is_some()
}
