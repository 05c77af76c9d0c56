// Where a hop leads, and whether a trail leads to a clash. Nothing here takes memory.
ghost use Rattle.std.specs.Prelude.{◌≡◌, ◌<◌, ◌↔◌, IsTrue, Some, length, map, option_map, filter_map, slice_get, [], ◌∷◌};
ghost use Rattle.std.specs.List.{enumerate_from};
ghost use Rattle.std.specs.Result.{result_err, result_unwrap_or};
ghost use Rattle.avro_resolve.specs.declared.trail.Hop.TheVariants as hops;
ghost use Rattle.avro_resolve.specs.Pairing as pairing;
ghost use Rattle.avro_resolve.specs.Table as spec;
ghost use Rattle.avro_resolve.specs.Follow.{pair_by, same_hop};
ghost use Rattle.avro_resolve.specs.Row.{clash_of_cause, hop_into};
ghost use Rattle.avro_resolve.specs.Trails.{IsTrail, HopsNameOne};

use crate::fields::{first_lacking, partner};
use crate::obligations::Pair;
use crate::table::{Cause, Part, Row, row_at};
use crate::trail::{ClashKind, Hop, Trail};
use avro_schema::{Field, NodeId, Schema};
use named_list::NamedList;

impl Trail {
    /// Checks whether the hops lead from the roots of a reader's and a writer's schema to a pair
    /// with this kind of clash. Any such trail passes, not only the one that `resolve` returns.
    /// Allocates nothing.
    pub fn check(&self, r: &Schema, w: &Schema) -> bool
        ensures trail { IsTrue result ↔ IsTrail r.now.nodes w.now.nodes self.now }
        ensures hops_name_one { HopsNameOne r.now.nodes w.now.nodes }
    {
        let mut pair = Pair {
            reader: r.root(),
            writer: w.root(),
        };
        // Counting the nodes tells that they are sound.
        let _sound = r.node_count();
        let _sound = w.node_count();
        for hop in self.hops.as_slice() {
            match follow(r, w, pair, hop) {
                Some(next) => pair = next,
                None => return false,
            }
        }
        clashes_so(r, w, pair, &self.kind)
    }
}

/// Returns the pair that a hop leads to. `None` if it isn't a hop of this pair.
fn follow(r: &Schema, w: &Schema, pair: Pair, hop: &Hop) -> Option<Pair>
    requires reader { pair.reader.index < length r.now.nodes }
    requires writer { pair.writer.index < length w.now.nodes }
    ensures { result ≡ pair_by (spec.obligations r.now.nodes w.now.nodes pair) hop.now }
{
    match row_at(r, w, pair) {
        Row::Clash(_) => None,
        Row::WriterBranches(i, branches) => writer_branch(i, branches, hop),
        Row::One(part, next) => only_pair(part, next, hop),
        Row::Fields(reader, writer) => paired_field(reader, writer, hop),
        Row::Nothing => None,
    }
}

/// Returns the only obligation, if this is its hop.
fn only_pair(part: Part, next: Pair, hop: &Hop) -> Option<Pair>
    ensures { result ≡ pair_by (record { hop = hop_into part; pair = next } ∷ []) hop.now }
{
    if is_into(part, hop) { Some(next) } else { None }
}

/// Returns whether a hop leads into this part.
fn is_into(part: Part, hop: &Hop) -> bool
    ensures { result ≡ same_hop hop.now (hop_into part) }
{
    match part {
        Part::Items => matches!(hop, Hop::Items),
        Part::Values => matches!(hop, Hop::Values),
        Part::Branch(k) => matches!(hop, Hop::Reader(l) if *l == k),
    }
}

/// Returns the pair of the reader's type and the writer's branch that a hop names.
fn writer_branch(i: NodeId, branches: &[NodeId], hop: &Hop) -> Option<Pair>
    ensures { result ≡ pair_by (map (λ b. spec.obligation (hops.Writer b.0) i b.1) (enumerate_from 0 branches.now)) hop.now }
{
    match hop {
        Hop::Writer(k) => match branch_at(branches, *k) {
            Some(b) => Some(Pair {
                reader: i,
                writer: b,
            }),
            None => None,
        },
        _ => None,
    }
}

/// Returns the branch of that number, if there is one.
fn branch_at(branches: &[NodeId], k: usize) -> Option<NodeId>
    ensures { result ≡ slice_get branches.now k }
{
    branches.get(k).copied()
}

/// Returns the pair of the field that a hop names and its partner. `None` if any field lacks a
/// partner and a default.
fn paired_field(reader: &[Field], writer: &NamedList<Field>, hop: &Hop) -> Option<Pair>
    ensures { result ≡ pair_by (result_unwrap_or (spec.to_fields reader.now writer.now) []) hop.now }
{
    if first_lacking(reader, writer).is_some() {
        return None;
    }
    field_pair(reader, writer, hop)
}

/// Returns the pair of the field that a hop names and its partner.
fn field_pair(reader: &[Field], writer: &NamedList<Field>, hop: &Hop) -> Option<Pair>
    ensures { result ≡ pair_by
        (filter_map (λ f. option_map (λ g. spec.obligation (hops.Field f.name) f.node g.node) (pairing.partner writer.now f)) reader.now)
        hop.now }
{
    let Hop::Field(name) = hop else {
        return None;
    };
    for f in reader {
        if let Some(g) = partner(writer, f)
            && *name == f.name
        {
            return Some(Pair {
                reader: f.node,
                writer: g.node,
            });
        }
    }
    None
}

/// Returns whether a pair has this kind of clash.
fn clashes_so(r: &Schema, w: &Schema, pair: Pair, kind: &ClashKind) -> bool
    requires reader { pair.reader.index < length r.now.nodes }
    requires writer { pair.writer.index < length w.now.nodes }
    ensures { IsTrue result ↔ (spec.clash_of r.now.nodes w.now.nodes pair ≡ Some kind.now) }
{
    match row_at(r, w, pair) {
        Row::Clash(cause) => is_of_kind(&cause, kind),
        Row::Fields(reader, writer) => lacks_so(reader, writer, kind),
        _ => false,
    }
}

/// Returns whether two records whose names match have this kind of clash.
fn lacks_so(reader: &[Field], writer: &NamedList<Field>, kind: &ClashKind) -> bool
    ensures { IsTrue result ↔ (result_err (spec.to_fields reader.now writer.now) ≡ Some kind.now) }
{
    match first_lacking(reader, writer) {
        Some(f) => is_of_kind(&Cause::LackingField(&f.name), kind),
        None => false,
    }
}

fn is_of_kind(cause: &Cause<'_>, kind: &ClashKind) -> bool
    ensures { IsTrue result ↔ (clash_of_cause cause.now ≡ kind.now) }
{
    match cause {
        Cause::MissingUnionBranch => matches!(kind, ClashKind::MissingUnionBranch),
        Cause::NameMismatch => matches!(kind, ClashKind::NameMismatch),
        Cause::LackingField(name) => {
            matches!(kind, ClashKind::ReaderFieldMissingDefaultValue(other) if **name == *other)
        }
        Cause::UnknownSymbol(name) => {
            matches!(kind, ClashKind::MissingEnumSymbols(other) if **name == *other)
        }
        Cause::FixedSizeMismatch => matches!(kind, ClashKind::FixedSizeMismatch),
        Cause::TypeMismatch => matches!(kind, ClashKind::TypeMismatch),
    }
}
