// The search for a clash, breadth first over pairs of types.
ghost use Rattle.std.specs.Prelude.{◌≡◌, ◌<◌, [], ◌∷◌, None, length, reverse, vec_len, slice_get, option_map, Some, IfOk, OnOk};
ghost use Rattle.std.specs.Result.{result_unwrap_or};
ghost use Rattle.avro_resolve.specs.declared.trail.Hop.TheVariants as hop;
ghost use Rattle.avro_resolve.specs.FieldIndex.{AreFound, AreFieldIndexes, fields_in};
ghost use Rattle.avro_resolve.specs.Table as spec;
ghost use Rattle.avro_resolve.specs.Row.{clash_of_cause};
ghost use Rattle.avro_schema.specs.Sound.{HaveDistinctNames};
ghost use Rattle.avro_resolve.specs.Trails.{roots};
ghost use Rattle.avro_resolve.specs.Unions.{AreIndexes};

use crate::field_index::{FieldIndexes, FoundField, found_fields};
use crate::fields::{paired_among, paired_at};
use crate::obligations::Pair;
use crate::seen::SeenPairs;
use crate::table::{Cause, Row, long_records, row_by_index};
use crate::trail::{Hop, Trail};
use crate::unions::Unions;
use avro_schema::{Field, NodeId, Schema};
use base_text::Listed;
use named_list::NamedList;
use std::alloc::{AllocError, Global};

/// The most pairs for which room is made at first.
const SOON_REACHED: usize = 64;

/// Where a pair was reached from: the position of an earlier pair in the search, and the number of
/// its obligation, both from 0.
#[derive(Clone, Copy)]
pub struct Origin {
    pub place: usize,
    pub number: usize,
}

/// A pair that was reached, and where from. The pair of roots has no origin.
#[derive(Clone, Copy)]
pub struct ReachedPair {
    pub pair: Pair,
    pub from: Option<Origin>,
}

/// A breadth-first search: the pairs reached so far, in order and as a set.
#[derive(Drop)]
pub struct Search {
    pub entries: Vec<ReachedPair>,
    pub seen: SeenPairs,
}

impl Search {
    ghost use Rattle.avro_resolve.specs.Search.{AgreesWith, with_entry, entry_from, expanded, hop_numbered, IsWayBack, LeadsBack};

    /// Makes a search over schemas of so many nodes that has reached no pair. The only error is out
    /// of memory.
    pub fn none(alloc: Global, readers: usize, writers: usize) -> Result<Search, AllocError>
        ensures none { IfOk result (λ s. s.entries.items ≡ []) }
        ensures agrees { IfOk result (λ s. AgreesWith s.seen []) }
    {
        let entries = Vec::with_capacity(alloc, readers.min(SOON_REACHED))?;
        let seen = SeenPairs::none(alloc, readers, writers)?;
        Ok(Search { entries, seen })
    }

    /// Adds the pair of roots, the first of all.
    pub fn reach_roots(&mut self, r: &Schema, w: &Schema) -> Result<(), AllocError>
        requires none { self.old.entries.items ≡ [] }
        requires agrees { AgreesWith self.old.seen [] }
        ensures first { OnOk result (self.new.entries.items ≡ record { pair = roots; from = None } ∷ []) }
        ensures agrees { OnOk result (AgreesWith self.new.seen self.new.entries.items) }
    {
        let pair = Pair {
            reader: r.root(),
            writer: w.root(),
        };
        self.reach(ReachedPair { pair, from: None })
    }

    /// Adds an entry unless its pair was reached before.
    #[inline(always)]
    fn reach(&mut self, entry: ReachedPair) -> Result<(), AllocError>
        requires { AgreesWith self.old.seen self.old.entries.items }
        ensures entries { OnOk result (self.new.entries.items ≡ with_entry self.old.entries.items entry) }
        ensures agrees { OnOk result (AgreesWith self.new.seen self.new.entries.items) }
    {
        if self.seen.insert(entry.pair)? {
            self.entries.push(entry)?;
        }
        Ok(())
    }

    /// Adds the obligations of the pair at `place`, in their order, unless reached before.
    pub fn reach_all(&mut self, place: usize, owed: &[Pair]) -> Result<(), AllocError>
        requires { AgreesWith self.old.seen self.old.entries.items }
        ensures entries { OnOk result (self.new.entries.items ≡ expanded place 0 owed.now self.old.entries.items) }
        ensures agrees { OnOk result (AgreesWith self.new.seen self.new.entries.items) }
    {
        for (number, pair) in owed.iter().enumerate() {
            self.reach(reached(*pair, place, number))?;
        }
        Ok(())
    }

    /// Makes the trail to the pair at `place`, which clashes for this cause. The only error is out
    /// of memory.
    pub fn trail_to<'a>(
        &self,
        alloc: Global,
        r: &'a Schema,
        w: &'a Schema,
        place: usize,
        cause: Cause<'a>,
        unions: &Unions<'a>,
        field_indexes: &FieldIndexes<'a>,
    ) -> Result<Trail, AllocError>
        requires within { place < vec_len self.now.entries }
        requires back { LeadsBack r.now.nodes w.now.nodes self.now.entries.items }
        requires unions { AreIndexes r.now.nodes unions.now.of }
        requires field_indexes { AreFieldIndexes r.now.nodes field_indexes.now.of }
        ensures hops { IfOk result (λ trail. IsWayBack r.now.nodes w.now.nodes self.now.entries.items place (reverse trail.hops)) }
        ensures kind { IfOk result (λ trail. trail.kind ≡ clash_of_cause cause.entry) }
    {
        let kind = cause.kind()?;
        let hops = self.hops_to(alloc, r, w, place, unions, field_indexes)?;
        Ok(Trail { hops, kind })
    }

    /// Returns the hops from the roots to the pair at `place`.
    fn hops_to<'a>(
        &self,
        alloc: Global,
        r: &'a Schema,
        w: &'a Schema,
        place: usize,
        unions: &Unions<'a>,
        field_indexes: &FieldIndexes<'a>,
    ) -> Result<Listed<Hop>, AllocError>
        requires within { place < vec_len self.now.entries }
        requires back { LeadsBack r.now.nodes w.now.nodes self.now.entries.items }
        requires unions { AreIndexes r.now.nodes unions.now.of }
        requires field_indexes { AreFieldIndexes r.now.nodes field_indexes.now.of }
        ensures { IfOk result (λ hops. IsWayBack r.now.nodes w.now.nodes self.now.entries.items place (reverse hops)) }
    {
        let mut hops = Vec::new(alloc);
        let mut at = place;
        'back: while let Some(step) = self.entries[at].from {
            let parent = self.entries[step.place].pair;
            hops.push(hop_of(r, w, parent, step.number, unions, field_indexes)?)?;
            at = step.place;
        }
        hops.reverse();
        Ok(Listed::from(hops))
    }
}

/// Makes the entry of an obligation of the pair at `place`.
fn reached(pair: Pair, place: usize, number: usize) -> ReachedPair
    ensures { result ≡ record { pair = pair; from = Some (record { place = place; number = number }) } }
{
    ReachedPair {
        pair,
        from: Some(Origin { place, number }),
    }
}

/// Returns the hop of a pair's obligation of that number.
fn hop_of<'a>(
    r: &'a Schema,
    w: &'a Schema,
    pair: Pair,
    number: usize,
    unions: &Unions<'a>,
    field_indexes: &FieldIndexes<'a>,
) -> Result<Hop, AllocError>
    requires reader { pair.reader.index < length r.now.nodes }
    requires writer { pair.writer.index < length w.now.nodes }
    requires numbered { number < length (spec.obligations r.now.nodes w.now.nodes pair) }
    requires unions { AreIndexes r.now.nodes unions.now.of }
    requires field_indexes { AreFieldIndexes r.now.nodes field_indexes.now.of }
    ensures { IfOk result (λ h. option_map (λ o. o.hop) (slice_get (spec.obligations r.now.nodes w.now.nodes pair) number) ≡ Some h) }
{
    match long_records(r, w, pair) {
        Some((reader, writer)) => long_hop(r, pair.reader, reader, writer, number, field_indexes),
        None => short_hop(r, w, pair, number, unions),
    }
}

/// Returns the hop into the paired field of that number, for the reader's record of that id, by its
/// field index.
fn long_hop<'a>(
    r: &Schema,
    id: NodeId,
    reader: &NamedList<Field>,
    writer: &'a NamedList<Field>,
    number: usize,
    field_indexes: &FieldIndexes<'a>,
) -> Result<Hop, AllocError>
    requires fields { reader.now ≡ fields_in (slice_get r.now.nodes id.index) }
    requires writers { HaveDistinctNames writer.now }
    requires numbered { number < length (result_unwrap_or (spec.to_fields reader.now writer.now) []) }
    requires field_indexes { AreFieldIndexes r.now.nodes field_indexes.now.of }
    ensures { IfOk result (λ h. option_map (λ o. o.hop) (slice_get (result_unwrap_or (spec.to_fields reader.now writer.now) []) number) ≡ Some h) }
{
    match field_indexes.of_record(r, id) {
        Some(field_index) if field_index.is_worth_while(writer.as_slice().len()) => {
            let others = writer.as_slice();
            let found = found_fields(
                field_indexes.memory(),
                reader.as_slice(),
                field_index,
                others,
            )?;
            found_hop(reader.as_slice(), others, found.as_slice(), number)
        }
        _ => field_hop(reader.as_slice(), writer, number),
    }
}

/// Returns the hop into the paired field of that number, looking only at the reader's fields in
/// `found`.
fn found_hop(
    reader: &[Field],
    writer: &[Field],
    found: &[FoundField],
    number: usize,
) -> Result<Hop, AllocError>
    requires numbered { number < length (result_unwrap_or (spec.to_fields reader.now writer.now) []) }
    requires distinct { HaveDistinctNames writer.now }
    requires found { AreFound reader.now writer.now found.now }
    ensures { IfOk result (λ h. option_map (λ o. o.hop) (slice_get (result_unwrap_or (spec.to_fields reader.now writer.now) []) number) ≡ Some h) }
{
    match paired_among(reader, writer, found, number) {
        Some(f) => Ok(Hop::Field(f.name.clone()?)),
        None => unreachable!(),
    }
}

/// Returns the hop of an obligation of any pair, by its row.
fn short_hop<'a>(
    r: &'a Schema,
    w: &'a Schema,
    pair: Pair,
    number: usize,
    unions: &Unions<'a>,
) -> Result<Hop, AllocError>
    requires unions { AreIndexes r.now.nodes unions.now.of }
    requires reader { pair.reader.index < length r.now.nodes }
    requires writer { pair.writer.index < length w.now.nodes }
    requires numbered { number < length (spec.obligations r.now.nodes w.now.nodes pair) }
    ensures { IfOk result (λ h. option_map (λ o. o.hop) (slice_get (spec.obligations r.now.nodes w.now.nodes pair) number) ≡ Some h) }
{
    match row_by_index(r, w, pair, unions.of_union(r, pair.reader)) {
        Row::WriterBranches(_, _) => Ok(Hop::Writer(number)),
        Row::One(part, _) => Ok(part.hop()),
        Row::Fields(reader, writer) => field_hop(reader, writer, number),
        Row::Clash(_) | Row::Nothing => unreachable!(),
    }
}

/// Returns the hop into the field of that number, counting only fields with a partner.
fn field_hop(reader: &[Field], writer: &NamedList<Field>, number: usize) -> Result<Hop, AllocError>
    requires { number < length (result_unwrap_or (spec.to_fields reader.now writer.now) []) }
    ensures { IfOk result (λ h. option_map (λ o. o.hop) (slice_get (result_unwrap_or (spec.to_fields reader.now writer.now) []) number) ≡ Some h) }
{
    match paired_at(reader, writer, number) {
        Some(f) => Ok(Hop::Field(f.name.clone()?)),
        None => unreachable!(),
    }
}
