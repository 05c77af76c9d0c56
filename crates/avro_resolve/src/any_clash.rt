// Whether any clash can be reached: a search that keeps two bits for each pair, and no trails.
ghost use Rattle.std.specs.Prelude.{◌≡◌, ◌<◌, ◌≤◌, ℕ, ◌==◌, ◌*◌, ◌^◌, true, Some, All, length, IfOk, IfSome, OnOk};
ghost use Rattle.avro_resolve.specs.Worklist.{is_met, waits, IsOrderly};
ghost use Rattle.avro_resolve.specs.AnyClash.{HaveMet};
ghost use Rattle.avro_resolve.specs.Numbered.{number_of as the_number, IsPairOf};
ghost use Rattle.avro_resolve.specs.FieldIndex.{AreFieldIndexes};
ghost use Rattle.avro_resolve.specs.Trails.{AreCompatible};
ghost use Rattle.avro_resolve.specs.Unions.{AreIndexes};
ghost use Rattle.avro_schema.specs.Sound.{IsSound};

use crate::field_index::FieldIndexes;
use crate::obligations::Pair;
use crate::owed::look_up;
use crate::unions::Unions;
use crate::worklist::Worklist;
use avro_schema::{NodeId, Schema};
use std::alloc::{AllocError, Global};

/// Returns the number of reachable pairs if none of them clashes. `None` if one does, or if the
/// schemas have too many pairs to number. The only error is out of memory.
#[cold]
#[inline(never)]
pub fn pairs_without_clash<'a>(
    alloc: Global,
    r: &'a Schema,
    w: &'a Schema,
    unions: &mut Unions<'a>,
    field_indexes: &mut FieldIndexes<'a>,
) -> Result<Option<usize>, AllocError>
    requires reader { IsSound r.now.nodes }
    requires writer { IsSound w.now.nodes }
    requires unions { AreIndexes r.now.nodes unions.old.of }
    requires field_indexes { AreFieldIndexes r.now.nodes field_indexes.old.of }
    ensures compatible { IfOk result (λ found. IfSome found (λ pairs. AreCompatible r.now.nodes w.now.nodes)) }
    ensures pairs { IfOk result (λ found. IfSome found (λ pairs. pairs ≤ length r.now.nodes * length w.now.nodes)) }
    ensures unions { OnOk result (AreIndexes r.now.nodes unions.new.of) }
    ensures field_indexes { OnOk result (AreFieldIndexes r.now.nodes field_indexes.new.of) }
{
    match r.node_count().checked_mul(w.node_count()) {
        Some(many) => {
            let mut worklist = Worklist::none(alloc, many)?;
            worklist.meet(0)?;
            look_up_all(alloc, r, w, &mut worklist, unions, field_indexes)
        }
        None => Ok(None),
    }
}

/// Looks up all pairs that can be reached from the roots, by number. Returns how many there are if
/// none of them clashes.
fn look_up_all<'a>(
    alloc: Global,
    r: &'a Schema,
    w: &'a Schema,
    worklist: &mut Worklist,
    unions: &mut Unions<'a>,
    field_indexes: &mut FieldIndexes<'a>,
) -> Result<Option<usize>, AllocError>
    requires reader { IsSound r.now.nodes }
    requires writer { IsSound w.now.nodes }
    requires small { length r.now.nodes * length w.now.nodes < 2 ^ 64 }
    requires room { length r.now.nodes * length w.now.nodes < 64 * length worklist.old.met.words.items }
    requires orderly { IsOrderly worklist.old }
    requires roots { (k : ℕ) → is_met worklist.old k ≡ (0 == k) }
    requires roots_wait { (k : ℕ) → waits worklist.old k ≡ (0 == k) }
    requires unions { AreIndexes r.now.nodes unions.old.of }
    requires field_indexes { AreFieldIndexes r.now.nodes field_indexes.old.of }
    ensures compatible { IfOk result (λ found. IfSome found (λ pairs. AreCompatible r.now.nodes w.now.nodes)) }
    ensures pairs { IfOk result (λ found. IfSome found (λ pairs. pairs ≤ length r.now.nodes * length w.now.nodes)) }
    ensures unions { OnOk result (AreIndexes r.now.nodes unions.new.of) }
    ensures field_indexes { OnOk result (AreFieldIndexes r.now.nodes field_indexes.new.of) }
{
    let mut owed = Vec::new(alloc);
    let mut pairs = 0;
    'pairs: while let Some(number) = worklist.next() {
        let pair = pair_of(r, w, number);
        let cause = look_up(r, w, pair, unions, field_indexes, &mut owed)?;
        if cause.is_some() {
            return Ok(None);
        }
        meet_all(worklist, r, w, owed.as_slice())?;
        pairs += 1;
    }
    Ok(Some(pairs))
}

/// Adds pairs to the worklist, by number.
fn meet_all(
    worklist: &mut Worklist,
    r: &Schema,
    w: &Schema,
    owed: &[Pair],
) -> Result<(), AllocError>
    requires within { All (IsPairOf r.now.nodes w.now.nodes) owed.now }
    requires small { length r.now.nodes * length w.now.nodes < 2 ^ 64 }
    requires room { length r.now.nodes * length w.now.nodes < 64 * length worklist.old.met.words.items }
    requires orderly { IsOrderly worklist.old }
    ensures met { OnOk result (HaveMet r.now.nodes w.now.nodes worklist.old owed.now worklist.new) }
    ensures room { OnOk result (length worklist.new.met.words.items ≡ length worklist.old.met.words.items) }
    ensures orderly { OnOk result (IsOrderly worklist.new) }
{
    for pair in owed {
        worklist.meet(number_of(r, w, *pair))?;
    }
    Ok(())
}

/// Returns a pair's number. The pairs with the reader's first type come first, then those with its
/// second.
fn number_of(_r: &Schema, w: &Schema, pair: Pair) -> usize
    requires within { IsPairOf _r.now.nodes w.now.nodes pair }
    requires small { length _r.now.nodes * length w.now.nodes < 2 ^ 64 }
    ensures number { result ≡ the_number w.now.nodes pair }
    ensures below { result < length _r.now.nodes * length w.now.nodes }
{
    pair.reader.index * w.node_count() + pair.writer.index
}

/// Returns the pair of that number.
fn pair_of(_r: &Schema, w: &Schema, number: usize) -> Pair
    requires { number < length _r.now.nodes * length w.now.nodes }
    ensures within { IsPairOf _r.now.nodes w.now.nodes result }
    ensures number { the_number w.now.nodes result ≡ number }
{
    let writers = w.node_count();
    Pair {
        reader: NodeId {
            index: number / writers,
        },
        writer: NodeId {
            index: number % writers,
        },
    }
}
