// Whether two schemas resolve.
ghost use Rattle.std.specs.Prelude.{◌≡◌, ◌≤◌, ◌*◌, [], length, IfOk};
ghost use Rattle.avro_schema.specs.Sound.{IsSound};
ghost use Rattle.avro_resolve.specs.Search.{AgreesWith};
ghost use Rattle.avro_resolve.specs.FieldIndex.{AreFieldIndexes};
ghost use Rattle.avro_resolve.specs.Unions.{AreIndexes};

use crate::any_clash::pairs_without_clash;
use crate::field_index::FieldIndexes;
use crate::owed::look_up;
use crate::search::Search;
use crate::trail::Trail;
use crate::unions::Unions;
use avro_schema::Schema;
use std::alloc::{AllocError, Global};

/// After this many pairs, the search for a shortest trail stops to ask whether any clash can be
/// reached.
const MANY_PAIRS: usize = 65_536;

/// The question also waits until one in this many of all pairs is reached: by then the search has
/// taken about as much memory as the question takes.
const PART: usize = 256;

/// The most obligations of a pair for which room is made at first.
const SOON_OWED: usize = 64;

/// The result of resolving a reader's schema against a writer's.
#[derive(Debug, Drop)]
pub enum Verdict {
    /// The schemas are compatible: no trail leads to a clash.
    Compatible,
    /// The schemas aren't compatible, shown by a shortest trail to a clash. Of several shortest
    /// trails it is the first in dictionary order of the obligations' numbers; an obligation's
    /// number is its position among those of its pair.
    Clash(Trail),
}

impl Clone for Verdict {
    ghost is_clone = { λ verdict copy. copy ≡ verdict };

    fn clone(&self) -> Result<Verdict, AllocError> {
        match self {
            Verdict::Compatible => Ok(Verdict::Compatible),
            Verdict::Clash(trail) => Ok(Verdict::Clash(trail.clone()?)),
        }
    }
}

/// A verdict, and the number of pairs of types that it needed: all reachable pairs if the schemas
/// are compatible, else those looked up until the clash was found.
#[derive(Debug, Drop)]
pub struct Counted {
    pub verdict: Verdict,
    pub pairs: usize,
}

ghost use Rattle.avro_resolve.specs.Verdict.{IsVerdict, HaveOneVerdict};

/// Resolves a reader's schema `r` against a writer's schema `w` (Avro 1.11, "Schema Resolution").
///
/// Only the presence of a field's default counts, not whether it is valid. The only error is out of
/// memory.
pub fn resolve(alloc: Global, r: &Schema, w: &Schema) -> Result<Verdict, AllocError>
    ensures verdict { IfOk result (IsVerdict r.now.nodes w.now.nodes) }
    ensures one_verdict { HaveOneVerdict r.now.nodes w.now.nodes }
{
    Ok(resolve_counted(alloc, r, w)?.verdict)
}

/// Resolves two schemas like [`resolve`], and counts the pairs of types that it needed: at most
/// `r.node_count()` times `w.node_count()`. The only error is out of memory.
pub fn resolve_counted(alloc: Global, r: &Schema, w: &Schema) -> Result<Counted, AllocError>
    ensures verdict { IfOk result (λ c. IsVerdict r.now.nodes w.now.nodes c.verdict) }
    ensures pairs { IfOk result (λ c. c.pairs ≤ length r.now.nodes * length w.now.nodes) }
{
    let mut search = Search::none(alloc, r.node_count(), w.node_count())?;
    let mut unions = Unions::none(alloc);
    let mut field_indexes = FieldIndexes::none(alloc);
    resolve_by(alloc, r, w, &mut search, &mut unions, &mut field_indexes)
}

/// Resolves two schemas, with a search that has reached no pair yet.
fn resolve_by<'a>(
    alloc: Global,
    r: &'a Schema,
    w: &'a Schema,
    search: &mut Search,
    unions: &mut Unions<'a>,
    field_indexes: &mut FieldIndexes<'a>,
) -> Result<Counted, AllocError>
    requires reader { IsSound r.now.nodes }
    requires writer { IsSound w.now.nodes }
    requires none { search.old.entries.items ≡ [] }
    requires agrees { AgreesWith search.old.seen [] }
    requires unions { AreIndexes r.now.nodes unions.old.of }
    requires field_indexes { AreFieldIndexes r.now.nodes field_indexes.old.of }
    ensures verdict { IfOk result (λ c. IsVerdict r.now.nodes w.now.nodes c.verdict) }
    ensures pairs { IfOk result (λ c. c.pairs ≤ length r.now.nodes * length w.now.nodes) }
{
    search.reach_roots(r, w)?;
    let mut owed = Vec::with_capacity(alloc, r.node_count().min(SOON_OWED))?;
    let mut patience = patience_with(r, w);
    let mut head = 0;
    'heads: while head < search.entries.len() {
        if search.entries.len() > patience {
            patience = usize::MAX;
            if let Some(pairs) = pairs_without_clash(alloc, r, w, unions, field_indexes)? {
                return Ok(Counted {
                    verdict: Verdict::Compatible,
                    pairs,
                });
            }
        }
        let pair = search.entries[head].pair;
        if let Some(cause) = look_up(r, w, pair, unions, field_indexes, &mut owed)? {
            let trail = search.trail_to(alloc, r, w, head, cause, unions, field_indexes)?;
            return Ok(Counted {
                verdict: Verdict::Clash(trail),
                pairs: head + 1,
            });
        }
        search.reach_all(head, owed.as_slice())?;
        head += 1;
    }
    Ok(Counted {
        verdict: Verdict::Compatible,
        pairs: head,
    })
}

/// Returns after how many pairs to ask whether any clash can be reached. The search for a shortest
/// trail takes far more memory per pair than that question.
fn patience_with(r: &Schema, w: &Schema) -> usize {
    let pairs = r.node_count().saturating_mul(w.node_count());
    MANY_PAIRS.max(pairs / PART)
}
