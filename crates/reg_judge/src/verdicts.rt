// The verdicts that a judge keeps.
ghost use Rattle.std.specs.Prelude.{◌≡◌, IfOk, MatchBool, false};
ghost use Rattle.reg_judge.specs.Judge.{UsesInTurn, has_pair, used as with_used};
ghost use Rattle.reg_judge.specs.Kept.{AreVerdicts, IsVerdictOf, pairs_of, texts_of};

use crate::source::Source;
use avro_resolve::{Verdict, resolve};
use lru::LruCache;
use std::alloc::{AllocError, Global};
use std::hash::RandomState;

/// A reader's text and a writer's.
pub(crate) type Pair = (String, String);

/// The kept verdicts, each by its pair of texts.
pub(crate) type Verdicts = LruCache<Pair, Verdict, RandomState>;

/// Returns the verdict on two schemas: the kept one, or a new one.
///
/// The only error is out of memory.
pub(crate) fn verdict_on(
    alloc: Global,
    kept: &Verdicts,
    pair: &Pair,
    reader: &Source,
    writer: &Source,
) -> Result<Verdict, AllocError>
    requires kept { AreVerdicts kept.now.entries }
    requires pair { texts_of pair.now ≡ (reader.now, writer.now) }
    ensures { IfOk result (λ verdict. IsVerdictOf (pair.now, verdict)) }
{
    match kept.peek(pair) {
        Some(verdict) => verdict.clone(),
        None => resolve(alloc, &reader.schema, &writer.schema),
    }
}

/// Keeps a verdict, as the one that was used last. If memory is refused for one that isn't kept
/// yet, returns false.
fn keep(kept: &mut Verdicts, pair: Pair, verdict: Verdict) -> bool
    requires kept { AreVerdicts kept.old.entries }
    requires made { IsVerdictOf (pair, verdict) }
    ensures verdicts { AreVerdicts kept.new.entries }
    ensures capacity { kept.new.cap ≡ kept.old.cap }
    ensures kept { MatchBool result
        (pairs_of kept.new.entries ≡ with_used kept.old.cap (texts_of pair) (pairs_of kept.old.entries))
        ((pairs_of kept.new.entries ≡ pairs_of kept.old.entries) × (has_pair (pairs_of kept.old.entries) (texts_of pair) ≡ false)) }
{
    kept.put(pair, verdict).is_ok()
}

/// Keeps verdicts, the last one as the one that was used last. Those for which memory is refused
/// aren't kept. Returns whether all were kept.
pub(crate) fn keep_all(kept: &mut Verdicts, used: Vec<(Pair, Verdict)>) -> bool
    requires kept { AreVerdicts kept.old.entries }
    requires used { AreVerdicts used.items }
    ensures verdicts { AreVerdicts kept.new.entries }
    ensures capacity { kept.new.cap ≡ kept.old.cap }
    ensures kept { UsesInTurn kept.old.cap (pairs_of used.items) (pairs_of kept.old.entries) (pairs_of kept.new.entries) result }
{
    let mut all = true;
    for (pair, verdict) in used {
        if !keep(kept, pair, verdict) {
            all = false;
        }
    }
    all
}
