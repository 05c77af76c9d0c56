// A check of a level that uses the verdicts that are kept.
ghost use Rattle.std.specs.Prelude.{◌≡◌, IfOk};
ghost use Rattle.reg_levels.specs.RequiredPairs as required;
ghost use Rattle.reg_judge.specs.Judge.{text_pair};
ghost use Rattle.reg_judge.specs.Kept.{AreVerdicts, IsRun, IsVerdictOf, asked_from, pairs_of, texts_of, outcome_of};

use crate::source::Source;
use crate::verdicts::{Pair, Verdicts, verdict_on};
use avro_resolve::Verdict;
use reg_level_names::Level;
use reg_levels::{Direction, LevelVerdict};
use std::alloc::{AllocError, Global};

/// The verdict of a level check, with the pairs that were judged for it, in their order.
#[derive(Drop)]
pub(crate) struct Run {
    pub(crate) verdict: LevelVerdict,
    pub(crate) used: Vec<(Pair, Verdict)>,
}

/// Checks whether a new schema meets a level against old versions, all of which the level looks at.
///
/// The only error is out of memory.
pub(crate) fn judge_each(
    alloc: Global,
    kept: &Verdicts,
    level: Level,
    new: &Source,
    olds: &[(u32, Source)],
) -> Result<Run, AllocError>
    requires { AreVerdicts kept.now.entries }
    ensures run { IfOk result (λ run. IsRun (asked_from level new.now olds.now) (pairs_of run.used.items) run.verdict) }
    ensures used { IfOk result (λ run. AreVerdicts run.used.items) }
{
    let asked = directions(level);
    let mut used = Vec::new(alloc);
    for place in (0..olds.len()).rev() {
        let old = &olds[place];
        for direction in asked {
            let (pair, verdict) = judge_in(alloc, kept, *direction, new, old)?;
            let told = told(old.0, *direction, &verdict)?;
            used.push((pair, verdict))?;
            if !told.ok {
                return Ok(Run {
                    verdict: told,
                    used,
                });
            }
        }
    }
    Ok(Run {
        verdict: LevelVerdict::passed(),
        used,
    })
}

/// Returns the directions in which a level asks, `Backward` before `Forward`.
fn directions(level: Level) -> &'static [Direction]
    ensures { result.now ≡ required.directions level }
{
    match level {
        Level::None => &[],
        Level::Backward | Level::BackwardTransitive => &[Direction::Backward],
        Level::Forward | Level::ForwardTransitive => &[Direction::Forward],
        Level::Full | Level::FullTransitive => &[Direction::Backward, Direction::Forward],
    }
}

/// Judges the pair of a direction.
fn judge_in(
    alloc: Global,
    kept: &Verdicts,
    direction: Direction,
    new: &Source,
    old: &(u32, Source),
) -> Result<(Pair, Verdict), AllocError>
    requires { AreVerdicts kept.now.entries }
    ensures pair { IfOk result (λ judged. texts_of judged.0 ≡ text_pair new.now old.now direction) }
    ensures verdict { IfOk result IsVerdictOf }
{
    match direction {
        Direction::Backward => judge_pair(alloc, kept, new, &old.1),
        Direction::Forward => judge_pair(alloc, kept, &old.1, new),
    }
}

/// Judges a pair, or takes its verdict from those that are kept.
fn judge_pair(
    alloc: Global,
    kept: &Verdicts,
    reader: &Source,
    writer: &Source,
) -> Result<(Pair, Verdict), AllocError>
    requires { AreVerdicts kept.now.entries }
    ensures pair { IfOk result (λ judged. texts_of judged.0 ≡ (reader.now, writer.now)) }
    ensures verdict { IfOk result IsVerdictOf }
{
    let pair = (reader.text.clone()?, writer.text.clone()?);
    let verdict = verdict_on(alloc, kept, &pair, reader, writer)?;
    Ok((pair, verdict))
}

/// Returns the verdict on a version and direction by the verdict on its pair.
fn told(version: u32, direction: Direction, verdict: &Verdict) -> Result<LevelVerdict, AllocError>
    ensures { IfOk result (λ told. told ≡ outcome_of version direction verdict.now) }
{
    match verdict {
        Verdict::Compatible => Ok(LevelVerdict::passed()),
        Verdict::Clash(trail) => Ok(LevelVerdict::failed(version, direction, trail.clone()?)),
    }
}
