// Whether a new schema meets a level.
ghost use Rattle.std.specs.Prelude.{◌≡◌, IfOk, flat_map, map, reverse, [], ◌∷◌};
ghost use Rattle.reg_levels.specs.RequiredPairs as pairs;
ghost use Rattle.reg_levels.specs.LevelVerdict.{IsVerdictOn, IsLevelVerdict, IsOkWhereMet, HaveOneLevelVerdict};

use crate::direction::Direction;
use crate::verdict::LevelVerdict;
use avro_resolve::avro_schema::Schema;
use avro_resolve::{Verdict, resolve, schemas_have_one_verdict};
use reg_level_names::Level;
use std::alloc::{AllocError, Global};

/// Checks whether a new schema meets a level against the old versions, in ascending order of
/// version.
///
/// If it doesn't, the verdict reports the first pair that clashes, from the greatest version down
/// and `Backward` before `Forward`. The only error is out of memory.
pub fn check(
    alloc: Global,
    level: Level,
    new: &Schema,
    olds: &[(u32, &Schema)],
) -> Result<LevelVerdict, AllocError>
    requires { pairs.HasRisingVersions olds.now }
    ensures verdict { IfOk result
        (IsLevelVerdict level new.now.nodes (map (λ old. (old.0, old.1.now.nodes)) olds.now)) }
    ensures ok { IfOk result
        (IsOkWhereMet level new.now.nodes (map (λ old. (old.0, old.1.now.nodes)) olds.now)) }
    ensures one_verdict { HaveOneLevelVerdict }
{
    schemas_have_one_verdict();
    check_each(alloc, level, new, looked_at(level, olds))
}

/// Checks a new schema against each of these versions, all of which the level looks at.
fn check_each(
    alloc: Global,
    level: Level,
    new: &Schema,
    olds: &[(u32, &Schema)],
) -> Result<LevelVerdict, AllocError>
    ensures { IfOk result (IsVerdictOn (flat_map (pairs.required_of level new.now.nodes)
        (reverse (map (λ old. (old.0, old.1.now.nodes)) olds.now)))) }
{
    for place in (0..olds.len()).rev() {
        let old = olds[place];
        let verdict = check_version(alloc, level, new, old.0, old.1)?;
        if !verdict.ok {
            return Ok(verdict);
        }
    }
    Ok(LevelVerdict::passed())
}

/// Returns the old versions that a level looks at: none, the greatest (the last of the slice) or
/// all.
pub fn looked_at<T>(level: Level, olds: &[T]) -> &[T]
    ensures { result.now ≡ pairs.looked_at level olds.now }
{
    let first = match level {
        Level::None => olds.len(),
        Level::Backward | Level::Forward | Level::Full => olds.len().saturating_sub(1),
        Level::BackwardTransitive | Level::ForwardTransitive | Level::FullTransitive => 0,
    };
    &olds[first..]
}

/// Checks whether a new schema meets a level against one version.
pub(crate) fn check_version(
    alloc: Global,
    level: Level,
    new: &Schema,
    version: u32,
    old: &Schema,
) -> Result<LevelVerdict, AllocError>
    ensures { IfOk result (IsVerdictOn (pairs.required_of level new.now.nodes (version, old.now.nodes))) }
{
    match level {
        Level::None => Ok(LevelVerdict::passed()),
        Level::Backward | Level::BackwardTransitive => {
            check_pair(alloc, new, old, version, Direction::Backward)
        }
        Level::Forward | Level::ForwardTransitive => {
            check_pair(alloc, old, new, version, Direction::Forward)
        }
        Level::Full | Level::FullTransitive => {
            let backward = check_pair(alloc, new, old, version, Direction::Backward)?;
            if !backward.ok {
                return Ok(backward);
            }
            check_pair(alloc, old, new, version, Direction::Forward)
        }
    }
}

/// Checks one pair, which is required for that version and direction.
fn check_pair(
    alloc: Global,
    reader: &Schema,
    writer: &Schema,
    version: u32,
    direction: Direction,
) -> Result<LevelVerdict, AllocError>
    ensures { IfOk result (IsVerdictOn (record { version = version; direction = direction; reader = reader.now.nodes; writer = writer.now.nodes } ∷ [])) }
{
    match resolve(alloc, reader, writer)? {
        Verdict::Compatible => Ok(LevelVerdict::passed()),
        Verdict::Clash(trail) => Ok(LevelVerdict::failed(version, direction, trail)),
    }
}

/// Proves that a list of required pairs has one verdict. It costs nothing at run time: a function
/// that needs the law calls this one.
pub fn level_verdicts_are_single()
    ensures { HaveOneLevelVerdict }
{
    schemas_have_one_verdict();
}
