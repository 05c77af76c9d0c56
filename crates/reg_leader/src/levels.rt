// The commands on levels, and no operation.
ghost use Rattle.std.specs.Prelude.{◌≡◌};
ghost use Rattle.reg_leader.specs.Deciding.{Follows};
ghost use Rattle.reg_leader.specs.Step.{clear_level, no_op, set_level};

use crate::deed::Deed;
use crate::reply::Reply;
use reg_rules::base_text::Text;
use reg_rules::reg_fold::{Refusal, Registry};
use reg_rules::reg_level_names::Level;
use reg_rules::reg_modes::{may_write, mode_in_force};
use reg_rules::{Writing, must_be_open, must_have_offset, subject_of};
use std::alloc::Global;

pub(crate) fn no_op(alloc: Global, registry: &Registry, next: u64) -> Result<Deed, Refusal>
    ensures { Follows (no_op registry.now next) result }
{
    must_be_open(registry)?;
    must_have_offset(next)?;
    Ok(Deed {
        reply: Reply::Nothing,
        writings: vec![in alloc; Writing::no_operation()]?,
    })
}

pub(crate) fn set_level(
    alloc: Global,
    registry: &Registry,
    next: u64,
    scope: &Option<Text>,
    level: Level,
) -> Result<Deed, Refusal>
    ensures { Follows (set_level registry.now next scope.now level) result }
{
    must_be_open(registry)?;
    must_have_offset(next)?;
    may_write(mode_in_force(registry, subject_of(scope)))?;
    let writing = Writing::level_set(alloc, scope, level)?;
    Ok(Deed {
        reply: Reply::Level(level),
        writings: vec![in alloc; writing]?,
    })
}

pub(crate) fn clear_level(
    alloc: Global,
    registry: &Registry,
    next: u64,
    subject: &Text,
) -> Result<Deed, Refusal>
    ensures { Follows (clear_level registry.now next subject.now) result }
{
    must_be_open(registry)?;
    must_have_offset(next)?;
    may_write(mode_in_force(registry, Some(subject.as_str())))?;
    let Some(level) = registry.own_level(Some(subject.as_str())) else {
        return Err(Refusal::SubjectHasNoLevel);
    };
    let writing = Writing::level_cleared(subject)?;
    Ok(Deed {
        reply: Reply::LevelRemoved(level),
        writings: vec![in alloc; writing]?,
    })
}
