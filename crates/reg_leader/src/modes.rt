// The commands on modes.
ghost use Rattle.std.specs.Prelude.{◌≡◌};
ghost use Rattle.reg_leader.specs.Deciding.{Follows};
ghost use Rattle.reg_leader.specs.Step.{clear_mode, set_mode};

use crate::deed::Deed;
use crate::reply::Reply;
use reg_rules::base_text::Text;
use reg_rules::reg_fold::{Refusal, Registry};
use reg_rules::reg_modes::{Mode, own_mode};
use reg_rules::{Writing, must_allow_mode, must_be_open, must_have_offset};
use std::alloc::Global;

pub(crate) fn set_mode(
    alloc: Global,
    registry: &Registry,
    next: u64,
    scope: &Option<Text>,
    mode: Mode,
    force: bool,
) -> Result<Deed, Refusal>
    ensures { Follows (set_mode registry.now next scope.now mode force) result }
{
    must_be_open(registry)?;
    must_have_offset(next)?;
    must_allow_mode(registry, scope, mode, force)?;
    let writing = Writing::mode_set(alloc, scope, mode)?;
    Ok(Deed {
        reply: Reply::Mode(mode),
        writings: vec![in alloc; writing]?,
    })
}

pub(crate) fn clear_mode(
    alloc: Global,
    registry: &Registry,
    next: u64,
    subject: &Text,
) -> Result<Deed, Refusal>
    ensures { Follows (clear_mode registry.now next subject.now) result }
{
    must_be_open(registry)?;
    must_have_offset(next)?;
    let Some(mode) = own_mode(registry, Some(subject.as_str())) else {
        return Err(Refusal::SubjectHasNoMode);
    };
    let writing = Writing::mode_cleared(subject)?;
    Ok(Deed {
        reply: Reply::ModeRemoved(mode),
        writings: vec![in alloc; writing]?,
    })
}
