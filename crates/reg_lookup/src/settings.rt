// Queries for levels and modes.
ghost use Rattle.std.specs.Prelude.{◌≡◌, IfOk, IfErr, Ok, option_map};
ghost use Rattle.reg_lookup.specs.Settings as spec;
ghost use Rattle.reg_lookup.specs.Gives.{IsRefusalOf};

use crate::bodies::{level_body, mode_body};
use crate::error::LookupError;
use reg_modes::base_text::Text;
use reg_modes::reg_fold::{Refusal, Registry};
use reg_modes::reg_level_names::Level;
use reg_modes::{Mode, mode_in_force, own_mode};
use std::alloc::Global;

/// Finds the global level in force, or a subject's own; with `default_global` the one in force for
/// it. Refused with `SubjectHasNoLevel` if the subject has none of its own.
pub(crate) fn level_found(
    alloc: Global,
    registry: &Registry,
    subject: Option<&str>,
    default_global: bool,
) -> Result<Text, LookupError>
    ensures found { IfOk result (λ body. spec.level_found registry.now (option_map (λ s. s.now) subject.entry) default_global ≡ Ok body) }
    ensures refused { IfErr result (IsRefusalOf (spec.level_found registry.now (option_map (λ s. s.now) subject.entry) default_global)) }
{
    match asked_level(registry, subject, default_global) {
        Some(level) => Ok(level_body(alloc, level.as_str())?),
        None => Err(LookupError::Refused(Refusal::SubjectHasNoLevel)),
    }
}

fn asked_level(registry: &Registry, subject: Option<&str>, default_global: bool) -> Option<Level>
    ensures { result ≡ spec.level_if_any registry.now (option_map (λ s. s.now) subject.entry) default_global }
{
    if subject.is_none() || default_global {
        Some(registry.level(subject))
    } else {
        registry.own_level(subject)
    }
}

/// Finds the global mode in force, or a subject's own; with `default_global` the one in force for
/// it. Refused with `SubjectHasNoMode` if the subject has none of its own.
pub(crate) fn mode_found(
    alloc: Global,
    registry: &Registry,
    subject: Option<&str>,
    default_global: bool,
) -> Result<Text, LookupError>
    ensures found { IfOk result (λ body. spec.mode_found registry.now (option_map (λ s. s.now) subject.entry) default_global ≡ Ok body) }
    ensures refused { IfErr result (IsRefusalOf (spec.mode_found registry.now (option_map (λ s. s.now) subject.entry) default_global)) }
{
    match asked_mode(registry, subject, default_global) {
        Some(mode) => Ok(mode_body(alloc, mode.as_str())?),
        None => Err(LookupError::Refused(Refusal::SubjectHasNoMode)),
    }
}

fn asked_mode(registry: &Registry, subject: Option<&str>, default_global: bool) -> Option<Mode>
    ensures { result ≡ spec.mode_if_any registry.now (option_map (λ s. s.now) subject.entry) default_global }
{
    if subject.is_none() || default_global {
        Some(mode_in_force(registry, subject))
    } else {
        own_mode(registry, subject)
    }
}
