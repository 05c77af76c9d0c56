// The mode in force. A scope is a subject, or None for all subjects.
ghost use Rattle.std.specs.Prelude.{◌≡◌, option_map};
ghost use Rattle.reg_modes.specs.InForce as spec;

use crate::mode::Mode;
use reg_fold::Registry;

/// Returns the mode set on a subject itself, or with `None` the global one, if it was set. A name
/// that is no mode's counts as READONLY. Takes no memory.
pub fn own_mode(registry: &Registry, subject: Option<&str>) -> Option<Mode>
    ensures { result ≡ spec.own_mode registry.now (option_map (λ s. s.now) subject.entry) }
{
    let name = registry.own_mode_name(subject)?;
    Some(Mode::standing(name))
}

/// Returns the mode in force for a subject, or with `None` for all subjects: the subject's own,
/// else the global one, else READWRITE. Takes no memory.
pub fn mode_in_force(registry: &Registry, subject: Option<&str>) -> Mode
    ensures { result ≡ spec.mode registry.now (option_map (λ s. s.now) subject.entry) }
{
    match own_mode(registry, subject) {
        Some(mode) => mode,
        None => own_mode(registry, None).unwrap_or(Mode::Readwrite),
    }
}
