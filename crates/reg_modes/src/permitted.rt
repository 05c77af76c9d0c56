// What a mode permits. Nothing here takes memory.
ghost use Rattle.std.specs.Prelude.{◌≡◌, option_map};
ghost use Rattle.reg_modes.specs.Permitted as spec;

use crate::mode::Mode;
use reg_fold::{Reason, Refusal, Registry};

/// Tests that the mode permits a registration with an id, or without one. The only refusal is
/// `NotPermitted`, with `Readonly`, `IdNeedsImport` or `ImportNeedsId`.
pub fn may_register(mode: Mode, has_id: bool) -> Result<(), Refusal>
    ensures { result ≡ spec.may_register mode has_id }
{
    match (mode, has_id) {
        (Mode::Readonly, _) => Err(Refusal::NotPermitted(Reason::Readonly)),
        (Mode::Readwrite, true) => Err(Refusal::NotPermitted(Reason::IdNeedsImport)),
        (Mode::Import, false) => Err(Refusal::NotPermitted(Reason::ImportNeedsId)),
        (Mode::Readwrite, false) | (Mode::Import, true) => Ok(()),
    }
}

/// Tests that the mode permits deletes and changes of levels. The only refusal is `NotPermitted`
/// with `Readonly`.
pub fn may_write(mode: Mode) -> Result<(), Refusal>
    ensures { result ≡ spec.may_write mode }
{
    match mode {
        Mode::Readonly => Err(Refusal::NotPermitted(Reason::Readonly)),
        Mode::Readwrite | Mode::Import => Ok(()),
    }
}

/// Tests that a subject, or with `None` all subjects, may be set to IMPORT: it is forced, or no
/// version in that scope is live. The only refusal is `NotPermitted` with `ScopeIsNotEmpty`.
pub fn may_set_import(
    registry: &Registry,
    subject: Option<&str>,
    force: bool,
) -> Result<(), Refusal>
    ensures { result ≡ spec.may_set_import registry.now (option_map (λ s. s.now) subject.entry) force }
{
    if !force && registry.has_live(subject) {
        return Err(Refusal::NotPermitted(Reason::ScopeIsNotEmpty));
    }
    Ok(())
}
