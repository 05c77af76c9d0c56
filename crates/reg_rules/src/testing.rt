// The tests of commands, in the order of their definitions. None takes memory.
ghost use Rattle.std.specs.Prelude.{◌≡◌, option_map};
ghost use Rattle.reg_rules.specs.Finding.{Finds};
ghost use Rattle.reg_rules.specs.Tests as test;

use crate::schemas::has_schema;
use reg_modes::base_text::Text;
use reg_modes::reg_fold::{Reason, Refusal, Registry, StoreFault};
use reg_modes::reg_records::{NUMBER_LIMIT, OFFSET_LIMIT};
use reg_modes::{Mode, may_set_import};

/// Tests that the registry takes commands. Refused with `OpaqueRecord` if a version's record can't
/// be read, else with `TwoSchemas` if an id names two schemas.
pub fn must_be_open(registry: &Registry) -> Result<(), Refusal>
    ensures { result ≡ test.must_be_open registry.now }
{
    if registry.opaque().is_some() {
        return Err(Refusal::Store(StoreFault::OpaqueRecord));
    }
    if registry.two_schemas().is_some() {
        return Err(Refusal::Store(StoreFault::TwoSchemas));
    }
    Ok(())
}

/// Tests that the next offset is within the limit. Refused with `NumbersUsedUp`.
pub fn must_have_offset(next: u64) -> Result<(), Refusal>
    ensures { result ≡ test.must_have_offset next }
{
    if next > OFFSET_LIMIT {
        return Err(Refusal::Store(StoreFault::NumbersUsedUp));
    }
    Ok(())
}

/// Returns a version or an id, which is from 1 to 2,147,483,647. Refused with `NumbersUsedUp` if it
/// isn't.
pub fn must_be_number(number: u64) -> Result<u32, Refusal>
    ensures { Finds (test.must_be_number number) (λ within. within ≡ number) result }
{
    if number < 1 || number > u64::from(NUMBER_LIMIT) {
        return Err(Refusal::Store(StoreFault::NumbersUsedUp));
    }
    Ok(number as u32)
}

/// Tests that the scope may be set to the mode. Refused if the mode is IMPORT, a version in the
/// scope is live and it isn't forced.
pub fn must_allow_mode(
    registry: &Registry,
    scope: &Option<Text>,
    mode: Mode,
    force: bool,
) -> Result<(), Refusal>
    ensures { result ≡ test.must_allow_mode registry.now scope.now mode force }
{
    match mode {
        Mode::Import => may_set_import(registry, subject_of(scope), force),
        Mode::Readwrite | Mode::Readonly => Ok(()),
    }
}

/// Tests that an id names no other schema. Refused with `IdNamesAnotherSchema`.
///
/// Call [`must_be_open`] first, as an import does: then all entries of an id have one schema. In a
/// closed registry an id may name two, and only the schema of the entry that `by_id` gives is
/// looked at.
pub fn must_name_no_other(registry: &Registry, id: u32, normal: &Text) -> Result<(), Refusal>
    ensures { result ≡ test.must_name_no_other registry.now id normal.now }
{
    match registry.by_id(id) {
        Some(entry) if !has_schema(entry, normal.as_str()) => {
            Err(Refusal::NotPermitted(Reason::IdNamesAnotherSchema))
        }
        _ => Ok(()),
    }
}

/// Tests that an id may be given: some version has it, live or soft-deleted, or it is above the id
/// mark (the record of the highest id ever given). Refused with `IdIsNotAboveMark`.
pub fn must_be_above_mark(registry: &Registry, id: u32) -> Result<(), Refusal>
    ensures { result ≡ test.must_be_above_mark registry.now id }
{
    if registry.by_id(id).is_none() && id <= registry.mark() {
        return Err(Refusal::NotPermitted(Reason::IdIsNotAboveMark));
    }
    Ok(())
}

/// Tests that the subject has a version, live or soft-deleted. Refused with `SubjectNotFound`.
pub fn must_stand(registry: &Registry, subject: &Text) -> Result<(), Refusal>
    ensures { result ≡ test.must_stand registry.now subject.now }
{
    if registry.greatest_version(subject.as_str()).is_none() {
        return Err(Refusal::SubjectNotFound);
    }
    Ok(())
}

/// Borrows the subject of a scope; `None` if the scope is all subjects.
pub fn subject_of(scope: &Option<Text>) -> Option<&str>
    ensures { option_map (λ s. s.now) result ≡ scope.now }
{
    match scope {
        Some(subject) => Some(subject.as_str()),
        None => None,
    }
}
