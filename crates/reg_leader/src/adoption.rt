// Which sets of records a topic can begin with.
ghost use Rattle.std.specs.Prelude.{◌≡◌, ◌⊎◌, ◌<◌, ◌≤◌, [], ◌∷◌, true, false, IfErr, IfOk, OnOk};
ghost use Rattle.reg_rules.specs.reg_fold.Closed.{is_closed};
ghost use Rattle.reg_rules.specs.reg_fold.IdMark.{needs_mark};
ghost use Rattle.reg_rules.specs.reg_set.LastRecords.{last_records};
ghost use Rattle.reg_rules.specs.reg_records.declared.limits.TheConstants.{OFFSET_LIMIT};
ghost use Rattle.reg_leader.specs.Adoption.{HasPlace, IsAdoptRefusal, adopting};
ghost use Rattle.reg_rules.specs.Writings.{id_marked, numbered};
ghost use Rattle.reg_leader.specs.declared.adoption.AdoptError.TheVariants.{NumbersUsedUp, OutOfMemory};

use reg_rules::reg_fold::Registry;
use reg_rules::reg_records::{OFFSET_LIMIT, Record};
use reg_rules::reg_set::RecordSet;
use reg_rules::{Writing, numbered};
use std::alloc::{AllocError, Global};
use std::error::Error;
use std::fmt;

/// Why a topic can't begin with a set of records. The first cause in this order is reported.
#[derive(Clone, Copy, Debug, PartialEq, Eq)]
pub enum AdoptError {
    /// A version's record can't be read. Has the least offset of such a record.
    Opaque(u64),
    /// An id names two schemas, soft-deleted versions included. Has the least such id.
    TwoSchemas(u32),
    /// An id mark is due, and no offset is left for it.
    NumbersUsedUp,
    OutOfMemory,
}

impl fmt::Display for AdoptError {
    ghost use Rattle.std.specs.Prelude.{Some};
    ghost use Rattle.reg_leader.specs.Adoption.{adopt_error_text};

    ghost output = { λ error. Some (adopt_error_text error) };

    fn fmt<W: fmt::Write>(&self, f: &mut fmt::Formatter<W>) -> fmt::Result {
        match self {
            AdoptError::Opaque(_) => write!(f, "Opaque"),
            AdoptError::TwoSchemas(_) => write!(f, "TwoSchemas"),
            AdoptError::NumbersUsedUp => write!(f, "NumbersUsedUp"),
            AdoptError::OutOfMemory => write!(f, "out of memory"),
        }
    }
}

impl Error for AdoptError {}

impl From<AllocError> for AdoptError {
    ghost use Rattle.std.specs.Prelude.{◌≡◌};
    ghost use Rattle.reg_leader.specs.declared.adoption.AdoptError.TheVariants.{OutOfMemory};

    ghost from_gives = { λ _ error. error ≡ OutOfMemory };

    fn from(_refused: AllocError) -> AdoptError {
        AdoptError::OutOfMemory
    }
}

/// What a topic begins with.
#[derive(Debug, Drop)]
pub struct Adopted {
    /// The registry over the set.
    pub registry: Registry,
    /// The records to add to the set: an id mark (the highest id ever given) at the next offset if
    /// an entry's id is above the set's mark, else none.
    pub due: Vec<Record>,
}

/// Makes the registry over a set, and the records that a topic over it has to add first. Refused if
/// the set takes no commands ([`AdoptError`]), if no offset is left for a due id mark, or if memory
/// is refused.
pub fn adopt(alloc: Global, set: &RecordSet, next: u64) -> Result<Adopted, AdoptError>
    ensures adopted { IfOk result (λ adopted. adopted.registry ≡ last_records set.now) }
    ensures due { IfOk result (λ adopted. adopted.due.items ≡ adopting (last_records set.now) next) }
    ensures place { OnOk result (HasPlace (last_records set.now) next) }
    ensures takes_commands { OnOk result (is_closed (last_records set.now) ≡ false) }
    ensures refused { IfErr result (IsAdoptRefusal (last_records set.now) next) }
{
    let registry = Registry::of_set(alloc, set)?;
    if let Some(offset) = registry.opaque() {
        return Err(AdoptError::Opaque(offset));
    }
    if let Some(id) = registry.two_schemas() {
        return Err(AdoptError::TwoSchemas(id));
    }
    let due = due_mark(alloc, &registry, next)?;
    Ok(Adopted { registry, due })
}

/// Makes an id mark of the greatest id if that is above the registry's mark.
fn due_mark(alloc: Global, registry: &Registry, next: u64) -> Result<Vec<Record>, AdoptError>
    ensures due { IfOk result (λ due. due.items ≡ adopting registry.now next) }
    ensures place { OnOk result (HasPlace registry.now next) }
    ensures refused { IfErr result (λ why. (why ≡ OutOfMemory) ⊎ ((why ≡ NumbersUsedUp) × (needs_mark registry.now ≡ true) × (OFFSET_LIMIT < next))) }
{
    let greatest = registry.greatest_id().unwrap_or(0);
    if greatest <= registry.mark() {
        return Ok(Vec::new(alloc));
    }
    if next > OFFSET_LIMIT {
        return Err(AdoptError::NumbersUsedUp);
    }
    Ok(marked_at(alloc, next, greatest)?)
}

/// Makes the record that marks the id, at this offset.
fn marked_at(alloc: Global, next: u64, id: u32) -> Result<Vec<Record>, AllocError>
    requires { next ≤ OFFSET_LIMIT }
    ensures { IfOk result (λ due. due.items ≡ numbered next (id_marked id ∷ [])) }
{
    let writings = vec![in alloc; Writing::id_marked(id)]?;
    numbered(alloc, next, writings)
}
