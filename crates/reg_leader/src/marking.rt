// The marks of ids that commands write first.
ghost use Rattle.std.specs.Prelude.{◌≡◌, IfOk, option_copied};
ghost use Rattle.reg_leader.specs.Step.{mark_over, marked};

use reg_rules::Writing;
use reg_rules::reg_fold::{Entry, Registry};
use std::alloc::{AllocError, Global};

/// Makes the id mark that is written when an entry is removed or replaced.
pub(crate) fn marked(registry: &Registry) -> Writing
    ensures { result ≡ marked registry.now }
{
    Writing::id_marked(registry.last_id())
}

/// Returns what is written before a version with this id: an id mark if it replaces an entry of
/// another id, else nothing.
pub(crate) fn mark_over(
    alloc: Global,
    registry: &Registry,
    id: u32,
    standing: Option<&Entry>,
) -> Result<Vec<Writing>, AllocError>
    ensures { IfOk result (λ first. first.items ≡ mark_over registry.now id (option_copied standing.entry)) }
{
    match standing {
        Some(entry) if entry.id != id => Ok(vec![in alloc; marked(registry)]?),
        _ => Ok(Vec::new(alloc)),
    }
}
