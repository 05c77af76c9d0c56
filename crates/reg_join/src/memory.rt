// Whether memory was refused.
ghost use Rattle.std.specs.Prelude.{◌≡◌};
ghost use Rattle.reg_join.specs.Memory.{is_memory_refusal, is_no_memory};

use reg_fold::{Refusal, StoreFault};
use reg_leader::Reply;

/// Returns whether the reply says that memory was refused.
pub(crate) fn is_no_memory(reply: &Reply) -> bool
    ensures { result ≡ is_no_memory reply.now }
{
    match reply {
        Reply::Refused(refusal) => is_memory_refusal(refusal),
        _ => false,
    }
}

fn is_memory_refusal(refusal: &Refusal) -> bool
    ensures { result ≡ is_memory_refusal refusal.now }
{
    match refusal {
        Refusal::Store(StoreFault::Memory) => true,
        _ => false,
    }
}
