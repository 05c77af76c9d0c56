// What the clauses say together.
ghost use Rattle.reg_compaction.specs.Said.{BatchesFollowCompactions, CompactedFilesSayIt, EachSaysItsOwnCompaction, SaidCompactionsCompose};

use reg_floored::{compactions_compose, compactions_unite, last_records_are_compactions};
use reg_journal::batches_add_records;
use reg_set::records_are_ordered;

/// States that a compacted file may stand for the whole one, also with batches from its floor on
/// behind it, and once it is compacted again. Costs nothing at run time.
pub fn compactions_stand_for_logs()
    ensures compacted { CompactedFilesSayIt }
    ensures itself { EachSaysItsOwnCompaction }
    ensures across { SaidCompactionsCompose }
    ensures batches { BatchesFollowCompactions }
{
    batches_add_records();
    records_are_ordered();
    last_records_are_compactions();
    compactions_unite();
    compactions_compose();
}
