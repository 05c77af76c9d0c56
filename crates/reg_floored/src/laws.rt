// The laws of merging, compacting and rebasing sets with floors. What is proved here costs nothing at
// run time: a function that needs a law calls it.
ghost use Rattle.reg_floored.specs.Laws.{MergingIsCommutative, MergingIsAssociative, MergingIsIdempotent, EachIsItsOwnCompaction, CompactionsCompose, LastRecordsAreCompaction, CompactedToFloorIsCompaction, LastOfCompaction, StandingOfCompaction, CompactionsUnite, LaterRecordsMayJoin, DropsLeaveCompactions, CompactingDropsWhatMayLeave, KeepingLastsUnites, LastRecordsOfRebased, RebasingKeepsLasts};

use reg_set::{
    last_is_greatest, last_records_are_enough, last_records_of_unions, merging_joins_sets as joins,
    records_are_ordered,
};

/// Proves that merging sets of one floor is commutative, associative and idempotent.
pub fn merging_joins_kept_sets()
    ensures commutative { MergingIsCommutative }
    ensures associative { MergingIsAssociative }
    ensures idempotent { MergingIsIdempotent }
{
    joins();
}

/// Proves that a set is a compaction of itself, and that a compaction of a compaction is one of the
/// whole.
pub fn compactions_compose()
    ensures itself { EachIsItsOwnCompaction }
    ensures across { CompactionsCompose }
{
    last_is_greatest();
}

/// Proves that what compacting leaves is a compaction, at the set's own floor and at each one above
/// it.
pub fn last_records_are_compactions()
    ensures last_records { LastRecordsAreCompaction }
    ensures to_floor { CompactedToFloorIsCompaction }
{
    records_are_ordered();
    last_is_greatest();
    last_records_are_enough();
}

/// Proves that a set and each of its compactions have the same last records, except for tombstones
/// (those without a value).
pub fn compactions_keep_what_stands()
    ensures last { LastOfCompaction }
    ensures standing { StandingOfCompaction }
{
    records_are_ordered();
    last_is_greatest();
}

/// Proves that compactions of one floor with the same records below it may be merged, and that
/// records from the floor on may be added to a compaction.
pub fn compactions_unite()
    ensures union { CompactionsUnite }
    ensures later { LaterRecordsMayJoin }
{
    records_are_ordered();
    last_is_greatest();
    joins();
}

/// Proves that dropping records of a set leaves a compaction exactly if they may be dropped.
pub fn drops_leave_compactions()
    ensures { DropsLeaveCompactions }
{
    records_are_ordered();
    last_is_greatest();
}

/// Proves that the records that compacting to a floor drops may be dropped, and that dropping them
/// leaves what compacting keeps.
pub fn compacting_drops_what_may_leave()
    ensures { CompactingDropsWhatMayLeave }
{
    records_are_ordered();
    last_is_greatest();
    last_records_are_compactions();
}

/// Proves that subsets that keep each last record keep them in a merge and over a rebase, and that
/// only the last records of a rebased set matter.
pub fn rebasing_keeps_lasts()
    ensures union { KeepingLastsUnites }
    ensures rebased { RebasingKeepsLasts }
    ensures lasts { LastRecordsOfRebased }
{
    records_are_ordered();
    last_is_greatest();
    last_records_of_unions();
}
