// The laws of merging and compacting. What is proved here costs nothing at run time: a function
// that needs a law calls it.
ghost use Rattle.std.specs.Cmp.{IsTotalOrder};
ghost use Rattle.std.specs.FinSet.{IsAntisymmetric};
ghost use Rattle.reg_set.specs.RecordOrder.{age_cmp, key_cmp, record_cmp};
ghost use Rattle.reg_set.specs.Records.{ListsInOrderAreAll};
ghost use Rattle.reg_set.specs.Join.{LastIsGreatest, NoLastIsNoRecord, LastOfLastRecords, MergingIsCommutative, MergingIsAssociative, MergingIsIdempotent, LastOfUnion, LastOfPart, KeepingLastsUnites, EachKeepsItsLasts, KeepingLastsComposes, DropsKeepLasts, LastRecordsKeepLasts, LastRecordsOfPart, LastRecordsOfInsert, LastRecordsOfUnion};

/// Proves that records, the records of one key, and keys are totally ordered, and that only equal
/// records and equal keys tie.
pub fn records_are_ordered()
    ensures all { IsTotalOrder record_cmp }
    ensures apart { IsAntisymmetric record_cmp }
    ensures of_one_key { IsTotalOrder age_cmp }
    ensures keys { IsTotalOrder key_cmp }
    ensures keys_apart { IsAntisymmetric key_cmp }
{}

/// Proves that the records of a set in order are the only ordered list of that set.
pub fn records_are_listed_in_order()
    ensures { ListsInOrderAreAll }
{}

/// Proves that the last record of a key is the greatest of its records, and that a key without a
/// last record has none.
pub fn last_is_greatest()
    ensures greatest { LastIsGreatest }
    ensures none { NoLastIsNoRecord }
{}

/// Proves that merging sets of records is commutative, associative and idempotent, and that the
/// last record of a key in a merged set is the greater of the two last ones.
pub fn merging_joins_sets()
    ensures commutative { MergingIsCommutative }
    ensures associative { MergingIsAssociative }
    ensures idempotent { MergingIsIdempotent }
    ensures last { LastOfUnion }
{}

/// Proves that a set and each subset that keeps its last records have the same last records.
pub fn last_records_are_enough()
    ensures last_of_last { LastOfLastRecords }
    ensures last { LastOfPart }
    ensures least { LastRecordsKeepLasts }
    ensures last_records { LastRecordsOfPart }
{}

/// Proves that records may be added to a subset that keeps the last records instead of the whole
/// set.
pub fn last_records_of_unions()
    ensures union { KeepingLastsUnites }
    ensures last_records { LastRecordsOfUnion }
    ensures insert { LastRecordsOfInsert }
{}

/// Proves that a set keeps its last records, that a subset of a subset that keeps them keeps them,
/// and that dropping records keeps them exactly if none of the dropped is a last one.
pub fn keeping_lasts_composes()
    ensures itself { EachKeepsItsLasts }
    ensures across { KeepingLastsComposes }
    ensures drops { DropsKeepLasts }
{}
