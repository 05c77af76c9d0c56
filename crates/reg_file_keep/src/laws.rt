// What a pen and its file say together. The laws cost nothing at run time.
ghost use Rattle.std.specs.Prelude.{◌≡◌, ◌++◌, List, [], ℕ, Ok, Option, Result, false};
ghost use Rattle.std.specs.Borrow.{Bor};
ghost use Rattle.reg_journal.specs.Disk.{Only};
ghost use Rattle.reg_journal.specs.Lines.{Said, batch_reads, said, with_batch};
ghost use Rattle.reg_compaction.specs.Said.{SaysCompaction};
ghost use Rattle.reg_leader.specs.declared.command.Command.{Command};
ghost use Rattle.reg_leader.specs.declared.reply.Reply.{Reply};
ghost use Rattle.reg_pen.specs.Opening.{KeepsDue};
ghost use Rattle.reg_pen.specs.Pen.{PenState, Submits};
ghost use Rattle.reg_records.specs.Log.{IsLogOf, records_in};
ghost use Rattle.reg_records.specs.declared.log.Log.{Log};
ghost use Rattle.reg_records.specs.declared.log.LogFault.{LogFault};
ghost use Rattle.reg_records.specs.declared.record.Record.{Record};
ghost use Rattle.reg_topic.specs.Topic.{owed_by};
ghost use Rattle.reg_topic.specs.declared.published.Item.{Item};
ghost use Rattle.reg_topic.specs.declared.topic.Topic.{Topic};
ghost use Rattle.reg_file_keep.specs.KeepState.{KeepState};
ghost use Rattle.reg_file_keep.specs.Keeping.{KeepsFile};
ghost use Rattle.reg_file_keep.specs.LogKeep.{KeepsLog, as_file};
ghost use Rattle.reg_file_keep.specs.Marked.{IsLogSaid, MarkCovers, marked};
ghost use Rattle.reg_file_keep.specs.Published.{SaysPublished};
ghost use Rattle.reg_file_keep.specs.Starting.{StandsAt};

use crate::log_keep::LogKeep;
use reg_compaction::{compactions_stand_for_logs, greatest_named_is_greatest};
use reg_journal::{Renewable, batches_add_records};
use reg_leader::reg_set::{last_is_greatest, last_records_are_enough, records_are_ordered};
use reg_leader::reg_values::written_values_read_back;

/// States that when a pen is opened over a log and the keep at its end, as
/// [`crate::start_file_keep`] returns them, the file says a compaction of that log with the id mark
/// that the log owes, if any. So does what any crash leaves. These records are those that the pen's
/// topic begins with.
pub fn opens_keep_the_file<D: Renewable>()
    ensures file { D.is_modelled → (whole : Said) (base : Log) (old new : KeepState D)
        → old.journal.is_broken ≡ false
        → SaysCompaction (Ok whole) (said (D.seen old.journal.disk))
        → Only (D.seen old.journal.disk) (D.may_leave old.journal.disk)
        → KeepsDue (KeepsFile D.is_modelled D.moment D.left_since D.may_leave D.seen D.faults D.renewals D.named) old (owed_by base.records.items base.next) new
        → SaysPublished D.seen D.may_leave (with_batch (owed_by base.records.items base.next) (Ok whole))
        (record { published = []; pending = []; lost = false; keep = new }) }
    ensures start { D.is_modelled → (base : Log) (old new : KeepState D) → StandsAt D.is_modelled D.may_leave D.seen old base
        → KeepsDue (KeepsFile D.is_modelled D.moment D.left_since D.may_leave D.seen D.faults D.renewals D.named) old (owed_by base.records.items base.next) new
        → (whole : Said) × IsLogOf whole.floor whole.reads base
        × SaysPublished D.seen D.may_leave (with_batch (owed_by base.records.items base.next) (Ok whole))
        (record { published = []; pending = []; lost = false; keep = new }) }
    ensures base { (whole : Said) (base : Log) → IsLogOf whole.floor whole.reads base
        → records_in (whole.reads ++ batch_reads (owed_by base.records.items base.next))
        ≡ base.records.items ++ owed_by base.records.items base.next }
{
    compactions_stand_for_logs();
    batches_add_records();
}

/// States that if a file says what its pen has published and what is pending, up to a compaction,
/// it still does after each submit, and so does what any crash leaves from then on. If a batch is
/// lost, any crash leaves a file that says what is published, without that batch or with all of it.
pub fn submits_keep_the_file<D: Renewable>()
    ensures { D.is_modelled → (first : Result Said (ℕ × LogFault)) (base : Topic) (since : Option (Bor (List Item)))
        (old new : PenState (KeepState D)) (command : Command) (reply : Reply)
        → Submits (KeepsFile D.is_modelled D.moment D.left_since D.may_leave D.seen D.faults D.renewals D.named) base since old command reply new
        → SaysPublished D.seen D.may_leave first old → SaysPublished D.seen D.may_leave first new }
{
    compactions_stand_for_logs();
}

/// States that over a log whose keep is open, opening a pen and each submit do what they do over
/// the keep of its file, and the keep stays open.
pub fn open_logs_keep_as_files<D: Renewable>()
    ensures opens { (old : KeepState D) (due : List Record) (new : LogKeep D)
        → KeepsDue (KeepsLog (KeepsFile D.is_modelled D.moment D.left_since D.may_leave D.seen D.faults D.renewals D.named)) (LogKeep.Open old) due new
        → (keep : KeepState D) × (new ≡ LogKeep.Open keep)
        × KeepsDue (KeepsFile D.is_modelled D.moment D.left_since D.may_leave D.seen D.faults D.renewals D.named) old due keep }
    ensures submits { (base : Topic) (since : Option (Bor (List Item))) (old new : PenState (LogKeep D)) (command : Command) (reply : Reply)
        (before : KeepState D) → old.keep ≡ LogKeep.Open before
        → Submits (KeepsLog (KeepsFile D.is_modelled D.moment D.left_since D.may_leave D.seen D.faults D.renewals D.named)) base since old command reply new
        → (after : KeepState D) × (new.keep ≡ LogKeep.Open after)
        × Submits (KeepsFile D.is_modelled D.moment D.left_since D.may_leave D.seen D.faults D.renewals D.named) base since (as_file old before) command reply (as_file new after) }
{}

/// States that a closed keep stays closed, and that its pen publishes nothing but what was pending:
/// a command that writes is refused.
pub fn closed_logs_take_no_command<D: Renewable>()
    ensures { (base : Topic) (since : Option (Bor (List Item))) (old new : PenState (LogKeep D)) (command : Command) (reply : Reply)
        → old.keep ≡ LogKeep.Closed
        → Submits (KeepsLog (KeepsFile D.is_modelled D.moment D.left_since D.may_leave D.seen D.faults D.renewals D.named)) base since old command reply new
        → new.keep ≡ LogKeep.Closed }
{}

/// States that over a log without a mark that gets the one which it lacks, no id that a record of it
/// names is given to a new schema.
pub fn marks_cover_ids()
    ensures { (outcome : Result Said (ℕ × LogFault)) (log : Log) → IsLogSaid (marked outcome) log → MarkCovers outcome log }
{
    batches_add_records();
    greatest_named_is_greatest();
    last_is_greatest();
    last_records_are_enough();
    records_are_ordered();
    written_values_read_back();
}
