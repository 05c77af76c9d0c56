// The keep of a served log.
ghost use Rattle.std.specs.Prelude.{◌≡◌};
ghost use Rattle.reg_file_keep.specs.Keeping.{KeepsFile};
ghost use Rattle.reg_file_keep.specs.LogKeep.{KeepsLog, closed_answer};
ghost use Rattle.reg_file_keep.specs.Starting.{StandsAt};

use crate::keeping::{FileKeep, is_mark};
use reg_journal::Renewable;
use reg_pen::{Keep, Kept, Lack};
use reg_records::Record;

/// The keep of a served log.
#[derive(Drop)]
pub enum LogKeep<D: Renewable + Drop> {
    /// Batches are kept in the log's file.
    Open(FileKeep<D>),
    /// No command is carried out, since there was no room for what the start has to write first.
    /// The id mark that a topic begins with counts as taken without being written: no id is given
    /// out over it.
    Closed,
}

impl<D: Renewable + Drop> Keep for LogKeep<D> {
    ghost use Rattle.reg_file_keep.specs.LogKeep.{StandsAtLog};

    ghost keeps = { KeepsLog (KeepsFile D.is_modelled D.moment D.left_since D.may_leave D.seen D.faults D.renewals D.named) };

    ghost stands = { StandsAtLog (StandsAt D.is_modelled D.may_leave D.seen) };

    fn keep(&mut self, batch: &[Record]) -> Kept {
        match self {
            LogKeep::Open(keep) => keep.keep(batch),
            LogKeep::Closed => closed(batch),
        }
    }
}

/// Returns what becomes of a batch that is lent to a closed keep.
fn closed(batch: &[Record]) -> Kept
    ensures { result ≡ closed_answer batch.now }
{
    if is_mark(batch) {
        Kept::Taken
    } else {
        Kept::Declined(Lack::Numbers)
    }
}
