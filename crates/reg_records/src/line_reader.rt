// The next line from a reader, in few enough reads.
ghost use Rattle.std.specs.Prelude.{◌≡◌, ◌≤◌, IfOk, OnOk, MatchOption, MatchResult, OnSome};
ghost use Rattle.reg_records.specs.Device.{KeepsEnd, all_reads_of, bytes_in, counted_by, faults_of, reads_of, source_of};
ghost use Rattle.reg_records.specs.Pieces.{LeavesLine, TakesLine};

use crate::device::Device;
use crate::limits::LINE_READS;
use crate::pieces::{LineBuffer, Piece};
use std::alloc::{AllocError, Global};
use std::io::{BufRead, ErrorKind};

/// What a reader has next.
#[derive(Drop)]
pub(crate) enum NextLine {
    /// A line with its LF.
    Line(LineBuffer),
    /// Bytes without LF, up to the end.
    Unended,
    End,
}

/// Takes the next line from a reader, whose counts of reads and interruptions restart; `None` if
/// the reader failed or the line took too many reads.
pub(crate) fn take_line<R: BufRead>(
    alloc: Global,
    reader: &mut Device<R>,
) -> Result<Option<NextLine>, AllocError>
    ensures taken { IfOk result (λ taken. MatchOption taken
        (LeavesLine reader.old reader.new (bytes_in R.remaining reader.old) (bytes_in R.remaining reader.new))
        (TakesLine (source_of R.remaining reader.old) (source_of R.remaining reader.new))) }
    ensures faults { MatchResult result (λ taken. OnSome taken (faults_of reader.new ≡ faults_of reader.old))
        (λ _. faults_of reader.new ≡ faults_of reader.old) }
    ensures end { OnOk result (KeepsEnd R.remaining reader.old reader.new) }
    ensures bound { reads_of reader.new ≤ LINE_READS }
    ensures reads { all_reads_of reader.new ≡ counted_by (reads_of reader.new) (all_reads_of reader.old) }
{
    let mut line = LineBuffer::new(alloc);
    reader.begin_count();
    for _i in 0..LINE_READS {
        match reader.take_piece(&mut line)? {
            Piece::Ended(_) => return Ok(Some(NextLine::Line(line))),
            Piece::NoMore => {
                return Ok(Some(if line.is_empty() {
                    NextLine::End
                } else {
                    NextLine::Unended
                }));
            }
            Piece::More(_) => {}
            Piece::Failed(ErrorKind::Interrupted) => {}
            Piece::Failed(_) => return Ok(None),
        }
    }
    Ok(None)
}
