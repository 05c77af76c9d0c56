// Lines as a reader gives them.
ghost use Rattle.std.specs.Prelude.{◌≡◌, ◌≢◌, List, ℕ, IfErr, IfOk, OnErr};
ghost use Rattle.std.specs.Io.KnownBytes.{Keeps};
ghost use Rattle.std.specs.declared.io.ErrorKind.TheVariants.{Interrupted};
ghost use Rattle.reg_records.specs.declared.record.Read.{Read};
ghost use Rattle.reg_intake.specs.Pieces.{IsGiveFault};
ghost use Rattle.reg_intake.specs.declared.pieces.GiveError.TheVariants as gives;
ghost use Rattle.reg_follow.specs.Following.{EndsAs, EndsShown, Follows, HasLeft, HasTaken, IsFollowRefusal, IsShown, IsStopped, Publishes, TakesPiece};

use crate::course::Course;
use crate::ended::{FollowError, LinesEnd};
use crate::intake::{Intake, Stop};
use reg_feed::{Copies, FeedName};
use reg_intake::{GiveError, IntakeError, Pieces};
use reg_node::{Draw, Taken};
use std::io::ErrorKind;
use std::sync::Wait;

/// Takes the lines that a reader gives, until its end or an empty line, and publishes their records
/// as they come, up to 1,000 at once. `course` shows how many were taken.
///
/// Fails at a faulty line, if the reader fails other than by an interruption, or if memory is
/// refused.
pub fn follow_lines<B: Pieces, M: FeedName<Draw, Taken>, U: Copies<Draw, Taken, M>, R: Wait + Drop>(
    rt: &R,
    reader: &mut B,
    intake: &mut Intake<M, U, R>,
    course: &Course,
) -> Result<LinesEnd, FollowError>
    ensures followed { (text : List ℕ) (read : List Read) → HasTaken text read intake.old → IfOk result (λ end. Follows (B.remaining reader.old) (B.remaining reader.new) text read intake.new
        × EndsAs (B.remaining reader.old) (B.remaining reader.new) intake.new end) }
    ensures shown { (text : List ℕ) (read : List Read) → HasTaken text read intake.old → IsShown intake.old → IfOk result (EndsShown intake.new) }
    ensures refused { (text : List ℕ) (read : List Read) → HasTaken text read intake.old
        → IfErr result (IsFollowRefusal B.fails (B.remaining reader.old) (B.remaining reader.new) reader.new text read intake.new) }
{
    for _read in rt.forever() {
        match take_piece(reader, intake)? {
            Piece::Nothing => continue,
            Piece::End => return Ok(end_of(intake)),
            Piece::Bytes => {}
        }
        if !publish_all(rt, intake, course)? {
            return Ok(LinesEnd::EmptyLine);
        }
    }
    unreachable!()
}

/// The result of one read.
#[derive(Clone, Copy)]
pub(crate) enum Piece {
    /// It gave bytes.
    Bytes,
    /// It was interrupted.
    Nothing,
    /// The input has ended.
    End,
}

/// Takes what one read gives. Fails if the reader does, or if memory is refused.
fn take_piece<B: Pieces, M: FeedName<Draw, Taken>, U: Copies<Draw, Taken, M>, R: Wait + Drop>(
    reader: &mut B,
    intake: &mut Intake<M, U, R>,
) -> Result<Piece, GiveError>
    ensures taken { (text : List ℕ) (read : List Read) → HasTaken text read intake.old → IfOk result (TakesPiece (B.remaining reader.old) (B.remaining reader.new) text read intake.old intake.new) }
    ensures kept { OnErr result (Keeps (B.remaining reader.old) (B.remaining reader.new)) }
    ensures same { OnErr result (intake.new ≡ intake.old) }
    ensures fault { IfErr result (λ e. IsGiveFault B.fails reader.old reader.new e × (e ≢ gives.Read Interrupted)) }
{
    match intake.take_from(reader) {
        Ok(0) => Ok(Piece::End),
        Ok(_len) => Ok(Piece::Bytes),
        Err(error) => {
            if error == GiveError::Read(ErrorKind::Interrupted) {
                return Ok(Piece::Nothing);
            }
            Err(error)
        }
    }
}

/// Publishes the records of all complete lines. Returns `false` if an empty line ends the log.
fn publish_all<M: FeedName<Draw, Taken>, U: Copies<Draw, Taken, M>, R: Wait + Drop>(
    rt: &R,
    intake: &mut Intake<M, U, R>,
    course: &Course,
) -> Result<bool, IntakeError>
    ensures published { (text : List ℕ) (read : List Read) → HasTaken text read intake.old → IfOk result (λ goes_on. Publishes text read goes_on intake.new) }
    ensures refused { (text : List ℕ) (read : List Read) → HasTaken text read intake.old → IfErr result (λ e. IsStopped text read e intake.new) }
{
    for _time in rt.forever() {
        let stop = intake.publish_lines()?;
        course.note(intake.count());
        match stop {
            Stop::Full => {}
            Stop::Waits => return Ok(true),
            Stop::Ended => return Ok(false),
        }
    }
    unreachable!()
}

/// Returns where the lines ended, once the input has ended.
fn end_of<M: FeedName<Draw, Taken>, U: Copies<Draw, Taken, M>, R: Wait + Drop>(
    intake: &Intake<M, U, R>,
) -> LinesEnd
    ensures { HasLeft intake.now.unread.bytes result }
{
    if intake.has_unread() {
        LinesEnd::Unfinished
    } else {
        LinesEnd::Input
    }
}
