// Messages as a reader gives them.
ghost use Rattle.std.specs.Prelude.{List, Option, ℕ};
ghost use Rattle.std.specs.Io.KnownBytes.{IsAtEnd};
ghost use Rattle.reg_adapter.specs.Messages.{HasRead};
ghost use Rattle.reg_adapter.specs.declared.told.AdapterMessage.{AdapterMessage};
ghost use Rattle.reg_adapter_line.specs.Reading.{EndsAs, TakesPiece};

use crate::end::LineEnd;
use crate::line::{AGAIN, AdapterLine};
use crate::overhearing::{Overhear, heard_in};
use reg_adapter::{MessageError, Messages};
use std::alloc::Global;
use std::io::{BufRead, ErrorKind};
use std::sync::Wait;
use std::thread;
use std::time::{Clock, Duration};

/// The result of one read.
#[derive(Clone, Copy, Debug, PartialEq, Eq)]
enum Piece {
    /// Bytes, which were taken.
    Bytes,
    /// The read was interrupted.
    Nothing,
    /// Memory was refused, and nothing was taken.
    OutOfMemory,
    /// Nothing more comes.
    End(LineEnd),
}

/// Reads messages to the end of the input, and passes each to `overhear` and then to the line. It
/// waits only for the input, and while 4,096 batches are due and nobody waits for an answer. If
/// memory is refused for a message, it tries again after 20 ms; none is lost. Returns once the line
/// is over, at the latest after one more read.
pub fn read_messages<B: BufRead, R: Wait + Clock, H: Overhear>(
    rt: &R,
    alloc: Global,
    reader: &mut B,
    line: &AdapterLine,
    overhear: &H,
) {
    let mut messages = Messages::new(alloc);
    for _ in rt.forever() {
        if line.is_over() {
            break;
        }
        match take_piece(reader, &mut messages) {
            Piece::Bytes => {
                let before = line.stalls.pause(rt);
                let has_told = tell_all(rt, &mut messages, line, overhear);
                if messages.end().is_err() {
                    line.stalls.go_on(rt, before, !has_told);
                }
            }
            Piece::Nothing => {}
            Piece::OutOfMemory => thread::sleep(rt, Duration::from_millis(AGAIN)),
            Piece::End(end) => line.end_with(rt, end),
        }
    }
}

/// Takes all that one read gives.
fn take_piece<B: BufRead>(reader: &mut B, messages: &mut Messages) -> Piece
    ensures { (text : List ℕ) (told : List AdapterMessage) → HasRead text told messages.old
        → TakesPiece (B.remaining reader.old) (B.remaining reader.new) text told messages.old messages.new result }
{
    let available = match reader.fill_buf() {
        Ok(available) => available,
        Err(error) => {
            let kind = error.kind();
            if kind == ErrorKind::Interrupted {
                return Piece::Nothing;
            }
            return Piece::End(LineEnd::ReadFault(kind));
        }
    };
    let len = available.len();
    if len == 0 {
        return Piece::End(end_of(messages));
    }
    if messages.take(available).is_err() {
        return Piece::OutOfMemory;
    }
    reader.consume(len);
    Piece::Bytes
}

/// Returns how the input ended.
fn end_of(messages: &Messages) -> LineEnd
    ensures { (left : Option (List ℕ)) → IsAtEnd left → EndsAs left messages.now result }
{
    match messages.end() {
        Ok(()) => LineEnd::Input,
        Err(error) => LineEnd::Fault(error),
    }
}

/// Passes each message that is whole to `overhear` and then to the line. Returns whether there was
/// one.
pub fn tell_all<R: Wait + Clock, H: Overhear>(
    rt: &R,
    messages: &mut Messages,
    line: &AdapterLine,
    overhear: &H,
) -> bool {
    let mut has_told = false;
    for _ in rt.forever() {
        if line.is_over() {
            break;
        }
        match messages.next() {
            Ok(Some(told)) => {
                overhear.heard(heard_in(&told));
                line.tell(rt, told);
                has_told = true;
            }
            Ok(None) => break,
            Err(MessageError::OutOfMemory) => thread::sleep(rt, Duration::from_millis(AGAIN)),
            Err(error) => line.end_with(rt, LineEnd::Fault(error)),
        }
    }
    has_told
}
