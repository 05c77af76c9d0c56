// Writing a text in pieces.
ghost use Rattle.std.specs.Prelude.{◌≡◌, ◌++◌, if◌then◌else◌, string_bytes};
ghost use Rattle.avro_data.specs.Pieces.{piece_text, pieces_text};
ghost use Rattle.reg_program.specs.Waiting.{Puts};
ghost use Rattle.reg_records.specs.Device.{interruptions_of};
ghost use Rattle.reg_responses.specs.Writing.{Writes};

use avro_data::{Piece, PiecedText};
use itoa::Buffer;
use reg_records::Device;
use reg_responses::{WriteFault, write_whole};
use std::alloc::Global;
use std::io::Write;

/// At most this many bytes wait to be written together.
const MOST_WAITING: usize = 65_536;

/// Writes a text piece by piece, and flushes it. Short pieces are joined first; if memory for that
/// is refused, each is written by itself. Fails if the writer does.
pub(crate) fn write_text<W: Write>(
    alloc: Global,
    writer: &mut Device<W>,
    text: &PiecedText,
) -> Result<(), WriteFault>
    ensures { Writes W.contents writer.old writer.new text.now result }
{
    writer.begin_count();
    let mut waiting = String::new(alloc);
    write_pieces(writer, &mut waiting, text.as_slice())?;
    write_whole(writer, waiting.as_bytes())
}

/// Writes the pieces, one after the other, except those that still wait.
fn write_pieces<W: Write>(
    writer: &mut Device<W>,
    waiting: &mut String,
    pieces: &[Piece],
) -> Result<(), WriteFault>
    requires { interruptions_of writer.old ≡ 0 }
    ensures { Puts W.contents writer.old writer.new (string_bytes waiting.old) (string_bytes waiting.new) (pieces_text pieces.now) result }
{
    for piece in pieces {
        write_piece(writer, waiting, piece)?;
    }
    Ok(())
}

fn write_piece<W: Write>(
    writer: &mut Device<W>,
    waiting: &mut String,
    piece: &Piece,
) -> Result<(), WriteFault>
    requires { interruptions_of writer.old ≡ 0 }
    ensures { Puts W.contents writer.old writer.new (string_bytes waiting.old) (string_bytes waiting.new) (piece_text piece.now) result }
{
    match piece {
        Piece::Fixed(text) => put(writer, waiting, text),
        Piece::Shared(text) => put(writer, waiting, text.as_str()),
        Piece::Number(number) => {
            let mut buffer = Buffer::new();
            put(writer, waiting, buffer.format(*number))
        }
    }
}

/// Lets a text wait after what waits, if there is room; else writes both.
fn put<W: Write>(writer: &mut Device<W>, waiting: &mut String, text: &str) -> Result<(), WriteFault>
    requires { interruptions_of writer.old ≡ 0 }
    ensures { Puts W.contents writer.old writer.new (string_bytes waiting.old) (string_bytes waiting.new) text.now result }
{
    if has_joined(waiting, text) {
        return Ok(());
    }
    write_whole(writer, waiting.as_bytes())?;
    waiting.clear();
    write_whole(writer, text.as_bytes())
}

/// Returns whether there was room for a text after what waits, so that it waits now. If there
/// wasn't, nothing has changed.
fn has_joined(waiting: &mut String, text: &str) -> bool
    ensures { string_bytes waiting.new ≡ (if result then string_bytes waiting.old ++ text.now else string_bytes waiting.old) }
{
    waiting.len().saturating_add(text.len()) <= MOST_WAITING && waiting.push_str(text).is_ok()
}
