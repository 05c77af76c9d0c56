// The pieces of a response, which are written without memory.
ghost use Rattle.std.specs.Char.{digit_char};
ghost use Rattle.std.specs.Prelude.{◌≡◌, ◌≤◌, ◌<◌, ◌^◌, ◌∷◌, ◌++◌, OnErr, length, take, decimal};
ghost use Rattle.json.specs.Print.{escape, escape_byte, escape_letter, quoted};
ghost use Rattle.reg_leader.specs.reg_records.Device.{interruptions_of};
ghost use Rattle.reg_responses.specs.Pieces.{piece_text, pieces_text, listed, listed_more};
ghost use Rattle.reg_responses.specs.Writing.{IsLostBy, Writes};

use crate::writing::{WriteFault, write_bytes};
use itoa::Buffer;
use reg_leader::reg_records::{Device, Output};

/// A piece of a response.
#[derive(Clone, Copy)]
pub(crate) enum Piece<'p> {
    Text(&'p str),
    Number(u128),
    /// A text as a JSON string (RFC 8259, section 7).
    Quoted(&'p str),
    /// Numbers, separated by commas.
    Listed(&'p [u32]),
}

/// Writes the pieces, one after the other.
pub(crate) fn write_pieces<W: Output>(
    writer: &mut Device<W>,
    pieces: &[Piece<'_>],
) -> Result<(), WriteFault>
    requires { interruptions_of writer.old ≡ 0 }
    ensures written { Writes W.contents writer.old writer.new (pieces_text pieces.now) result }
    ensures cause { OnErr result (IsLostBy W.writes W.flushes writer.new) }
{
    for piece in pieces {
        write_piece(writer, piece)?;
    }
    Ok(())
}

fn write_piece<W: Output>(writer: &mut Device<W>, piece: &Piece<'_>) -> Result<(), WriteFault>
    requires { interruptions_of writer.old ≡ 0 }
    ensures written { Writes W.contents writer.old writer.new (piece_text piece.now) result }
    ensures cause { OnErr result (IsLostBy W.writes W.flushes writer.new) }
{
    match piece {
        Piece::Text(text) => write_bytes(writer, text.as_bytes()),
        Piece::Number(number) => write_number(writer, *number),
        Piece::Quoted(text) => write_quoted(writer, text.as_bytes()),
        Piece::Listed(numbers) => write_listed(writer, numbers),
    }
}

fn write_number<W: Output>(writer: &mut Device<W>, number: u128) -> Result<(), WriteFault>
    requires { interruptions_of writer.old ≡ 0 }
    ensures written { Writes W.contents writer.old writer.new (decimal number) result }
    ensures cause { OnErr result (IsLostBy W.writes W.flushes writer.new) }
{
    let mut buffer = Buffer::new();
    write_bytes(writer, buffer.format(number).as_bytes())
}

fn write_quoted<W: Output>(writer: &mut Device<W>, bytes: &[u8]) -> Result<(), WriteFault>
    requires { interruptions_of writer.old ≡ 0 }
    ensures written { Writes W.contents writer.old writer.new (quoted bytes.now) result }
    ensures cause { OnErr result (IsLostBy W.writes W.flushes writer.new) }
{
    write_bytes(writer, b"\"")?;
    write_escaped(writer, bytes)?;
    write_bytes(writer, b"\"")
}

fn write_escaped<W: Output>(writer: &mut Device<W>, bytes: &[u8]) -> Result<(), WriteFault>
    requires { interruptions_of writer.old ≡ 0 }
    ensures written { Writes W.contents writer.old writer.new (escape bytes.now) result }
    ensures cause { OnErr result (IsLostBy W.writes W.flushes writer.new) }
{
    for b in bytes {
        write_escaped_byte(writer, *b)?;
    }
    Ok(())
}

fn write_escaped_byte<W: Output>(writer: &mut Device<W>, b: u8) -> Result<(), WriteFault>
    requires { interruptions_of writer.old ≡ 0 }
    ensures written { Writes W.contents writer.old writer.new (escape_byte b) result }
    ensures cause { OnErr result (IsLostBy W.writes W.flushes writer.new) }
{
    let (escape, len) = escape_of(b);
    write_bytes(writer, &escape[..len])
}

/// Returns how a byte is written in a JSON string (RFC 8259, section 7), and how many bytes that
/// takes, 6 at most.
#[tactic(auto, unfolding(json::specs::Print::escape_byte))]
fn escape_of(b: u8) -> ([u8; 6], usize)
    ensures value { take result.1 result.0 ≡ escape_byte b }
    ensures bound { result.1 ≤ 6 }
    ensures len { result.1 ≡ length (escape_byte b) }
{
    let letter = escape_letter(b);
    if letter > 0 {
        return ([b'\\', letter, 0, 0, 0, 0], 2);
    }
    if b < 0x20 {
        return (
            [
                b'\\',
                b'u',
                b'0',
                b'0',
                hex_digit(b / 16),
                hex_digit(b % 16),
            ],
            6,
        );
    }
    ([b, 0, 0, 0, 0, 0], 1)
}

fn escape_letter(b: u8) -> u8
    ensures { result ≡ escape_letter b }
{
    match b {
        b'"' | b'\\' => b,
        8 => b'b',
        12 => b'f',
        b'\n' => b'n',
        b'\r' => b'r',
        b'\t' => b't',
        _ => 0,
    }
}

fn hex_digit(digit: u8) -> u8
    requires { digit < 16 }
    ensures { result ≡ digit_char digit }
{
    if digit < 10 {
        b'0' + digit
    } else {
        b'a' - 10 + digit
    }
}

fn write_listed<W: Output>(writer: &mut Device<W>, numbers: &[u32]) -> Result<(), WriteFault>
    requires { interruptions_of writer.old ≡ 0 }
    ensures written { Writes W.contents writer.old writer.new (listed numbers.now) result }
    ensures cause { OnErr result (IsLostBy W.writes W.flushes writer.new) }
{
    match numbers {
        [] => Ok(()),
        [first, rest @ ..] => write_first(writer, *first, rest),
    }
}

fn write_first<W: Output>(
    writer: &mut Device<W>,
    first: u32,
    rest: &[u32],
) -> Result<(), WriteFault>
    requires { interruptions_of writer.old ≡ 0 }
    ensures written { Writes W.contents writer.old writer.new (decimal first ++ listed_more rest.now) result }
    ensures cause { OnErr result (IsLostBy W.writes W.flushes writer.new) }
{
    write_number(writer, u128::from(first))?;
    write_more(writer, rest)
}

fn write_more<W: Output>(writer: &mut Device<W>, numbers: &[u32]) -> Result<(), WriteFault>
    requires { interruptions_of writer.old ≡ 0 }
    ensures written { Writes W.contents writer.old writer.new (listed_more numbers.now) result }
    ensures cause { OnErr result (IsLostBy W.writes W.flushes writer.new) }
{
    for number in numbers {
        write_after_comma(writer, *number)?;
    }
    Ok(())
}

fn write_after_comma<W: Output>(writer: &mut Device<W>, number: u32) -> Result<(), WriteFault>
    requires { interruptions_of writer.old ≡ 0 }
    ensures written { Writes W.contents writer.old writer.new (44 ∷ decimal number) result }
    ensures cause { OnErr result (IsLostBy W.writes W.flushes writer.new) }
{
    write_bytes(writer, b",")?;
    write_number(writer, u128::from(number))
}

/// Returns how many bytes the pieces have.
pub(crate) fn pieces_len(pieces: &[Piece<'_>]) -> u128
    requires few { length pieces.now ≤ 8 }
    ensures { result ≡ length (pieces_text pieces.now) }
{
    let mut len = 0;
    for piece in pieces {
        len += piece_len(piece);
    }
    len
}

fn piece_len(piece: &Piece<'_>) -> u128
    ensures len { result ≡ length (piece_text piece.now) }
    ensures bound { result ≤ 2 ^ 80 }
{
    match piece {
        Piece::Text(text) => text.len() as u128,
        Piece::Number(number) => number_len(*number),
        Piece::Quoted(text) => escaped_len(text) + 2,
        Piece::Listed(numbers) => listed_len(numbers),
    }
}

fn number_len(number: u128) -> u128
    ensures len { result ≡ length (decimal number) }
    ensures bound { result ≤ 40 }
{
    let mut buffer = Buffer::new();
    buffer.format(number).len() as u128
}

fn escaped_len(text: &str) -> u128
    ensures len { result ≡ length (escape text.now) }
    ensures bound { result ≤ 2 ^ 72 }
{
    let mut len = 0;
    for b in text.as_bytes() {
        len += escape_of(*b).1 as u128;
    }
    len
}

fn listed_len(numbers: &[u32]) -> u128
    ensures len { result ≡ length (listed numbers.now) }
    ensures bound { result ≤ 2 ^ 80 }
{
    match numbers {
        [] => 0,
        [first, rest @ ..] => number_len(u128::from(*first)) + more_len(rest),
    }
}

fn more_len(numbers: &[u32]) -> u128
    ensures len { result ≡ length (listed_more numbers.now) }
    ensures bound { result ≤ 2 ^ 72 }
{
    let mut len = 0;
    for number in numbers {
        len += 1 + number_len(u128::from(*number));
    }
    len
}
