// Writing texts and responses whole.
ghost use Rattle.std.specs.Prelude.{◌≡◌, ◌<◌, ◌≤◌, [], ◌++◌, OnErr, IfOk, length, take};
ghost use Rattle.std.specs.Io.KnownBytes.{Keeps};
ghost use Rattle.reg_leader.specs.reg_records.Device.{bytes_in, faults_of, interruptions_of};
ghost use Rattle.reg_responses.specs.Pieces.{pieces_text};
ghost use Rattle.reg_responses.specs.Response.{head_text, phrase_of, response_text, allow_field, closing_field};
ghost use Rattle.reg_responses.specs.Writing.{Ends, HasWritten, IsLostBy, IsLostSince, LosesWriter, Writes};

use crate::limits::INTERRUPTION_LIMIT;
use crate::pieces::{Piece, pieces_len, write_pieces};
use http::StatusCode;
use reg_leader::reg_records::{Device, Output};
use reg_leader::reg_refusals::Allow;
use std::io::{ErrorKind, Write};

/// A lost writer: it failed, took none of some bytes, or was interrupted too often in a row.
#[derive(Clone, Copy, Debug, PartialEq, Eq)]
pub struct WriteFault;

/// Writes a whole response and flushes it. The writer's count of interruptions begins anew.
#[tactic(auto, unfolding(crate::specs::Response::response_text))]
pub(crate) fn write_response<W: Output>(
    writer: &mut Device<W>,
    status: u16,
    allow: Option<Allow>,
    closes: bool,
    body: &[Piece<'_>],
) -> Result<(), WriteFault>
    requires few { length body.now ≤ 8 }
    ensures written { Writes W.contents writer.old writer.new (response_text status allow closes (pieces_text body.now)) result }
    ensures ended { Ends W.writes W.flushes writer.new result }
{
    writer.begin_count();
    write_head(writer, status, allow, closes, pieces_len(body))?;
    write_body(writer, body)
}

/// Writes all the bytes and flushes them. The writer's count of interruptions begins anew. Fails if
/// the writer fails, takes nothing, or is interrupted too often in a row; it then has a prefix of
/// the bytes.
pub fn write_whole<W: Output>(writer: &mut Device<W>, bytes: &[u8]) -> Result<(), WriteFault>
    ensures written { Writes W.contents writer.old writer.new bytes.now result }
    ensures ended { Ends W.writes W.flushes writer.new result }
{
    writer.begin_count();
    write_bytes(writer, bytes)?;
    flush(writer)
}

#[tactic(auto, unfolding(crate::specs::Response::head_text))]
fn write_head<W: Output>(
    writer: &mut Device<W>,
    status: u16,
    allow: Option<Allow>,
    closes: bool,
    len: u128,
) -> Result<(), WriteFault>
    requires { interruptions_of writer.old ≡ 0 }
    ensures written { Writes W.contents writer.old writer.new (head_text status allow closes len) result }
    ensures cause { OnErr result (IsLostBy W.writes W.flushes writer.new) }
{
    let (allow_name, methods, allow_end) = allow_field(allow);
    write_pieces(
        writer,
        &[
            Piece::Text("HTTP/1.1 "),
            Piece::Number(u128::from(status)),
            Piece::Text(" "),
            Piece::Text(phrase_of(status)),
            Piece::Text(
                "\r\nContent-Type: application/vnd.schemaregistry.v1+json\r\nContent-Length: ",
            ),
            Piece::Number(len),
            Piece::Text("\r\n"),
            Piece::Text(allow_name),
            Piece::Text(methods),
            Piece::Text(allow_end),
            Piece::Text(closing_field(closes)),
            Piece::Text("\r\n"),
        ],
    )
}

fn write_body<W: Output>(writer: &mut Device<W>, body: &[Piece<'_>]) -> Result<(), WriteFault>
    requires { interruptions_of writer.old ≡ 0 }
    ensures written { Writes W.contents writer.old writer.new (pieces_text body.now) result }
    ensures ended { Ends W.writes W.flushes writer.new result }
{
    write_pieces(writer, body)?;
    flush(writer)
}

pub(crate) fn write_bytes<W: Output>(writer: &mut Device<W>, bytes: &[u8]) -> Result<(), WriteFault>
    requires { interruptions_of writer.old ≡ 0 }
    ensures written { Writes W.contents writer.old writer.new bytes.now result }
    ensures cause { OnErr result (IsLostBy W.writes W.flushes writer.new) }
{
    let mut at = 0;
    while at < bytes.len() {
        at += write_some(writer, &bytes[at..])?;
    }
    Ok(())
}

/// Writes at least one of the bytes, and returns how many.
fn write_some<W: Output>(writer: &mut Device<W>, bytes: &[u8]) -> Result<usize, WriteFault>
    requires some { 0 < length bytes.now }
    requires interruptions { interruptions_of writer.old ≡ 0 }
    ensures some { IfOk result (λ n. (0 < n) × (n ≤ length bytes.now)) }
    ensures written { IfOk result (λ n. HasWritten W.contents writer.old writer.new (take n bytes.now)) }
    ensures lost { OnErr result (LosesWriter writer.old writer.new
        × Keeps (bytes_in W.contents writer.old) (bytes_in W.contents writer.new) × IsLostSince writer.old writer.new) }
    ensures cause { OnErr result (IsLostBy W.writes W.flushes writer.new) }
{
    for _i in 0..INTERRUPTION_LIMIT {
        match writer.write(bytes) {
            Ok(0) => return Err(WriteFault),
            Ok(n) => return Ok(n),
            Err(e) => {
                if e.kind() != ErrorKind::Interrupted {
                    return Err(WriteFault);
                }
            }
        }
    }
    Err(WriteFault)
}

fn flush<W: Output>(writer: &mut Device<W>) -> Result<(), WriteFault>
    requires { interruptions_of writer.old ≡ 0 }
    ensures written { Writes W.contents writer.old writer.new [] result }
    ensures ended { Ends W.writes W.flushes writer.new result }
{
    for _i in 0..INTERRUPTION_LIMIT {
        match writer.flush() {
            Ok(()) => return Ok(()),
            Err(e) => {
                if e.kind() != ErrorKind::Interrupted {
                    return Err(WriteFault);
                }
            }
        }
    }
    Err(WriteFault)
}

/// Returns the phrase of a status (RFC 9110, section 15); an empty text if no status has that
/// number.
#[tactic(auto, unfolding(crate::specs::Response::phrase_of))]
fn phrase_of(status: u16) -> &'static str
    ensures { result.now ≡ phrase_of status }
{
    match StatusCode::from_u16(status) {
        Ok(code) => code.canonical_reason().unwrap_or(""),
        Err(_) => "",
    }
}

/// Returns the field `Allow` in three parts, which are empty if there is none.
fn allow_field(allow: Option<Allow>) -> (&'static str, &'static str, &'static str)
    ensures { result.0.now ++ (result.1.now ++ result.2.now) ≡ allow_field allow }
{
    match allow {
        None => ("", "", ""),
        Some(allow) => ("Allow: ", allow.as_str(), "\r\n"),
    }
}

fn closing_field(closes: bool) -> &'static str
    ensures { result.now ≡ closing_field closes }
{
    if closes { "Connection: close\r\n" } else { "" }
}
