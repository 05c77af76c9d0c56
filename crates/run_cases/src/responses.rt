// Responses, as they are written.
use base_text::{Listed, Text};
use reg_leader::Reply;
use reg_level_names::Level;
use reg_lookup::Answer;
use reg_modes::Mode;
use reg_records::Device;
use reg_refusals::{Allow, Reason, Refusal, StoreFault};
use reg_responses::{WriteFault, write_answer, write_no_memory, write_refusal, write_reply};
use std::alloc::Global;
use std::io::{ErrorKind, Write};
use test_tools::{
    CaseError, Fault, Made, NO_FAULT, Said, Taking, Tally, bytes_of, cut, halves, number_of,
    push_bytes, small_of, text_in,
};

/// All refusals but those with a message of their own.
const REFUSALS: [Refusal; 43] = [
    Refusal::BadRequest,
    Refusal::NotFound,
    Refusal::MethodNotAllowed(Allow::Get),
    Refusal::MethodNotAllowed(Allow::Post),
    Refusal::MethodNotAllowed(Allow::GetPost),
    Refusal::MethodNotAllowed(Allow::GetPut),
    Refusal::MethodNotAllowed(Allow::GetDelete),
    Refusal::MethodNotAllowed(Allow::PostDelete),
    Refusal::MethodNotAllowed(Allow::GetPutDelete),
    Refusal::LengthRequired,
    Refusal::PayloadTooLarge,
    Refusal::UnsupportedMediaType,
    Refusal::HeadTooLarge,
    Refusal::SubjectNotFound,
    Refusal::VersionNotFound,
    Refusal::SchemaNotFound,
    Refusal::SubjectSoftDeleted,
    Refusal::SubjectNotSoftDeleted,
    Refusal::VersionSoftDeleted,
    Refusal::VersionNotSoftDeleted,
    Refusal::SubjectHasNoLevel,
    Refusal::SubjectHasNoMode,
    Refusal::InvalidSchema,
    Refusal::InvalidVersion,
    Refusal::InvalidLevel,
    Refusal::InvalidMode,
    Refusal::NotPermitted(Reason::Readonly),
    Refusal::NotPermitted(Reason::IdNeedsImport),
    Refusal::NotPermitted(Reason::ImportNeedsId),
    Refusal::NotPermitted(Reason::IdNamesAnotherSchema),
    Refusal::NotPermitted(Reason::VersionIsOccupied),
    Refusal::NotPermitted(Reason::ScopeIsNotEmpty),
    Refusal::NotPermitted(Reason::InvalidId),
    Refusal::NotPermitted(Reason::VersionNeedsImport),
    Refusal::NotPermitted(Reason::IdIsNotAboveMark),
    Refusal::Store(StoreFault::Memory),
    Refusal::Store(StoreFault::OpaqueRecord),
    Refusal::Store(StoreFault::TwoSchemas),
    Refusal::Store(StoreFault::NumbersUsedUp),
    Refusal::Store(StoreFault::Unsettled),
    Refusal::Store(StoreFault::Overtaken),
    Refusal::Store(StoreFault::Declined),
    Refusal::FollowsLog,
];

/// What is told in front, and whether the connection is closed behind it.
fn closing(put: &str) -> (&str, bool) {
    match put.strip_suffix(", closes") {
        Some(front) => (front, true),
        None => (put, false),
    }
}

/// A response of its status and phrase, `|`, the length of its body, and what stands behind that.
fn response_of(alloc: Global, told: &str) -> Made<Vec<u8>> {
    let (status, rest) = told.split_once('|').unwrap_or((told, ""));
    let mut out = bytes_of(alloc, "HTTP/1.1 ")?;
    push_bytes(&mut out, status)?;
    push_bytes(
        &mut out,
        "|Content-Type: application/vnd.schemaregistry.v1+json|Content-Length: ",
    )?;
    push_bytes(&mut out, rest)?;
    Ok(out)
}

/// Tries a refusal: its code, status and reason, its text, its message, which stands in the body of its response, and the response.
pub(crate) fn try_refusal(tally: &mut Tally, row: &str) -> Made<()> {
    let alloc = tally.alloc;
    let (put, told) = halves(row);
    let (code, response) = halves(told);
    let message = match response.split_once("\"message\":\"") {
        Some((_, end)) => end.strip_suffix("\"}").unwrap_or(end),
        None => "",
    };
    let wanted = format!(in alloc; "{code}\n{message}\n{message}\n")?;
    let mut wanted = wanted.into_bytes();
    wanted.extend_from_slice(response_of(alloc, response)?.as_slice())?;
    let (name, closes) = closing(put);
    for refusal in &REFUSALS {
        if format!(in alloc; "{refusal:?}")?.as_str() == name {
            return tally.count(row, &wanted, &refusal_shown(alloc, refusal, closes)?);
        }
    }
    tally.refuse(row)
}

/// What comes of a refusal, likewise.
fn refusal_shown(alloc: Global, refusal: &Refusal, closes: bool) -> Made<Vec<u8>> {
    let (code, status) = (refusal.code(), refusal.status());
    let reason = refusal.reason().unwrap_or("-");
    let message = refusal.message();
    let told = format!(in alloc; "{code} {status} {reason}\n{refusal}\n{message}\n")?;
    let mut writer = Device::new(told.into_bytes());
    match write_refusal(&mut writer, refusal, closes) {
        Ok(()) => Ok(writer.into_inner()),
        Err(WriteFault) => bytes_of(alloc, "a fault"),
    }
}

/// The refusal of a word, or that of an incompatible schema and a message.
fn refusal_of(alloc: Global, name: &str) -> Said<Refusal> {
    if let Some(words) = name.strip_prefix("Incompatible ") {
        return Ok(Refusal::Incompatible(Text::of_string(text_in(alloc, words)?)?));
    }
    match name {
        "SubjectNotFound" => Ok(Refusal::SubjectNotFound),
        "Store(Memory)" => Ok(Refusal::Store(StoreFault::Memory)),
        "MethodNotAllowed(GetPut)" => Ok(Refusal::MethodNotAllowed(Allow::GetPut)),
        _ => Err(CaseError::NotUnderstood),
    }
}

/// The versions of a row, each with a space before it.
fn versions_of(alloc: Global, words: &str) -> Said<Reply> {
    let mut versions = Vec::new(alloc);
    for word in words.split_whitespace() {
        versions.push(small_of(word)?)?;
    }
    Ok(Reply::Versions(Listed::from(versions)))
}

fn reply_of(alloc: Global, kind: &str, rest: &str) -> Said<Reply> {
    let found = match kind {
        "Versions" => return versions_of(alloc, rest),
        "Refused" => return Ok(Reply::Refused(refusal_of(alloc, rest)?)),
        "Id" => return Ok(Reply::Id(small_of(rest)?)),
        "Version" => return Ok(Reply::Version(small_of(rest)?)),
        "Unsettled" => return Ok(Reply::Unsettled(number_of(rest)?)),
        "Level" => Level::parse(rest).map(Reply::Level),
        "LevelRemoved" => Level::parse(rest).map(Reply::LevelRemoved),
        "Mode" => Mode::parse(rest).map(Reply::Mode),
        "ModeRemoved" => Mode::parse(rest).map(Reply::ModeRemoved),
        _ => None,
    };
    found.ok_or(CaseError::NotUnderstood)
}

/// What is responded.
#[derive(Drop)]
enum Response {
    Answer(Answer),
    Reply(Reply),
    Refusal(Refusal),
    NoMemory,
}

/// The response that a row names.
fn response_named(alloc: Global, front: &str) -> Said<Response> {
    let (kind, rest) = cut(front);
    if let Ok(status) = kind.parse::<u16>() {
        let body = Text::copy_of(alloc, rest)?;
        return Ok(Response::Answer(Answer { status, body }));
    }
    match kind {
        "NoMemory" => Ok(Response::NoMemory),
        "Refusal" => Ok(Response::Refusal(refusal_of(alloc, rest)?)),
        _ => Ok(Response::Reply(reply_of(alloc, kind, rest)?)),
    }
}

impl Response {
    fn write<W: Write>(&self, writer: &mut Device<W>, closes: bool) -> Result<(), WriteFault> {
        match self {
            Response::Answer(answer) => write_answer(writer, answer, closes),
            Response::Reply(reply) => write_reply(writer, reply, closes),
            Response::Refusal(refusal) => write_refusal(writer, refusal, closes),
            Response::NoMemory => write_no_memory(writer, closes),
        }
    }

    /// Whether a writer of so much room, which is too little, has the front of the response.
    fn has_a_front(&self, closes: bool, text: &[u8], room: usize) -> bool {
        let mut bytes = [0u8; 512];
        let mut writer = Device::new(&mut bytes[..room.min(512)]);
        let end = self.write(&mut writer, closes);
        let faults = writer.faults();
        (end, faults) == (Err(WriteFault), 1) && bytes.get(..room) == text.get(..room)
    }

    /// Whether all bytes are written, and the result and the faults are those of the row.
    fn is_met(&self, alloc: Global, closes: bool, text: &[u8], row: &FaultRow) -> bool {
        let (interruptions, more, kind, is_ok) = *row;
        let left = text.len().saturating_add(more);
        let fault = Fault {
            left,
            kind,
            times: 1,
        };
        let mut writer = Device::new(Taking::interrupted(alloc, 1, fault, NO_FAULT, interruptions));
        let end = self.write(&mut writer, closes);
        let counted = (writer.faults(), writer.interruptions()) == (u64::from(!is_ok), 0);
        counted && end.is_ok() == is_ok && writer.into_inner().taken.as_slice() == text
    }

    /// What goes otherwise with a writer that is full, is interrupted or fails.
    fn other(&self, alloc: Global, closes: bool, text: &[u8]) -> Made<String> {
        for room in 0..text.len() {
            if !self.has_a_front(closes, text, room) {
                return format!(in alloc; "in a room of {room} bytes");
            }
        }
        for (place, row) in FAULTS.iter().enumerate() {
            if !self.is_met(alloc, closes, text, row) {
                return format!(in alloc; "with fault {place}");
            }
        }
        Ok(String::new(alloc))
    }
}

/// How many interruptions come before each write, how many bytes after the response a fault comes, 0 for its flush, which fault,
/// and whether the response is written well.
type FaultRow = (u64, usize, ErrorKind, bool);

static FAULTS: [FaultRow; 5] = [
    (0, 1, ErrorKind::BrokenPipe, true),
    (3, 1, ErrorKind::BrokenPipe, true),
    (3, 0, ErrorKind::BrokenPipe, false),
    (0, 0, ErrorKind::WouldBlock, false),
    (0, 0, ErrorKind::WriteZero, false),
];

/// Tries the response of a row, and then writers that are full, are interrupted or fail.
pub(crate) fn try_response(tally: &mut Tally, row: &str) -> Made<()> {
    let alloc = tally.alloc;
    let (put, told) = halves(row);
    let (front, closes) = closing(put);
    let Ok(response) = response_named(alloc, front) else {
        return tally.refuse(row);
    };
    let mut writer = Device::new(Vec::new(alloc));
    let end = response.write(&mut writer, closes);
    let (wanted, came) = (response_of(alloc, told)?, writer.into_inner());
    tally.count(row, wanted.as_slice(), came.as_slice())?;
    let other = response.other(alloc, closes, wanted.as_slice())?;
    let other = match end {
        Ok(()) => other.as_str(),
        Err(WriteFault) => "a fault",
    };
    tally.compare(row, b"", other.as_bytes())
}
