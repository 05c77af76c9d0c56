// Replies, answers and refusals in words.
use reg_fold::Refusal;
use reg_leader::{AdoptError, Reply};
use reg_lookup::Answer;
use std::alloc::{AllocError, Global};
use test_tools::Made;

/// A refusal's code and its message.
pub fn refusal_text(alloc: Global, refusal: &Refusal) -> Made<String> {
    let code = refusal.code();
    let message = refusal.message();
    format!(in alloc; "{code} {message}")
}

fn versions_text(alloc: Global, versions: &[u32]) -> Made<String> {
    let mut text = String::from_str(alloc, "versions")?;
    for version in versions {
        write!(text, " {version}")?;
    }
    Ok(text)
}

/// What is replied.
pub fn reply_text(alloc: Global, reply: &Reply) -> Made<String> {
    match reply {
        Reply::Id(id) => format!(in alloc; "id {id}"),
        Reply::Version(version) => format!(in alloc; "version {version}"),
        Reply::Versions(versions) => versions_text(alloc, versions.as_slice()),
        Reply::Level(level) => format!(in alloc; "level {level}"),
        Reply::LevelRemoved(level) => format!(in alloc; "removed level {level}"),
        Reply::Mode(mode) => format!(in alloc; "mode {mode}"),
        Reply::ModeRemoved(mode) => format!(in alloc; "removed mode {mode}"),
        Reply::Nothing => String::from_str(alloc, "nothing"),
        Reply::Refused(refusal) => refusal_text(alloc, refusal),
        Reply::Unsettled(offset) => format!(in alloc; "unsettled {offset}"),
    }
}

/// The status and the body of an answer.
pub fn answer_text(alloc: Global, answer: &Answer) -> Made<String> {
    let status = answer.status;
    let body = answer.body.as_str();
    format!(in alloc; "{status} {body}")
}

/// Why records aren't adopted.
pub fn adoption_error_text(alloc: Global, error: AdoptError) -> Made<String> {
    match error {
        AdoptError::Opaque(offset) => format!(in alloc; "opaque {offset}"),
        AdoptError::TwoSchemas(id) => format!(in alloc; "two schemas {id}"),
        AdoptError::NumbersUsedUp => String::from_str(alloc, "numbers used up"),
        AdoptError::OutOfMemory => Err(AllocError),
    }
}
