// Which turn a request takes, and how long a connection may wait.
use reg_connection::{Limits, Waits, turn_kind};
use reg_http::Paths;
use std::alloc::Global;
use test_tools::{CaseError, Said, bytes_of, cut, number_of};

/// The turn that a request takes, by its front.
pub(crate) fn turn_text(alloc: Global, given: &str) -> Said<String> {
    let paths = Paths::new(alloc)?;
    let front = bytes_of(alloc, given)?;
    match turn_kind(&paths, &front) {
        Some(kind) => Ok(format!(in alloc; "{kind:?}")?),
        None => Ok(String::from_str(alloc, "none")?),
    }
}

/// The millisecond that is wanted, if it is the first at which it is late: what is waited for, whether a request has begun, and since
/// when.
pub(crate) fn patience_text(alloc: Global, given: &str, wanted: &str) -> Said<String> {
    let (word, rest) = cut(given);
    let (begun, since) = cut(rest);
    let (since, late) = (number_of(since)?, number_of(wanted)?);
    let waits = match word {
        "Request" => Waits::Request,
        "Client" => Waits::Client,
        "End" => Waits::End,
        _ => return Err(CaseError::NotUnderstood),
    };
    let begun = match begun {
        "begun" => true,
        "idle" => false,
        _ => return Err(CaseError::NotUnderstood),
    };
    let limits = Limits::of_nodes(1);
    let before = waits.is_late(&limits, begun, since, late.saturating_sub(1));
    let then = waits.is_late(&limits, begun, since, late);
    match (before, then) {
        (false, true) => Ok(format!(in alloc; "{late}")?),
        _ => Ok(format!(in alloc; "late then: {then}, a millisecond before: {before}")?),
    }
}
