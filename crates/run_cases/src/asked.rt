// What requests ask, and what their fields tell.
use base_text::{Listed, Text};
use http::Method;
use reg_messages::{asks_to_close, message_limits_are_as_written, told_length};
use reg_requests::{Asked, HeaderField, Paths, Request, Routed, route_request};
use std::alloc::Global;
use test_tools::{CaseError, Made, Said, Tally, bytes_of, cut};

/// The fields of a row, with ` & ` between two; `-` is for none.
fn fields_of(alloc: Global, words: &str) -> Said<Listed<HeaderField>> {
    let mut fields = Vec::new(alloc);
    if words == "-" {
        return Ok(Listed::from(fields));
    }
    for word in words.split(" & ") {
        let (name, value) = word.split_once(": ").ok_or(CaseError::NotUnderstood)?;
        fields.push(HeaderField {
            name: Listed::from(bytes_of(alloc, name)?),
            value: Listed::from(bytes_of(alloc, value)?),
        })?;
    }
    Ok(Listed::from(fields))
}

/// The request that a row puts, a method, a target and a body, where it has one; `(end)` where the input ends in that. Its fields stand
/// before it, or else it has a length.
fn request_of(alloc: Global, put: &str) -> Said<Request> {
    let (fields, words) = put.split_once(" => ").unwrap_or(("Content-Length: 7", put));
    let fields = fields_of(alloc, fields)?;
    let (word, rest) = cut(words);
    let (target, body) = cut(rest);
    let Ok(method) = Method::from_bytes(alloc, word.as_bytes()) else {
        return Err(CaseError::NotUnderstood);
    };
    let body = match body {
        "(end)" => None,
        _ => Some(Listed::from(bytes_of(alloc, body)?)),
    };
    Ok(Request {
        method,
        target: Text::copy_of(alloc, target)?,
        fields,
        body,
    })
}

/// What is asked, as Rust writes it; a text stands there as a string.
fn shown(alloc: Global, asked: &Asked) -> Made<String> {
    let text = format!(in alloc; "{asked:?}")?;
    let begun = text
        .as_str()
        .replace(alloc, "Text { shared: Some(\"", "\"")?;
    begun.as_str().replace(alloc, "\") }", "\"")
}

/// Tries a request by a router that was made before, and alone.
fn try_request(tally: &mut Tally, row: &str, request: &Request, wanted: &str) -> Made<()> {
    let alloc = tally.alloc;
    let paths = Paths::new(alloc)?;
    let asked = shown(alloc, &route_request(alloc, &paths, request)?)?;
    tally.tell(row, wanted, Ok(asked))?;
    let alone = shown(alloc, &request.route(alloc)?)?;
    tally.tell_more(row, wanted, Ok(alone))
}

/// Tries what the request of a row asks.
pub(crate) fn try_ask(tally: &mut Tally, row: &str) -> Made<()> {
    let (put, wanted) = row.rsplit_once(" => ").unwrap_or((row, ""));
    match request_of(tally.alloc, put) {
        Ok(request) => try_request(tally, row, &request, wanted),
        Err(_) => tally.refuse(row),
    }
}

/// The length of the body that fields tell, or why it is refused.
pub(crate) fn length_of(alloc: Global, put: &str) -> Said<String> {
    message_limits_are_as_written();
    match told_length(fields_of(alloc, put)?.as_slice()) {
        Ok(Some(length)) => Ok(format!(in alloc; "{length}")?),
        Ok(None) => Ok(String::from_str(alloc, "none")?),
        Err(refusal) => Ok(format!(in alloc; "refused {}", refusal.code())?),
    }
}

/// Whether fields ask to close the connection.
pub(crate) fn closing_of(alloc: Global, put: &str) -> Said<String> {
    let fields = fields_of(alloc, put)?;
    let closes = asks_to_close(fields.as_slice());
    Ok(String::from_str(alloc, if closes { "closes" } else { "no" })?)
}
