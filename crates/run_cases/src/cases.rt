// One case: what is put in, and what comes of it; requests as they are sent, and answers as they are written.
use reg_program::run;
use reg_records::Device;
use std::alloc::Global;
use std::io::{BufRead, Write};
use test_tools::{Made, bytes_of, cut, push_bytes};

/// What a run writes on standard output, and behind it on standard error, with its status behind that.
pub(crate) fn outcome_of(alloc: Global, output: &[u8], end: &str) -> Made<Vec<u8>> {
    let mut shown = Vec::from_slice(alloc, output)?;
    shown.extend_from_slice(b"\n-- ends with\n")?;
    shown.extend_from_slice(end.as_bytes())?;
    Ok(shown)
}

/// The words of a command line, parted by spaces.
pub(crate) fn words_of(alloc: Global, line: &str) -> Made<Vec<String>> {
    let mut words = Vec::new(alloc);
    for word in line.split(' ') {
        words.push(String::from_str(alloc, word)?)?;
    }
    Ok(words)
}

/// What a command tells on standard error, with its status behind that.
pub(crate) fn end_of<R: BufRead, W: Write>(
    alloc: Global,
    command: &str,
    reader: &mut Device<R>,
    writer: &mut Device<W>,
) -> Made<String> {
    let line = format!(in alloc; "registryd {command}")?;
    let words = words_of(alloc, line.as_str())?;
    let mut errors = Device::new(Vec::new(alloc));
    let mut serve = |_port: u64, _nodes: u64, _workers: u64| 9u8;
    let status = run(alloc, &words, reader, writer, &mut errors, &mut serve);
    let mut end = String::from_utf8_lossy(alloc, errors.into_inner().as_slice())?;
    write!(end, "{status}")?;
    Ok(end)
}

/// What comes of a command over that input.
pub(crate) fn came_of<R: BufRead + Drop>(alloc: Global, command: &str, input: R) -> Made<Vec<u8>> {
    let mut reader = Device::new(input);
    let mut writer = Device::new(Vec::new(alloc));
    let end = end_of(alloc, command, &mut reader, &mut writer)?;
    outcome_of(alloc, writer.into_inner().as_slice(), end.as_str())
}

/// The bytes of a text; `-` is for none.
pub(crate) fn bytes_told(alloc: Global, text: &str) -> Made<Vec<u8>> {
    bytes_of(alloc, if text == "-" { "" } else { text })
}

static PHRASES: [(&str, &str); 11] = [
    ("200", "OK"),
    ("400", "Bad Request"),
    ("404", "Not Found"),
    ("405", "Method Not Allowed"),
    ("409", "Conflict"),
    ("411", "Length Required"),
    ("413", "Payload Too Large"),
    ("415", "Unsupported Media Type"),
    ("422", "Unprocessable Entity"),
    ("431", "Request Header Fields Too Large"),
    ("500", "Internal Server Error"),
];

/// The status that a code begins with, and its phrase.
fn status_of(code: &str) -> (&'static str, &'static str) {
    for (status, phrase) in &PHRASES {
        if code.starts_with(*status) {
            return (*status, *phrase);
        }
    }
    ("", "")
}

/// The body of the answer of a code.
fn body_of(alloc: Global, code: &str, rest: &str) -> Made<String> {
    let (_status, phrase) = status_of(code);
    match (code, rest) {
        ("200", body) => String::from_str(alloc, body),
        ("405", _) | (_, "") => {
            format!(in alloc; "{{\"error_code\":{code},\"message\":\"{phrase}\"}}")
        }
        (_, message) => format!(in alloc; "{{\"error_code\":{code},\"message\":\"{message}\"}}"),
    }
}

/// Adds the response that an answer is.
pub(crate) fn push_response(out: &mut String, alloc: Global, answer: &str) -> Made<()> {
    let (asked, told) = match answer.strip_prefix("close ") {
        Some(told) => (true, told),
        None => (false, answer),
    };
    let (code, rest) = cut(told);
    let (status, phrase) = status_of(code);
    let body = body_of(alloc, code, rest)?;
    let kind = "application/vnd.schemaregistry.v1+json";
    let length = body.len();
    write!(
        out,
        "HTTP/1.1 {status} {phrase}\r\nContent-Type: {kind}\r\nContent-Length: {length}\r\n"
    )?;
    if code == "405" {
        write!(out, "Allow: {rest}\r\n")?;
    }
    if asked || (code.len() == 3 && code != "200" && code != "409") {
        out.push_str("Connection: close\r\n")?;
    }
    write!(out, "\r\n{body}")
}

/// Adds a request: its method and target, and its body, if it has one.
pub(crate) fn push_request(out: &mut String, request: &str) -> Made<()> {
    let (method, rest) = cut(request);
    let (target, body) = cut(rest);
    write!(out, "{method} {target} HTTP/1.1\r\nHost: a\r\n")?;
    if !body.is_empty() {
        let length = body.len();
        write!(
            out,
            "Content-Type: application/json\r\nContent-Length: {length}\r\n"
        )?;
    }
    write!(out, "\r\n{body}")
}

/// Adds the response that an answer is, or that it gives byte for byte.
pub(crate) fn push_answer(alloc: Global, out: &mut Vec<u8>, answer: &str) -> Made<()> {
    if answer.starts_with("HTTP") || answer.starts_with("<") {
        return push_bytes(out, answer);
    }
    let mut text = String::new(alloc);
    push_response(&mut text, alloc, answer)?;
    out.extend_from_slice(text.as_bytes())
}

/// All responses, with ` & ` between two; `-` is for none.
pub(crate) fn responses_of(alloc: Global, answers: &str) -> Made<Vec<u8>> {
    let mut out = Vec::new(alloc);
    if answers != "-" {
        for answer in answers.split(" & ") {
            push_answer(alloc, &mut out, answer)?;
        }
    }
    Ok(out)
}
