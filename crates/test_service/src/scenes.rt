// Scenes: what clients of nodes do, one after the other, and what is to come of it.
//
// A part of a scene is a line, or stands between two `; `. Clients of the first node are in two groups, `a` and `b`, of which so many
// more `come`, each with what it sends; `send` is what each sends then, `hear` what each reads next, and `begin` and `end` those of all
// that each reads to the end. `closed` is so once the other sides are all closed. `ask` is a new client of the first node, and `last`
// one of the last node, with the end of what it is answered, or its begin and its end with ` & ` between both. `open`, `ended` and
// `bytewise` are new clients too, with all that they are answered: they leave their side open, or end it, also after they sent byte
// by byte. `wait` is a time in milliseconds. What else there is, the stage does.
//
// Bytes are written as in data files. Behind `> `, what is sent is a request that closes the connection, given as its method, its
// target and its body, and what is answered is a whole body.
use crate::asking::{connect, request_of, send_bytes};
use crate::trials::Machine;
use std::alloc::{AllocError, Global};
use std::io::{self, ErrorKind, Read, Write};
use std::net::{Shutdown, SocketAddr, TcpStream};
use std::thread;
use std::time::Duration;
use test_tools::{Made, Tally, bytes_of, cut, rows_of};

/// What a scene does beside its clients.
pub(crate) trait Stage {
    /// Whether what a part says could be done, or is so.
    fn change(&self, part: &str) -> bool;
}

/// Does nothing.
#[derive(Drop)]
pub(crate) struct Bare;

impl Stage for Bare {
    fn change(&self, _part: &str) -> bool {
        false
    }
}

pub(crate) fn number_of(text: &str) -> u64 {
    text.parse::<u64>().unwrap_or(0)
}

/// What is sent.
fn sent_by(alloc: Global, text: &str) -> Made<Vec<u8>> {
    match text.strip_prefix("> ") {
        Some(request) => Ok(request_of(alloc, request, "Connection: close\r\n")?.into_bytes()),
        None => bytes_of(alloc, text),
    }
}

/// What is answered, or its end.
fn answered(alloc: Global, text: &str) -> Made<Vec<u8>> {
    match text.strip_prefix("> ") {
        Some(body) => Ok(format!(in alloc; "\r\n\r\n{body}")?.into_bytes()),
        None => bytes_of(alloc, text),
    }
}

/// Whether all that comes has that begin and that end.
fn has_ends(alloc: Global, stream: &mut TcpStream, begin: &[u8], end: &[u8]) -> io::Result<bool> {
    let mut answers = Vec::new(alloc);
    stream.read_to_end(&mut answers)?;
    Ok(answers.as_slice().starts_with(begin) && answers.as_slice().ends_with(end))
}

/// Whether that comes next.
fn hears(alloc: Global, stream: &mut TcpStream, bytes: &[u8]) -> io::Result<bool> {
    let mut answers = Vec::new(alloc);
    answers.resize(bytes.len(), 0u8)?;
    stream.read_exact(&mut answers)?;
    Ok(answers.as_slice() == bytes)
}

/// Whether what one client does comes out.
fn meets(alloc: Global, stream: &mut TcpStream, deed: &str, text: &str) -> io::Result<bool> {
    match deed {
        "send" => {
            stream.write_all(&sent_by(alloc, text)?)?;
            Ok(true)
        }
        "hear" => hears(alloc, stream, &answered(alloc, text)?),
        "begin" => has_ends(alloc, stream, &answered(alloc, text)?, b""),
        "end" => has_ends(alloc, stream, b"", &answered(alloc, text)?),
        _ => Ok(false),
    }
}

/// Whether the other sides are all closed, once what they sent is read.
fn are_closed(alloc: Global, streams: &mut [TcpStream]) -> bool {
    let mut closed = true;
    for stream in streams.iter_mut() {
        let mut answers = Vec::new(alloc);
        if let Err(e) = stream.read_to_end(&mut answers) {
            closed = closed && e.kind() == ErrorKind::ConnectionReset;
        }
    }
    closed
}

/// So many connections more, on each of which that is sent.
fn come<R: Machine>(
    alloc: Global,
    rt: &R,
    address: SocketAddr,
    streams: &mut Vec<TcpStream>,
    rest: &str,
) -> io::Result<bool> {
    let (count, text) = cut(rest);
    let bytes = sent_by(alloc, text)?;
    for _connection in 0..number_of(count) {
        streams.push(send_bytes(rt, address, &bytes)?)?;
    }
    Ok(true)
}

/// Whether what a group does comes out.
fn group<R: Machine>(
    alloc: Global,
    rt: &R,
    address: SocketAddr,
    streams: &mut Vec<TcpStream>,
    part: &str,
) -> io::Result<bool> {
    let (deed, rest) = cut(part);
    match deed {
        "come" => return come(alloc, rt, address, streams, rest),
        "closed" => return Ok(!streams.is_empty() && are_closed(alloc, streams)),
        _ => {}
    }
    let mut is_so = !streams.is_empty();
    for stream in streams.iter_mut() {
        is_so = meets(alloc, stream, deed, rest)? && is_so;
    }
    Ok(is_so)
}

/// Whether a new client that asks that is answered so.
fn ask<R: Machine>(alloc: Global, rt: &R, address: SocketAddr, row: &str) -> io::Result<bool> {
    let (text, told) = row.split_once(" => ").unwrap_or((row, ""));
    let (begin, end) = told.split_once(" & ").unwrap_or(("", told));
    let mut stream = send_bytes(rt, address, &sent_by(alloc, text)?)?;
    let (begin, end) = (answered(alloc, begin)?, answered(alloc, end)?);
    has_ends(alloc, &mut stream, &begin, &end)
}

/// Sends bytes as the word says.
fn send(stream: &TcpStream, sending: &str, bytes: &[u8]) -> io::Result<()> {
    let mut out = stream;
    if sending == "bytewise" {
        stream.set_nodelay(true)?;
        for byte in bytes {
            out.write_all(&[*byte])?;
        }
    } else {
        out.write_all(bytes)?;
    }
    if sending == "open" {
        return Ok(());
    }
    stream.shutdown(Shutdown::Write)
}

/// Whether a new client that sends as the word says is answered so, to the last byte.
fn talk<R: Machine>(
    alloc: Global,
    rt: &R,
    address: SocketAddr,
    sending: &str,
    row: &str,
) -> io::Result<bool> {
    let (text, told) = row.split_once(" => ").unwrap_or((row, ""));
    let mut stream = connect(rt, address)?;
    send(&stream, sending, &bytes_of(alloc, text)?)?;
    let mut response = Vec::new(alloc);
    stream.read_to_end(&mut response)?;
    Ok(response == bytes_of(alloc, told)?)
}

/// Where the nodes are, and the clients that stay.
#[derive(Drop)]
struct Clients {
    first: SocketAddr,
    last: SocketAddr,
    a: Vec<TcpStream>,
    b: Vec<TcpStream>,
}

/// Whether what a part says comes out.
fn play<R: Machine, T: Stage>(
    alloc: Global,
    rt: &R,
    stage: &T,
    clients: &mut Clients,
    part: &str,
) -> io::Result<bool> {
    let (word, rest) = cut(part);
    match word {
        "a" => group(alloc, rt, clients.first, &mut clients.a, rest),
        "b" => group(alloc, rt, clients.first, &mut clients.b, rest),
        "ask" => ask(alloc, rt, clients.first, rest),
        "last" => ask(alloc, rt, clients.last, rest),
        "open" | "ended" | "bytewise" => talk(alloc, rt, clients.first, word, rest),
        "wait" => {
            thread::sleep(rt, Duration::from_millis(number_of(rest)));
            Ok(true)
        }
        _ => Ok(stage.change(part)),
    }
}

/// Plays the parts, of which each is a case, up to the first that doesn't come out; whether all do. The clients are lent, so that none
/// has to be dropped on the way.
fn play_all<R: Machine, T: Stage>(
    alloc: Global,
    rt: &R,
    stage: &T,
    clients: &mut Clients,
    parts: &str,
    tally: &mut Tally,
) -> Made<bool> {
    for row in &rows_of(alloc, parts)? {
        for part in row.split("; ") {
            let came = match play(alloc, rt, stage, clients, part) {
                Ok(true) => String::new(alloc),
                Ok(false) => format!(in alloc; "not so: {part}")?,
                Err(error) => format!(in alloc; "{error}: {part}")?,
            };
            tally.count(parts, b"", came.as_bytes())?;
            if !came.is_empty() {
                return Ok(false);
            }
        }
    }
    Ok(true)
}

/// Plays the parts at the nodes of these addresses; whether all come out.
pub(crate) fn play_at<R: Machine, T: Stage>(
    alloc: Global,
    rt: &R,
    stage: &T,
    addresses: &[SocketAddr],
    parts: &str,
    tally: &mut Tally,
) -> io::Result<bool> {
    let mut clients = Clients {
        first: *addresses.first().ok_or(AllocError)?,
        last: *addresses.last().ok_or(AllocError)?,
        a: Vec::new(alloc),
        b: Vec::new(alloc),
    };
    Ok(play_all(alloc, rt, stage, &mut clients, parts, tally)?)
}
