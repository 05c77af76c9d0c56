// Eight clients at three nodes, each on one connection.
use crate::asking::{ask, connect, request_of, while_served};
use crate::trials::{Machine, Trial, tried};
use reg_node_service::NoGate;
use std::alloc::{AllocError, Global};
use std::io::{self, BufRead, BufReader, Read, Write};
use std::net::{SocketAddr, TcpStream};
use std::sync::atomic::{AtomicU64, Ordering};
use std::test::Fail;
use std::thread;
use std::time::Duration;
use test_tools::{Draws, Tally, rows_of};

const CLIENTS: u64 = 8;

/// The workers of a node: fewer than its clients, so that connections go from worker to worker.
const WORKERS: u32 = 2;

/// A node ends after so many connections for each of its workers: there are one for the level, three for
/// clients and one for what the node says in the end, and some more to use them up.
const CONNECTIONS: u64 = 3;

const ROUNDS: u64 = 16;

/// What clients register, as they send it and as it is told.
static SCHEMAS: [&str; 5] = [
    r#"{"schema":"\"int\""}"#,
    r#"{"schema":"\"long\""}"#,
    r#"{"schema":"\"string\""}"#,
    r#"{"schema":"\"bytes\""}"#,
    r#"{"schema":"\"boolean\""}"#,
];

/// Lets each subject take any schema after any other.
const NO_LEVEL: &str = r#"PUT /config {"compatibility":"NONE"}"#;

/// What is told of the versions of a subject that has none.
const NOT_FOUND: &str = r#"{"error_code":40401,"message":"Subject not found"}"#;

/// Reads a response's head, and says how long its body is.
fn body_length(alloc: Global, reader: &mut BufReader<&TcpStream>) -> io::Result<usize> {
    let mut length = 0usize;
    for _line in 0..16 {
        let mut line = String::new(alloc);
        reader.read_line(&mut line)?;
        if line.as_str() == "\r\n" {
            break;
        }
        if let Some(digits) = line.as_str().strip_prefix("Content-Length: ") {
            length = digits.trim().parse::<usize>().unwrap_or(0);
        }
    }
    Ok(length)
}

/// Sends a request on a connection that stays open, and gives the response's body.
fn say(alloc: Global, stream: &TcpStream, request: &str) -> io::Result<String> {
    let mut out = stream;
    out.write_all(request_of(alloc, request, "")?.as_bytes())?;
    let mut reader = BufReader::new(alloc, stream)?;
    let length = body_length(alloc, &mut reader)?;
    let mut bytes = Vec::new(alloc);
    bytes.resize(length, 0u8)?;
    reader.read_exact(&mut bytes)?;
    Ok(String::from_utf8(bytes).map_err(|_| AllocError)?)
}

/// The number that stands between two texts, or 0.
fn number_in(text: &str, before: &str, after: &str) -> u64 {
    match text
        .strip_prefix(before)
        .and_then(|rest| rest.strip_suffix(after))
    {
        Some(digits) => digits.parse::<u64>().unwrap_or(0),
        None => 0,
    }
}

/// Registers a schema, and says its id.
fn register(alloc: Global, stream: &TcpStream, subject: u64, schema: &str) -> io::Result<u64> {
    let request = format!(in alloc; "POST /subjects/s{subject}/versions {schema}")?;
    Ok(number_in(&say(alloc, stream, &request)?, "{\"id\":", "}"))
}

/// Whether the schema of the id is that.
fn has_schema(alloc: Global, stream: &TcpStream, id: u64, schema: &str) -> io::Result<bool> {
    let request = format!(in alloc; "GET /schemas/ids/{id}")?;
    Ok(say(alloc, stream, &request)?.as_str() == schema)
}

/// Deletes the last version of a subject, if it has one.
fn delete(alloc: Global, stream: &TcpStream, subject: u64) -> io::Result<()> {
    let request = format!(in alloc; "DELETE /subjects/s{subject}/versions/latest")?;
    say(alloc, stream, &request)?;
    Ok(())
}

/// What is told of the versions of a subject.
fn versions(alloc: Global, stream: &TcpStream, subject: u64) -> io::Result<String> {
    let request = format!(in alloc; "GET /subjects/s{subject}/versions")?;
    say(alloc, stream, &request)
}

/// Registers a schema in a subject that is used by one client alone, and deletes it; whether just that
/// version is told in between, and none afterwards.
fn is_own(
    alloc: Global,
    stream: &TcpStream,
    subject: u64,
    version: u64,
    schema: &str,
) -> io::Result<bool> {
    register(alloc, stream, subject, schema)?;
    let is_there = number_in(&versions(alloc, stream, subject)?, "[", "]") == version;
    delete(alloc, stream, subject)?;
    Ok(is_there && versions(alloc, stream, subject)?.as_str() == NOT_FOUND)
}

/// Registers a schema in one of four subjects that all clients use, and at times deletes a version there;
/// whether the schema is found by the id.
fn is_shared(
    alloc: Global,
    stream: &TcpStream,
    draws: &mut Draws,
    schema: &str,
) -> io::Result<bool> {
    let subject = draws.below(4);
    let id = register(alloc, stream, subject, schema)?;
    let is_there = has_schema(alloc, stream, id, schema)?;
    if draws.below(4) == 0 {
        delete(alloc, stream, subject)?;
    }
    Ok(is_there)
}

/// What one client does; how often it didn't read what it had been told.
fn visit(alloc: Global, stream: &TcpStream, client: u64) -> io::Result<u64> {
    let mut draws = Draws::new(client);
    let mut wrong = 0u64;
    for version in 1..=ROUNDS {
        let place = draws.place(SCHEMAS.len());
        let schema = SCHEMAS.get(place).copied().unwrap_or("");
        if !is_shared(alloc, stream, &mut draws, schema)? {
            wrong = wrong.saturating_add(1);
        }
        if !is_own(alloc, stream, client.saturating_add(10), version, schema)? {
            wrong = wrong.saturating_add(1);
        }
    }
    Ok(wrong)
}

fn connect_and_visit<R: Machine>(
    alloc: Global,
    rt: &R,
    address: SocketAddr,
    client: u64,
) -> io::Result<u64> {
    let stream = connect(rt, address)?;
    visit(alloc, &stream, client)
}

/// Lets all clients do what they do, at the same time; how often one didn't read what it had been
/// told, or failed.
fn visit_all<R: Machine>(alloc: Global, rt: &R, addresses: &[SocketAddr]) -> u64 {
    let wrong = AtomicU64::new(0);
    let count = &wrong;
    thread::scope(thread::scope_env(), rt, |scope| {
        for (client, address) in (0..CLIENTS).zip(addresses.iter().cycle()) {
            let address = *address;
            let started = scope.spawn(move || {
                let missed = connect_and_visit(alloc, rt, address, client).unwrap_or(1);
                count.fetch_add(missed, Ordering::SeqCst);
            });
            if started.is_err() {
                count.fetch_add(1, Ordering::SeqCst);
            }
        }
    });
    wrong.load(Ordering::SeqCst)
}

/// What a node is asked of subjects and of ids.
static QUERIES: &str = "
GET /subjects?deleted=true
GET /subjects/s0/versions
GET /subjects/s0/versions?deleted=true
GET /subjects/s1/versions
GET /subjects/s1/versions?deleted=true
GET /subjects/s2/versions
GET /subjects/s2/versions?deleted=true
GET /subjects/s3/versions
GET /subjects/s3/versions?deleted=true
GET /subjects/s17/versions?deleted=true
GET /schemas/ids/1/versions?deleted=true
GET /schemas/ids/5
";

/// What a node says to the first query in the end.
const ALL_SUBJECTS: &str =
    r#"["s0","s1","s10","s11","s12","s13","s14","s15","s16","s17","s2","s3"]"#;

/// What a node says to all queries, one after the other.
fn state_of(alloc: Global, stream: &TcpStream) -> io::Result<String> {
    let mut state = String::new(alloc);
    for request in &rows_of(alloc, QUERIES)? {
        state.push_str(&say(alloc, stream, request)?)?;
    }
    Ok(state)
}

/// Whether all nodes say the same, all subjects first.
fn is_agreed(alloc: Global, streams: &[TcpStream]) -> io::Result<bool> {
    let mut states: Vec<String> = Vec::new(alloc);
    for stream in streams {
        states.push(state_of(alloc, stream)?)?;
    }
    Ok(match states.split_first() {
        Some((first, others)) => {
            first.as_str().starts_with(ALL_SUBJECTS) && others.iter().all(|other| other == first)
        }
        None => false,
    })
}

/// The most turns until nodes agree, each a sleep of 100 milliseconds.
const TURNS: u64 = 100;

/// Whether all nodes come to say the same.
fn will_agree<R: Machine>(alloc: Global, rt: &R, streams: &[TcpStream]) -> io::Result<bool> {
    for _turn in 0..TURNS {
        if is_agreed(alloc, streams)? {
            return Ok(true);
        }
        thread::sleep(rt, Duration::from_millis(100));
    }
    Ok(false)
}

/// Sets the level at the first node and lets the clients do what they do. How often one didn't read
/// what it had been told, and whether the nodes then come to say the same.
fn use_nodes<R: Machine>(
    alloc: Global,
    rt: &R,
    addresses: &[SocketAddr],
) -> io::Result<(u64, bool)> {
    let first = *addresses.first().ok_or(AllocError)?;
    ask(alloc, rt, first, NO_LEVEL)?;
    let wrong = visit_all(alloc, rt, addresses);
    let mut streams = Vec::new(alloc);
    for address in addresses {
        streams.push(connect(rt, *address)?)?;
    }
    Ok((wrong, will_agree(alloc, rt, &streams)?))
}

/// Uses three nodes while they serve.
pub(crate) fn visit_nodes<R: Machine>(alloc: Global, rt: &R, tally: &mut Tally) -> io::Result<()> {
    let size = (3, WORKERS, CONNECTIONS);
    let (wrong, is_agreed) = while_served(alloc, rt, size, &NoGate, |addresses| {
        use_nodes(alloc, rt, addresses)
    })?;
    let came = format!(in alloc; "{wrong} wrong, agreed: {is_agreed}")?;
    Ok(tally.count("clients", b"0 wrong, agreed: true", came.as_bytes())?)
}

#[test]
fn clients_read_what_they_wrote(rt: HostRuntime) -> Result<(), Fail> {
    let tally = tried(rt.alloc(), &rt, Trial::Crowd)?;
    assert_eq!(rt; (tally.cases(), tally.others()), (1, ""));
    Ok(())
}
