// A request whose check takes long, and commands at the same node meanwhile.
use crate::asking::{ask, body, send, while_served};
use crate::trials::{Machine, Trial, tried};
use avro_resolve::resolve;
use avro_schema::Schema;
use reg_node_service::NoGate;
use std::alloc::{AllocError, Global};
use std::io::{self, ErrorKind};
use std::net::SocketAddr;
use std::test::Fail;
use std::thread;
use std::time::{Clock, Duration, Instant};
use test_tools::{Made, Tally};

/// How many fields readers have, and how many records writers, until a check takes long enough to tell how
/// long it takes for more. Each field is compared with each record.
static SIZES: [u32; 5] = [250, 500, 1_000, 2_000, 4_000];

/// How long that is, in milliseconds.
const TELLING: u64 = 250;

/// So many times that size takes some seconds.
const TIMES: u32 = 3;

/// The greatest size of which a request may be.
const MOST: u32 = 9_000;

/// The longest that the response is waited for, in seconds.
pub(crate) const PATIENCE: u64 = 40;

/// After how long the check is under way, in milliseconds.
pub(crate) const UNDER_WAY: u64 = 500;

/// How many commands are done while the check runs.
const COMMANDS: u64 = 5;

/// How long one of them may take, in milliseconds.
const SOON: u64 = 100;

/// How much longer the check takes at least when they are done, in milliseconds: one that was held up would
/// be answered when the check is done.
pub(crate) const LEFT: u64 = 100;

/// How many times a check is timed. The least time is taken, since others may run beside it.
const TIMINGS: u32 = 3;

/// A record whose fields all read a field `a`.
fn reader_text(alloc: Global, size: u32) -> Made<String> {
    let mut text = String::from_str(alloc, r#"{"type":"record","name":"R","fields":["#)?;
    text.push_str(r#"{"name":"f","type":{"type":"fixed","name":"T","size":1},"aliases":["a"]}"#)?;
    for place in 0..size {
        write!(text, r#",{{"name":"f{place}","type":"T","aliases":["a"]}}"#)?;
    }
    text.push_str("]}")?;
    Ok(text)
}

/// A union of records with a field `a`.
pub(crate) fn writer_text(alloc: Global, size: u32) -> Made<String> {
    let mut text = String::from_str(alloc, r#"[{"type":"record","name":"w.R","fields":["#)?;
    text.push_str(r#"{"name":"a","type":{"type":"fixed","name":"T.T","size":1}}]}"#)?;
    for place in 0..size {
        write!(
            text,
            r#",{{"type":"record","name":"w{place}.R","fields":[{{"name":"a","type":"T.T"}}]}}"#
        )?;
    }
    text.push(']')?;
    Ok(text)
}

/// How long a check of that size takes.
fn time_of<R: Clock>(alloc: Global, rt: &R, size: u32) -> io::Result<Duration> {
    let reading = reader_text(alloc, size)?;
    let writing = writer_text(alloc, size)?;
    let (Some(reader), Some(writer)) = (
        Schema::read_if_any(alloc, reading.as_str())?,
        Schema::read_if_any(alloc, writing.as_str())?,
    ) else {
        return Err(io::Error::from(ErrorKind::InvalidData));
    };
    let begun = Instant::now(rt)?;
    let _verdict = resolve(alloc, &reader, &writer)?;
    Ok(begun.elapsed(rt)?)
}

/// Whether each of a few checks of that size takes long enough to tell.
fn is_telling<R: Clock>(alloc: Global, rt: &R, size: u32) -> io::Result<bool> {
    for _timing in 0..TIMINGS {
        if time_of(alloc, rt, size)? < Duration::from_millis(TELLING) {
            return Ok(false);
        }
    }
    Ok(true)
}

/// A size whose check takes some seconds here.
pub(crate) fn long_size<R: Clock>(alloc: Global, rt: &R) -> io::Result<u32> {
    for size in &SIZES {
        if is_telling(alloc, rt, *size)? {
            return Ok(size.saturating_mul(TIMES).min(MOST));
        }
    }
    Ok(MOST)
}

pub(crate) const CHECK_LATEST: &str = "/compatibility/subjects/s/versions/latest";

const VERSIONS: &str = "/subjects/s/versions";

pub(crate) const SET_FULL: &str = r#"PUT /config/t {"compatibility":"FULL"}"#;

/// Asks for a schema at the path.
pub(crate) fn post(alloc: Global, path: &str, text: &str) -> Made<String> {
    let mut request = format!(in alloc; "POST {path} {{\"schema\":\"")?;
    for letter in text.chars() {
        if letter == '"' {
            request.push('\\')?;
        }
        request.push(letter)?;
    }
    request.push_str("\"}")?;
    Ok(request)
}

/// Sets the level, and registers the reader.
pub(crate) fn prepare<R: Machine>(
    alloc: Global,
    rt: &R,
    address: SocketAddr,
    size: u32,
) -> io::Result<()> {
    let register = post(alloc, VERSIONS, &reader_text(alloc, size)?)?;
    ask(
        alloc,
        rt,
        address,
        r#"PUT /config/s {"compatibility":"FORWARD"}"#,
    )?;
    ask(alloc, rt, address, &register)?;
    Ok(())
}

/// How many commands are answered soon.
fn work_meanwhile<R: Machine>(alloc: Global, rt: &R, address: SocketAddr) -> io::Result<u64> {
    let mut in_time = 0u64;
    for _command in 0..COMMANDS {
        let begun = Instant::now(rt)?;
        ask(alloc, rt, address, SET_FULL)?;
        if begun.elapsed(rt)? < Duration::from_millis(SOON) {
            in_time = in_time.saturating_add(1);
        }
    }
    Ok(in_time)
}

/// Does commands while the request is under way. The body that it is answered, and before that how it was with the commands, if they
/// weren't answered soon.
fn work_beside<R: Machine>(
    alloc: Global,
    rt: &R,
    address: SocketAddr,
    request: &str,
) -> io::Result<String> {
    let slow = send(alloc, rt, address, request)?;
    slow.set_read_timeout(Some(Duration::from_secs(PATIENCE)))?;
    thread::sleep(rt, Duration::from_millis(UNDER_WAY));
    let in_time = work_meanwhile(alloc, rt, address)?;
    let done = Instant::now(rt)?;
    let told = body(alloc, slow)?;
    let left = done.elapsed(rt)?;
    if in_time > COMMANDS / 2 && left > Duration::from_millis(LEFT) {
        return Ok(told);
    }
    let left = left.as_millis();
    Ok(format!(in alloc; "{in_time} commands in time, {left} ms before {told}")?)
}

/// Registers the reader, and then asks for the writer at the path.
fn visit<R: Machine>(
    alloc: Global,
    rt: &R,
    addresses: &[SocketAddr],
    path: &str,
    size: u32,
) -> io::Result<String> {
    let address = *addresses.first().ok_or(AllocError)?;
    prepare(alloc, rt, address, size)?;
    let request = post(alloc, path, &writer_text(alloc, size)?)?;
    work_beside(alloc, rt, address, &request)
}

/// What is asked, at a node of four workers: one has the check or the registration, one the commands, and two turns of commands are
/// there.
static ROWS: [(&str, &str); 2] = [
    (CHECK_LATEST, r#"{"is_compatible":true}"#),
    (VERSIONS, r#"{"id":2}"#),
];

pub(crate) fn work_beside_checks<R: Machine>(
    alloc: Global,
    rt: &R,
    tally: &mut Tally,
) -> io::Result<()> {
    let size = long_size(alloc, rt)?;
    for (path, wanted) in &ROWS {
        let came = while_served(alloc, rt, (1, 4, 10), &NoGate, |addresses| {
            visit(alloc, rt, addresses, path, size)
        })?;
        tally.count(path, wanted.as_bytes(), came.as_bytes())?;
    }
    Ok(())
}

#[test]
fn a_long_check_holds_up_no_command(rt: HostRuntime) -> Result<(), Fail> {
    let tally = tried(rt.alloc(), &rt, Trial::Slow)?;
    assert_eq!(rt; (tally.cases(), tally.others()), (2, ""));
    Ok(())
}
