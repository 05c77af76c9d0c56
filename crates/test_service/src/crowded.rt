// Two commands that are held and two checks that take long, at a node of four workers, and a lookup meanwhile.
use crate::asking::{ask, send, tell, while_served};
use crate::holding::Holding;
use crate::slow::{
    CHECK_LATEST, LEFT, PATIENCE, SET_FULL, UNDER_WAY, long_size, post, prepare, writer_text,
};
use crate::trials::{Machine, Trial, tried};
use std::alloc::{AllocError, Global};
use std::net::{SocketAddr, TcpStream};
use std::test::Fail;
use std::time::{Duration, Instant};
use std::{io, thread};
use test_tools::Tally;

/// Adds two connections on which that was sent, whose responses may take long.
fn send_two<R: Machine>(
    alloc: Global,
    rt: &R,
    address: SocketAddr,
    request: &str,
    streams: &mut Vec<TcpStream>,
) -> io::Result<()> {
    for _connection in 0..2 {
        let stream = send(alloc, rt, address, request)?;
        stream.set_read_timeout(Some(Duration::from_secs(PATIENCE)))?;
        streams.push(stream)?;
    }
    Ok(())
}

/// Adds a line with the body of each response.
fn tell_all(alloc: Global, told: &mut String, streams: Vec<TcpStream>) -> io::Result<()> {
    for stream in streams {
        tell(alloc, told, stream)?;
    }
    Ok(())
}

const LOOKUP: &str = r#"POST /subjects/t {"schema":"\"int\""}"#;

/// Has two commands held and two checks under way, and looks the schema up. What the checks, the commands and the lookup are answered,
/// and whether the lookup was answered before one of the checks was.
fn visit<R: Machine>(
    alloc: Global,
    rt: &R,
    address: SocketAddr,
    gate: &Holding<'_, R>,
    check: &str,
) -> io::Result<(String, bool)> {
    let (mut held, mut slow) = (Vec::new(alloc), Vec::new(alloc));
    send_two(alloc, rt, address, SET_FULL, &mut held)?;
    gate.await_held(2);
    send_two(alloc, rt, address, check, &mut slow)?;
    thread::sleep(rt, Duration::from_millis(UNDER_WAY));
    let found = ask(alloc, rt, address, LOOKUP);
    gate.let_go();
    let done = Instant::now(rt)?;
    let mut told = String::new(alloc);
    tell_all(alloc, &mut told, slow)?;
    let is_beside = done.elapsed(rt)? > Duration::from_millis(LEFT);
    tell_all(alloc, &mut told, held)?;
    told.push_str(found?.as_str())?;
    Ok((told, is_beside))
}

/// What `visit` gives once the reader is registered. Nothing is held then.
fn visit_first<R: Machine>(
    alloc: Global,
    rt: &R,
    addresses: &[SocketAddr],
    gate: &Holding<'_, R>,
    size: u32,
) -> io::Result<(String, bool)> {
    let address = *addresses.first().ok_or(AllocError)?;
    prepare(alloc, rt, address, size)?;
    let check = post(alloc, CHECK_LATEST, &writer_text(alloc, size)?)?;
    let told = visit(alloc, rt, address, gate, &check);
    gate.let_go();
    told
}

/// The bodies of the checks, of the commands and of the lookup.
const TOLD: &str = r#"{"is_compatible":true}
{"is_compatible":true}
{"compatibility":"FULL"}
{"compatibility":"FULL"}
{"error_code":40401,"message":"Subject not found"}"#;

/// Four workers serve. The first two calls set the level and register the reader; those behind them are held.
pub(crate) fn look_beside<R: Machine>(alloc: Global, rt: &R, tally: &mut Tally) -> io::Result<()> {
    let size = long_size(alloc, rt)?;
    let gate = Holding::new(rt, &[3, 4]);
    let (told, is_beside) = while_served(alloc, rt, (1, 4, 10), &gate, |addresses| {
        visit_first(alloc, rt, addresses, &gate, size)
    })?;
    tally.count("all bodies", TOLD.as_bytes(), told.as_bytes())?;
    let came = if is_beside { "beside" } else { "behind" };
    Ok(tally.count("the lookup", b"beside", came.as_bytes())?)
}

#[test]
fn commands_and_checks_leave_a_worker_for_lookups(rt: HostRuntime) -> Result<(), Fail> {
    let tally = tried(rt.alloc(), &rt, Trial::Crowded)?;
    assert_eq!(rt; (tally.cases(), tally.others()), (2, ""));
    Ok(())
}
