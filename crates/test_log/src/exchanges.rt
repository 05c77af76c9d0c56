// A command and an adapter that answers it, each in a thread.
use crate::faults::NotFlushed;
use reg_adapter::Messages;
use reg_adapter_line::{
    AdapterChain, AdapterLine, AskedFor, Heard, LineEnd, Overhear, read_messages, send_requests,
    tell_all,
};
use reg_chain::{Chain, ChainAnswer};
use reg_records::{Key, Record};
use std::alloc::Global;
use std::io::{self, ErrorKind};
use std::sync::{Arc, Wait};
use std::test::Fail;
use std::thread::{self, Threads};
use std::time::{Clock, Duration};

/// How long an answer is waited for, in milliseconds: longer than a test takes, and so long that none comes.
pub(crate) const LONG: u64 = 20_000;

const SHORT: u64 = 30;

/// Overhears nothing.
#[derive(Clone, Copy)]
struct Deaf;

impl Overhear for Deaf {
    fn heard(&self, _message: Heard) {}

    fn asked(&self, _request: AskedFor) {}
}

pub(crate) fn noop(offset: u64) -> Record {
    Record {
        offset,
        key: Key::Noop,
        value: None,
    }
}

/// Tells a line what this text says.
fn tell<R: Wait + Clock>(rt: &R, alloc: Global, line: &AdapterLine, text: &str) -> io::Result<()> {
    let mut messages = Messages::new(alloc);
    messages.take(text.as_bytes())?;
    tell_all(rt, &mut messages, line, &Deaf);
    Ok(())
}

/// Asks for a batch, which an adapter answers with this text; and the bytes that asked for it.
fn exchange<R: Wait + Clock + Threads + Sync + Send + Drop>(
    rt: &R,
    alloc: Global,
    chain: &mut AdapterChain<R>,
    line: &AdapterLine,
    batch: &[Record],
    text: &str,
) -> (ChainAnswer, Option<Vec<u8>>) {
    thread::join(
        rt,
        || chain.append(batch),
        || {
            let bytes = line.wait_for_request(rt);
            let _told = tell(rt, alloc, line, text);
            bytes
        },
    )
}

/// The offset of the first record of the next batch that is due.
fn next_offset<R: Wait + Clock + Drop>(chain: &mut AdapterChain<R>) -> Result<Option<u64>, Fail> {
    let Some(batch) = chain.next()? else {
        return Ok(None);
    };
    Ok(batch.as_slice().first().map(|record| record.offset))
}

const FIFTH: &str = "batch\n5\t{\"keytype\":\"NOOP\",\"magic\":0}\tnull\n\n";

/// A line behind a base whose next offset is 5, and a chain over it.
pub(crate) fn begin<R: Wait + Clock + Drop>(
    rt: R,
    alloc: Global,
    patience: u64,
) -> Result<(Arc<AdapterLine, Global>, AdapterChain<R>), Fail> {
    let line = Arc::new(alloc, AdapterLine::new(alloc, 5))?;
    let patience = Duration::from_millis(patience);
    let chain = AdapterChain::new(rt, alloc, Arc::try_clone(&line)?, patience);
    Ok((line, chain))
}

#[test]
fn a_batch_is_kept(rt: HostRuntime) -> Result<(), Fail> {
    let alloc = rt.alloc();
    let (line, mut chain) = begin(rt, alloc, LONG)?;
    let (answer, bytes) = exchange(&rt, alloc, &mut chain, &line, &[noop(5)], "kept\n");
    assert_eq!(rt; answer, ChainAnswer::Kept);
    let bytes = bytes.ok_or("a request")?;
    let text = "5\t{\"keytype\":\"NOOP\",\"magic\":0}\tnull\n\n";
    assert!(rt; bytes.as_slice() == text.as_bytes());
    assert!(rt; !line.has_due());
    assert_eq!(rt; next_offset(&mut chain)?, None);
    let (answer, _bytes) = exchange(&rt, alloc, &mut chain, &line, &[noop(6)], "kept\n");
    assert_eq!(rt; answer, ChainAnswer::Kept);
    Ok(())
}

#[test]
fn a_batch_is_behind_others(rt: HostRuntime) -> Result<(), Fail> {
    let alloc = rt.alloc();
    let (line, mut chain) = begin(rt, alloc, LONG)?;
    let text = format!(in alloc; "{FIFTH}behind\n")?;
    let (answer, _bytes) = exchange(&rt, alloc, &mut chain, &line, &[noop(5)], text.as_str());
    assert_eq!(rt; answer, ChainAnswer::Behind);
    assert!(rt; line.has_due());
    assert_eq!(rt; chain.append(&[noop(5)]), ChainAnswer::Behind);
    assert_eq!(rt; next_offset(&mut chain)?, Some(5));
    assert!(rt; !line.has_due());
    Ok(())
}

#[test]
fn a_batch_is_declined(rt: HostRuntime) -> Result<(), Fail> {
    let alloc = rt.alloc();
    let (line, mut chain) = begin(rt, alloc, LONG)?;
    let (answer, _bytes) = exchange(&rt, alloc, &mut chain, &line, &[noop(5)], "declined\n");
    assert_eq!(rt; answer, ChainAnswer::Declined);
    assert_eq!(rt;
        chain.append(&[noop(7)]),
        ChainAnswer::Declined,
        "it isn't the next offset"
    );
    Ok(())
}

#[test]
fn a_lost_batch_comes_late(rt: HostRuntime) -> Result<(), Fail> {
    let alloc = rt.alloc();
    let (line, mut chain) = begin(rt, alloc, LONG)?;
    let (answer, _bytes) = exchange(&rt, alloc, &mut chain, &line, &[noop(5)], "lost\n");
    assert_eq!(rt; answer, ChainAnswer::Unknown);
    tell(&rt, alloc, &line, FIFTH)?;
    assert_eq!(rt; next_offset(&mut chain)?, Some(5));
    let (answer, _bytes) = exchange(&rt, alloc, &mut chain, &line, &[noop(6)], "kept\n");
    assert_eq!(rt; answer, ChainAnswer::Kept);
    Ok(())
}

#[test]
fn an_answer_comes_late(rt: HostRuntime) -> Result<(), Fail> {
    let alloc = rt.alloc();
    let (line, mut chain) = begin(rt, alloc, SHORT)?;
    assert_eq!(rt; chain.append(&[noop(5)]), ChainAnswer::Unknown);
    assert_eq!(rt; chain.append(&[noop(5)]), ChainAnswer::Declined);
    assert_eq!(rt; chain.append(&[]), ChainAnswer::Declined);
    tell(&rt, alloc, &line, "kept\n")?;
    assert!(rt; line.has_due());
    assert_eq!(rt; next_offset(&mut chain)?, Some(5));
    assert_eq!(rt; chain.append(&[]), ChainAnswer::Declined, "no answer comes");
    Ok(())
}

#[test]
fn a_check_is_crossed(rt: HostRuntime) -> Result<(), Fail> {
    let alloc = rt.alloc();
    let (line, mut chain) = begin(rt, alloc, LONG)?;
    let text = format!(in alloc; "{FIFTH}kept\n")?;
    let (answer, bytes) = exchange(&rt, alloc, &mut chain, &line, &[], text.as_str());
    assert_eq!(rt; answer, ChainAnswer::Behind);
    assert!(rt; bytes.ok_or("a request")?.as_slice() == b"\n".as_slice());
    assert_eq!(rt; next_offset(&mut chain)?, Some(5));
    let (answer, _bytes) = exchange(&rt, alloc, &mut chain, &line, &[], "kept\n");
    assert_eq!(rt; answer, ChainAnswer::Kept);
    Ok(())
}

/// Tells a line that each of two requests is kept, one after the other.
fn keep_two<R: Wait + Clock>(rt: &R, alloc: Global, line: &AdapterLine) -> io::Result<()> {
    for _ in 0..2 {
        let _bytes = line.wait_for_request(rt);
        tell(rt, alloc, line, "kept\n")?;
    }
    Ok(())
}

#[test]
fn a_check_and_a_batch_are_asked_for_in_turn(rt: HostRuntime) -> Result<(), Fail> {
    let alloc = rt.alloc();
    let (line, mut chain) = begin(rt, alloc, LONG)?;
    let patience = Duration::from_millis(LONG);
    let mut other = AdapterChain::new(rt, alloc, Arc::try_clone(&line)?, patience);
    let shared: &AdapterLine = &line;
    let batch = [noop(5)];
    let (checked, (kept, told)) = thread::join(
        &rt,
        || other.append(&[]),
        || {
            thread::join(
                &rt,
                || chain.append(&batch),
                || keep_two(&rt, alloc, shared),
            )
        },
    );
    assert!(rt; told.is_ok());
    assert_eq!(rt; checked, ChainAnswer::Kept);
    assert_eq!(rt; kept, ChainAnswer::Kept);
    Ok(())
}

#[test]
fn a_batch_behind_a_check_without_an_answer_is_declined(rt: HostRuntime) -> Result<(), Fail> {
    let alloc = rt.alloc();
    let (line, mut chain) = begin(rt, alloc, LONG)?;
    let patience = Duration::from_millis(SHORT);
    let mut other = AdapterChain::new(rt, alloc, Arc::try_clone(&line)?, patience);
    let shared: &AdapterLine = &line;
    let batch = [noop(5)];
    let (checked, answer) = thread::join(
        &rt,
        || other.append(&[]),
        || {
            let _bytes = shared.wait_for_request(&rt);
            chain.append(&batch)
        },
    );
    assert_eq!(rt; checked, ChainAnswer::Declined);
    assert_eq!(rt;
        answer,
        ChainAnswer::Declined,
        "it waited no longer than the check did"
    );
    Ok(())
}

/// The chain of a pen on a line, whose checks are waited for that long.
fn chain_of_pen<R: Wait + Clock + Drop>(
    rt: R,
    alloc: Global,
    line: &Arc<AdapterLine, Global>,
    brief: u64,
) -> Result<AdapterChain<R>, Fail> {
    let (patience, brief) = (Duration::from_millis(LONG), Duration::from_millis(brief));
    Ok(AdapterChain::of_pen(rt, alloc, Arc::try_clone(line)?, patience, brief))
}

#[test]
fn one_check_serves_who_came_before_it(rt: HostRuntime) -> Result<(), Fail> {
    let alloc = rt.alloc();
    let (line, _chain) = begin(rt, alloc, LONG)?;
    let mut chain = chain_of_pen(rt, alloc, &line, LONG)?;
    let came = line.arrivals().now();
    line.arrivals().serve(came, false);
    let (answer, _bytes) = exchange(&rt, alloc, &mut chain, &line, &[], "kept\n");
    assert_eq!(rt; answer, ChainAnswer::Kept);
    line.arrivals().serve(came, false);
    assert_eq!(rt;
        chain.append(&[]),
        ChainAnswer::Kept,
        "nobody answers: it isn't asked"
    );
    line.arrivals().serve(line.arrivals().now(), false);
    let (answer, bytes) = exchange(&rt, alloc, &mut chain, &line, &[], "declined\n");
    assert_eq!(rt; answer, ChainAnswer::Declined, "it came behind the check");
    assert!(rt; bytes.ok_or("a request")?.as_slice() == b"\n".as_slice());
    Ok(())
}

#[test]
fn a_batch_that_is_kept_serves_as_a_check(rt: HostRuntime) -> Result<(), Fail> {
    let alloc = rt.alloc();
    let (line, mut other) = begin(rt, alloc, LONG)?;
    let mut chain = chain_of_pen(rt, alloc, &line, LONG)?;
    let came = line.arrivals().now();
    line.arrivals().serve(came, false);
    let (answer, _bytes) = exchange(&rt, alloc, &mut chain, &line, &[noop(5)], "kept\n");
    assert_eq!(rt; answer, ChainAnswer::Kept);
    line.arrivals().serve(came, false);
    assert_eq!(rt; chain.append(&[]), ChainAnswer::Kept);
    let (answer, _bytes) = exchange(&rt, alloc, &mut other, &line, &[], "declined\n");
    assert_eq!(rt;
        answer,
        ChainAnswer::Declined,
        "a chain that is no pen's asks each time"
    );
    Ok(())
}

#[test]
fn a_brief_check_is_given_up(rt: HostRuntime) -> Result<(), Fail> {
    let alloc = rt.alloc();
    let (line, _chain) = begin(rt, alloc, LONG)?;
    let mut chain = chain_of_pen(rt, alloc, &line, SHORT)?;
    line.arrivals().serve(line.arrivals().now(), true);
    assert_eq!(rt; chain.append(&[]), ChainAnswer::Declined, "no answer comes");
    assert_eq!(rt;
        chain.append(&[]),
        ChainAnswer::Declined,
        "nor is another one asked"
    );
    assert_eq!(rt; line.arrivals().now(), 1);
    let _check = line.wait_for_request(&rt);
    tell(&rt, alloc, &line, "kept\n")?;
    line.arrivals().serve(line.arrivals().now(), false);
    let (answer, _bytes) = exchange(&rt, alloc, &mut chain, &line, &[], "kept\n");
    assert_eq!(rt; answer, ChainAnswer::Kept);
    Ok(())
}

/// Asks for a batch until it isn't declined, 100 times at most: on a busy machine the answer before it may come too late.
fn append_in_time<R: Wait + Clock + Drop>(
    chain: &mut AdapterChain<R>,
    batch: &[Record],
) -> ChainAnswer {
    for _ in 0..99 {
        let answer = chain.append(batch);
        if answer != ChainAnswer::Declined {
            return answer;
        }
    }
    chain.append(batch)
}

#[test]
fn a_batch_waits_for_an_answer_that_is_late(rt: HostRuntime) -> Result<(), Fail> {
    let alloc = rt.alloc();
    let (line, mut chain) = begin(rt, alloc, LONG)?;
    let mut other = AdapterChain::new(
        rt,
        alloc,
        Arc::try_clone(&line)?,
        Duration::from_millis(SHORT),
    );
    assert_eq!(rt; other.append(&[]), ChainAnswer::Declined, "no answer comes");
    let shared: &AdapterLine = &line;
    let batch = [noop(5)];
    let (kept, told) = thread::join(
        &rt,
        || append_in_time(&mut chain, &batch),
        || {
            let _check = shared.wait_for_request(&rt);
            thread::sleep(&rt, Duration::from_millis(SHORT));
            tell(&rt, alloc, shared, "kept\n")?;
            let _batch = shared.wait_for_request(&rt);
            tell(&rt, alloc, shared, "kept\n")
        },
    );
    assert!(rt; told.is_ok());
    assert_eq!(rt; kept, ChainAnswer::Kept);
    Ok(())
}

#[test]
fn the_input_ends_while_a_command_waits(rt: HostRuntime) -> Result<(), Fail> {
    let alloc = rt.alloc();
    let (line, mut chain) = begin(rt, alloc, LONG)?;
    let shared: &AdapterLine = &line;
    let batch = [noop(5)];
    let (answer, ()) = thread::join(
        &rt,
        || chain.append(&batch),
        || {
            let _bytes = shared.wait_for_request(&rt);
            let mut input: &[u8] = b"ready\n";
            read_messages(&rt, alloc, &mut input, shared, &Deaf);
        },
    );
    assert_eq!(rt; answer, ChainAnswer::Unknown);
    assert!(rt; line.is_ready() && line.is_over());
    assert!(rt; line.end(&rt) == Some(LineEnd::Input));
    assert_eq!(rt; chain.append(&[noop(5)]), ChainAnswer::Declined);
    Ok(())
}

#[test]
fn nobody_asked(rt: HostRuntime) -> Result<(), Fail> {
    let alloc = rt.alloc();
    let (line, mut chain) = begin(rt, alloc, LONG)?;
    let text = format!(in alloc; "{FIFTH}kept\n{FIFTH}")?;
    let mut input: &[u8] = text.as_bytes();
    read_messages(&rt, alloc, &mut input, &line, &Deaf);
    assert!(rt; line.end(&rt) == Some(LineEnd::NobodyAsked));
    assert_eq!(rt;
        next_offset(&mut chain)?,
        Some(5),
        "what was due is handed out"
    );
    assert_eq!(rt; next_offset(&mut chain)?, None);
    Ok(())
}

#[test]
fn a_request_is_not_handed_on(rt: HostRuntime) -> Result<(), Fail> {
    let alloc = rt.alloc();
    let (line, mut chain) = begin(rt, alloc, SHORT)?;
    assert_eq!(rt; chain.append(&[]), ChainAnswer::Declined);
    let mut writer = NotFlushed(Vec::new(alloc));
    send_requests(&rt, &mut writer, &line, &Deaf);
    assert!(rt; writer.0.as_slice() == b"\n".as_slice());
    assert!(rt; line.end(&rt) == Some(LineEnd::Output(ErrorKind::Other)));
    Ok(())
}
