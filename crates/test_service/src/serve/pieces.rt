// Requests in random pieces, on many connections at a time.
use crate::serve::fakes::Ledger;
use crate::serve::nodes::{patient, with_node};
use crate::trials::{Machine, Trial, tried};
use std::alloc::Global;
use std::io::{self, Read, Write};
use std::net::{SocketAddr, TcpStream};
use std::sync::atomic::{AtomicU64, Ordering};
use std::test::Fail;
use std::thread;
use std::time::Duration;
use test_tools::{Draws, Made, Tally};

/// The clients, the connections of each, and the rounds of each connection.
const CLIENTS: u64 = 4;

const CONNECTIONS: u64 = 75;

const ROUNDS: u64 = 170;

/// A connection, with what is sent on it in a round and what is to be answered.
#[derive(Drop)]
struct Talk {
    stream: TcpStream,
    requests: String,
    answers: String,
    sent: usize,
}

/// Adds a request for an id, and its answer.
fn add_talk(requests: &mut String, answers: &mut String, id: u64) -> Made<()> {
    let len = 2 + id.checked_ilog10().unwrap_or(0) + 1;
    write!(
        requests,
        "GET /schemas/ids/{id} HTTP/1.1\r\nHost: a\r\n\r\n"
    )?;
    write!(
        answers,
        "HTTP/1.1 200 OK\r\nContent-Type: application/vnd.schemaregistry.v1+json\r\nContent-Length: {len}\r\n\r\n[{id}]"
    )
}

impl Talk {
    /// Begins a round of so many requests, whose ids count on from that one.
    fn begin(&mut self, id: u64, count: u64) -> io::Result<()> {
        self.requests.clear();
        self.answers.clear();
        self.sent = 0;
        for id in id..id.saturating_add(count) {
            add_talk(&mut self.requests, &mut self.answers, id)?;
        }
        Ok(())
    }

    /// Sends a piece of what is left: so many bytes, or all.
    fn send(&mut self, piece: usize) -> io::Result<()> {
        let rest = self.requests.as_bytes().get(self.sent..).unwrap_or(&[]);
        let piece = rest.get(..piece).unwrap_or(rest);
        let mut stream = &self.stream;
        stream.write_all(piece)?;
        self.sent = self.sent.saturating_add(piece.len());
        Ok(())
    }

    /// Whether the answers are those that are wanted.
    fn hear(&mut self, buffer: &mut Vec<u8>) -> io::Result<bool> {
        buffer.clear();
        buffer.resize(self.answers.len(), 0u8)?;
        let mut stream = &self.stream;
        stream.read_exact(buffer)?;
        Ok(buffer.as_slice() == self.answers.as_bytes())
    }
}

/// A connection on which nothing was sent.
fn connect<R: Machine>(rt: &R, alloc: Global, address: SocketAddr) -> io::Result<Talk> {
    let stream = TcpStream::connect(rt, address)?;
    stream.set_read_timeout(Some(Duration::from_secs(20)))?;
    Ok(Talk {
        stream,
        requests: String::new(alloc),
        answers: String::new(alloc),
        sent: 0,
    })
}

/// How many requests there were, and how many rounds of a connection were answered otherwise.
#[derive(Drop)]
struct Counts {
    requests: AtomicU64,
    wrong: AtomicU64,
}

/// One round of all connections, counted: each sends a piece, then another one, then the rest, and then all answers
/// are heard.
fn go_round(
    talks: &mut [Talk],
    buffer: &mut Vec<u8>,
    first: u64,
    counts: &Counts,
) -> io::Result<()> {
    let mut draws = Draws::new(first);
    for (n, talk) in talks.iter_mut().enumerate() {
        let count = draws.below(3).saturating_add(1);
        counts.requests.fetch_add(count, Ordering::SeqCst);
        talk.begin(first.saturating_add(3 * n as u64), count)?;
        talk.send(draws.place(60))?;
    }
    for talk in talks.iter_mut() {
        talk.send(draws.place(60))?;
    }
    for talk in talks.iter_mut() {
        talk.send(usize::MAX)?;
    }
    for talk in talks.iter_mut() {
        if !talk.hear(buffer)? {
            counts.wrong.fetch_add(1, Ordering::SeqCst);
        }
    }
    Ok(())
}

/// What one client does. Its connections are lent, so that none has to be dropped on the way.
fn go_rounds<R: Machine>(
    rt: &R,
    alloc: Global,
    address: SocketAddr,
    client: u64,
    talks: &mut Vec<Talk>,
    counts: &Counts,
) -> io::Result<()> {
    for _connection in 0..CONNECTIONS {
        talks.push(connect(rt, alloc, address)?)?;
    }
    let mut buffer = Vec::new(alloc);
    for round in 0..ROUNDS {
        let first = client
            .saturating_mul(1_000_000)
            .saturating_add(round.saturating_mul(300))
            .saturating_add(1);
        go_round(talks, &mut buffer, first, counts)?;
    }
    Ok(())
}

/// What all clients do at the same time. One that fails counts as a wrong round.
fn visit_all<R: Machine>(rt: &R, alloc: Global, address: SocketAddr, counts: &Counts) {
    thread::scope(thread::scope_env(), rt, |scope| {
        for client in 0..CLIENTS {
            let started = scope.spawn(move || {
                let mut talks = Vec::new(alloc);
                if go_rounds(rt, alloc, address, client, &mut talks, counts).is_err() {
                    counts.wrong.fetch_add(1, Ordering::SeqCst);
                }
            });
            if started.is_err() {
                counts.wrong.fetch_add(1, Ordering::SeqCst);
            }
        }
    })
}

/// Lets all clients do what they do while a node of four workers serves.
pub(crate) fn send_pieces<R: Machine>(alloc: Global, rt: &R, tally: &mut Tally) -> io::Result<()> {
    let counts = Counts {
        requests: AtomicU64::new(0),
        wrong: AtomicU64::new(0),
    };
    let size = (4, CLIENTS * CONNECTIONS);
    with_node(alloc, rt, patient(), size, &Ledger::new(), |address| {
        visit_all(rt, alloc, address, &counts);
        Ok(())
    })?;
    let is_enough = counts.requests.load(Ordering::SeqCst) >= 100_000;
    let wrong = counts.wrong.load(Ordering::SeqCst);
    let came = format!(in alloc; "{wrong} wrong, enough: {is_enough}")?;
    Ok(tally.count("requests", b"0 wrong, enough: true", came.as_bytes())?)
}

#[test]
fn requests_in_pieces_are_answered_each(rt: HostRuntime) -> Result<(), Fail> {
    let tally = tried(rt.alloc(), &rt, Trial::Pieces)?;
    assert_eq!(rt; (tally.cases(), tally.others()), (1, ""));
    Ok(())
}
