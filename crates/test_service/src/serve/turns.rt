// Requests of one connection at desks in turn.
use crate::serve::fakes::{EchoDesk, Ledger};
use reg_connection::{answer_last, answer_one};
use reg_conversation::{Conversation, answer_rest, answer_whole, take_piece};
use reg_http::{Endpoint, Paths, RequestOutcome};
use reg_records::Device;
use reg_routes::{Action, Route};
use std::alloc::Global;
use std::mem;
use std::time::Clock;

/// A command, and a query that asks for what is known.
const COMMAND: &[u8] = b"DELETE /subjects/s HTTP/1.1\r\nHost: a\r\n\r\n";

const QUERY: &[u8] = b"GET /subjects HTTP/1.1\r\nHost: a\r\n\r\n";

/// The answer to the request at the front, if there is one and the connection goes on.
fn answer_front<R: Clock>(
    alloc: Global,
    paths: &mut Option<Paths>,
    conversation: &mut Conversation,
    standing: &mut Option<u64>,
    desk: &mut EchoDesk<'_, R>,
) -> Option<Vec<u8>> {
    let Some(len) = conversation.front_len() else {
        return None;
    };
    let mut writer = Device::new(Vec::new(alloc));
    match answer_one(alloc, paths, conversation, len, standing, &mut writer, desk) {
        Ok(outcome) => {
            if outcome.closes {
                None
            } else {
                Some(writer.into_inner())
            }
        }
        Err(_) => None,
    }
}

/// The last byte but one.
fn last_but_one(text: &[u8]) -> u8 {
    match text.split_last() {
        Some((_, front)) => front.last().copied().unwrap_or(b'?'),
        None => b'?',
    }
}

/// Adds the last byte but one of each answer to these requests of one connection, of which every second one
/// is answered at the second desk; whether all were answered.
fn talk<R: Clock>(rt: &R, alloc: Global, requests: &[&[u8]], out: &mut Vec<u8>) -> bool {
    let ledger = Ledger::new();
    let mut desk = EchoDesk::new(rt, &ledger);
    let mut other = EchoDesk::new(rt, &ledger);
    let mut conversation = Conversation::new(alloc);
    let (mut paths, mut standing) = (None, None);
    for request in requests {
        if conversation.feed(request).is_err() {
            return false;
        }
        let Some(text) = answer_front(
            alloc,
            &mut paths,
            &mut conversation,
            &mut standing,
            &mut desk,
        ) else {
            return false;
        };
        if out.push(last_but_one(&text)).is_err() {
            return false;
        }
        mem::swap(&mut desk, &mut other);
    }
    true
}

#[test]
fn a_connection_reads_its_own_writes_at_each_desk(rt: HostRuntime) {
    let mut out = Vec::new(rt.alloc());
    // A command is replied to by `{}`, a query by the number of the last command that its desk knows.
    let requests = [QUERY, COMMAND, QUERY, QUERY, COMMAND, QUERY, QUERY];
    assert!(rt; talk(&rt, rt.alloc(), &requests, &mut out));
    assert_eq!(rt; out.as_slice(), b"0{11{22".as_slice());
}

#[test]
fn what_is_cut_off_is_answered_once(rt: HostRuntime) {
    let alloc = rt.alloc();
    let rows: [(&[u8], &[u8]); 2] = [(b"", b""), (b"GET /", b"HTTP/1.1 400 Bad Request\r\n")];
    for (text, begin) in rows {
        let ledger = Ledger::new();
        let mut desk = EchoDesk::new(&rt, &ledger);
        let mut conversation = Conversation::new(alloc);
        assert!(rt; conversation.feed(text).is_ok());
        assert!(rt; conversation.front_len().is_none());
        let (mut paths, mut standing) = (None, None);
        let mut writer = Device::new(Vec::new(alloc));
        let answered = answer_last(
            alloc,
            &mut paths,
            &mut conversation,
            &mut standing,
            &mut writer,
            &mut desk,
        );
        let out = writer.into_inner();
        assert!(rt;
            answered.is_ok()
                && out.as_slice().starts_with(begin)
                && (out.is_empty() == begin.is_empty())
        );
    }
}

/// A request, where it goes, the status of its answer, and whether that closes the connection.
type OutcomeRow = (&'static [u8], Option<Route>, Option<Action>, u16, bool);

/// Requests by their heads alone, and one that can't be read.
const OUTCOMES: [OutcomeRow; 8] = [
    (
        b"GET /subjects HTTP/1.1\r\nHost: a\r\n\r\n",
        Some(Route::Subjects),
        Some(Action::Subjects),
        200,
        false,
    ),
    (
        b"GET /subjects HTTP/1.0\r\n\r\n",
        Some(Route::Subjects),
        Some(Action::Subjects),
        200,
        true,
    ),
    (
        b"DELETE /subjects/s HTTP/1.1\r\n\r\n",
        Some(Route::Subject),
        Some(Action::DeleteSubject),
        200,
        false,
    ),
    (
        b"PUT /subjects HTTP/1.1\r\n\r\n",
        Some(Route::Subjects),
        None,
        405,
        true,
    ),
    (b"GET /nowhere HTTP/1.1\r\n\r\n", None, None, 404, true),
    (b"GET nowhere HTTP/1.1\r\n\r\n", None, None, 400, true),
    (
        b"POST /subjects/s HTTP/1.1\r\n\r\n",
        Some(Route::Subject),
        Some(Action::Lookup),
        411,
        true,
    ),
    (
        b"GET /subjects HTTP/1.1\r\nContent-Length: x\r\n\r\n",
        None,
        None,
        400,
        true,
    ),
];

/// What became of the one request of a text.
fn outcome_of<R: Clock>(rt: &R, alloc: Global, text: &[u8]) -> Option<RequestOutcome> {
    let ledger = Ledger::new();
    let mut desk = EchoDesk::new(rt, &ledger);
    let mut conversation = Conversation::new(alloc);
    let (mut paths, mut standing) = (None, None);
    if conversation.feed(text).is_err() {
        return None;
    }
    let Some(len) = conversation.front_len() else {
        return None;
    };
    let mut writer = Device::new(Vec::new(alloc));
    match answer_one(
        alloc,
        &mut paths,
        &mut conversation,
        len,
        &mut standing,
        &mut writer,
        &mut desk,
    ) {
        Ok(outcome) => Some(outcome),
        Err(_) => None,
    }
}

#[test]
fn each_request_has_its_outcome(rt: HostRuntime) {
    for (text, route, action, status, closes) in OUTCOMES {
        let wanted = RequestOutcome {
            endpoint: Endpoint { route, action },
            status,
            closes,
        };
        assert_eq!(rt; outcome_of(&rt, rt.alloc(), text), Some(wanted));
    }
}

/// What is answered to the query where no command was done.
const ANSWER: &[u8] =
    b"HTTP/1.1 200 OK\r\nContent-Type: application/vnd.schemaregistry.v1+json\r\nContent-Length: 3\r\n\r\n[0]";

#[test]
fn a_request_is_answered_once_it_is_whole(rt: HostRuntime) {
    let alloc = rt.alloc();
    let ledger = Ledger::new();
    let mut desk = EchoDesk::new(&rt, &ledger);
    let mut held = Conversation::new(alloc);
    let mut paths = None;
    let mut writer = Device::new(Vec::new(alloc));
    let (front, last) = QUERY.split_at(QUERY.len().min(34));
    let (first, rest) = QUERY.split_at(QUERY.len().min(1));
    assert!(rt; held.feed(front) == Ok(()) && held.front_len() == None);
    let goes_on = answer_whole(alloc, &mut paths, &mut held, &mut writer, &mut desk);
    assert!(rt; goes_on == Ok(true));
    assert!(rt; held.feed(last) == Ok(()) && held.feed(first) == Ok(()));
    assert!(rt; held.front_len() == Some(35));
    let goes_on = answer_whole(alloc, &mut paths, &mut held, &mut writer, &mut desk);
    assert!(rt; goes_on == Ok(true) && held.held_len() == 1);
    let goes_on = take_piece(alloc, &mut paths, &mut held, rest, &mut writer, &mut desk);
    assert!(rt; goes_on == Ok(true) && held.held_len() == 0);
    let end = answer_rest(alloc, &mut paths, &mut held, &mut writer, &mut desk);
    let written = writer.into_inner();
    let (one, other) = written.as_slice().split_at(written.len() / 2);
    assert!(rt; end == Ok(()) && one == ANSWER && other == ANSWER);
}
