// A worker: it answers the requests that are whole, of one connection after the other.
ghost use Rattle.std.specs.Prelude.{◌≡◌, ◌≤◌, [], Some, length, take, IfOk, OnErr, OnOk, vec_capacity};
ghost use Rattle.reg_messages.specs.Head.{front_of};
ghost use Rattle.reg_messages.specs.Reading.{IsShort};
ghost use Rattle.reg_messages.specs.Extent.{IsWhole};
ghost use Rattle.reg_conversation.specs.Conversation.{EndsAs, RepliesAll};
ghost use Rattle.reg_connection.specs.Answering.{AnswersKnowing, HasLearnt};
ghost use Rattle.reg_connection.specs.TurnKinds.{kind_in};
ghost use Rattle.reg_serve.specs.Ready.{IsReady};

use crate::shared_state::{Returned, SharedState};
use crate::turns::{Leave, take_up};
use reg_connection::{
    Connection, Stream, Turn, TurnKind, answer_last, answer_one, send_some, turn_kind,
};
use reg_conversation::SharedDesk;
use reg_http::{Paths, RequestOutcome, ServeError};
use reg_meters::{Traffic, microseconds};
use reg_records::Device;
use std::alloc::{AllocError, Global};
use std::mem;
use std::net::TcpStream;
use std::sync::Wait;
use std::time::Clock;

/// The bytes of one read.
pub(crate) const READ_SIZE: usize = 16_384;

/// How many bytes of answers are gathered before they are written, to within an answer. Then the
/// connection goes behind those that are ready.
const GATHERED: usize = 65_536;

/// How many times in a row a worker finds a worker for each connection that is ready, before it stays
/// with its own.
const CALM: u64 = 3;

/// What a worker keeps from one connection to the next.
#[derive(Drop)]
pub(crate) struct WorkerState {
    paths: Option<Paths>,
    /// Answers that aren't sent yet.
    out: Vec<u8>,
    buffer: Vec<u8>,
    /// How many times in a row each connection that was ready had a worker.
    calm: u64,
}

impl WorkerState {
    /// Makes a worker's, which reads into that buffer. If memory for the paths is refused, the first
    /// request asks for it again.
    pub(crate) fn new(alloc: Global, buffer: Vec<u8>) -> WorkerState {
        WorkerState {
            paths: Paths::new(alloc).ok(),
            out: Vec::new(alloc),
            buffer,
            calm: 0,
        }
    }
}

/// Makes a buffer for a worker to read into. The only error is out of memory.
pub(crate) fn read_buffer(alloc: Global) -> Result<Vec<u8>, AllocError> {
    let mut buffer = Vec::new(alloc);
    buffer.resize(READ_SIZE, 0u8)?;
    Ok(buffer)
}

/// How the answers of one turn end.
#[derive(Clone, Copy, PartialEq, Eq)]
enum Answered {
    /// No other request is whole.
    All,
    /// The last answer closes the connection.
    Closes,
    /// As much was answered as one turn may, or the next request takes a turn of commands.
    Full,
    /// The next request takes a turn of that kind, and none is free.
    Waits(TurnKind),
    /// An answer found no room, or there is none for the next one.
    Failed,
}

/// What becomes of a connection after a turn.
#[derive(Clone, Copy, PartialEq, Eq)]
enum After {
    /// Its next request is waited for.
    Rests,
    /// It goes behind those that are ready.
    GoesOn,
    /// It waits for a turn.
    Queues(TurnKind),
    /// The poller waits for its client.
    Returns,
    /// It is closed.
    Over,
}

/// Attends to the connections that are ready, one after the other, until there is nothing more to do.
pub(crate) fn work<R: Wait + Clock, D: SharedDesk>(
    rt: &R,
    alloc: Global,
    shared: &SharedState<D::Standing>,
    traffic: &Traffic,
    state: &mut WorkerState,
    desk: &mut D,
) {
    for _ in rt.forever() {
        let Some(connection) = shared.take(rt) else {
            return;
        };
        serve_connection(rt, alloc, shared, traffic, state, desk, connection);
    }
}

/// Answers what is whole on a connection, and stays with it while each other one that is ready has a
/// worker, once that was so some times in a row. Before it leaves one it looks whether more has come.
fn serve_connection<R: Wait + Clock, D: SharedDesk>(
    rt: &R,
    alloc: Global,
    shared: &SharedState<D::Standing>,
    traffic: &Traffic,
    state: &mut WorkerState,
    desk: &mut D,
    connection: Connection<TcpStream, D::Standing>,
) {
    let mut connection = connection;
    let mut stays = false;
    let mut after = After::GoesOn;
    for _ in 0..u64::MAX {
        after = take_turn(rt, alloc, shared, traffic, state, desk, &mut connection);
        if after == After::GoesOn && shared.is_calm() {
            continue;
        }
        if after != After::Rests {
            break;
        }
        if !is_lull(shared, state) {
            if !stays {
                after = look(state, &mut connection);
            }
            break;
        }
        if !stays && !stay(shared, &mut connection) {
            after = After::Over;
            break;
        }
        stays = true;
        match connection.receive(&mut state.buffer) {
            Turn::Ready => {}
            Turn::Over => {
                after = After::Over;
                break;
            }
            Turn::Waits | Turn::Again => break,
        }
    }
    if stays && connection.stream.set_patient(false).is_err() {
        after = After::Over;
    }
    leave(rt, shared, connection, after);
}

/// Reads once what is there of the next request, so that the poller needn't look before anything comes.
fn look<T: Drop>(state: &mut WorkerState, connection: &mut Connection<TcpStream, T>) -> After {
    match connection.receive(&mut state.buffer) {
        Turn::Ready => After::GoesOn,
        Turn::Over => After::Over,
        Turn::Waits | Turn::Again => After::Rests,
    }
}

/// Answers what is whole, and sends it.
fn take_turn<R: Wait + Clock, D: SharedDesk>(
    rt: &R,
    alloc: Global,
    shared: &SharedState<D::Standing>,
    traffic: &Traffic,
    state: &mut WorkerState,
    desk: &mut D,
    connection: &mut Connection<TcpStream, D::Standing>,
) -> After {
    let mut answered = Answered::All;
    for _ in 0..u64::MAX {
        match answer_in_turn(rt, alloc, shared, traffic, state, desk, connection) {
            None => {}
            Some(last) => {
                answered = last;
                break;
            }
        }
    }
    let after = send_out(alloc, state, connection, answered);
    if state.out.capacity() > 2 * GATHERED {
        state.out = Vec::new(alloc);
    }
    state.out.clear();
    after
}

/// Answers the next request. None where this isn't the end of the turn.
fn answer_in_turn<R: Wait + Clock, D: SharedDesk>(
    rt: &R,
    alloc: Global,
    shared: &SharedState<D::Standing>,
    traffic: &Traffic,
    state: &mut WorkerState,
    desk: &mut D,
    connection: &mut Connection<TcpStream, D::Standing>,
) -> Option<Answered> {
    let Some(len) = connection.conversation.front_len() else {
        return Some(answer_end(rt, alloc, traffic, state, desk, connection));
    };
    let leave = match be_ready(rt, shared, state, connection) {
        Ok(leave) => leave,
        Err(last) => return Some(last),
    };
    let before = state.out.len();
    let begun = microseconds(rt);
    let answered = answer_front(alloc, state, desk, connection, len, &leave);
    if let Ok(outcome) = &answered {
        count_answer(
            rt,
            traffic,
            outcome,
            len,
            answered_since(state, before),
            begun,
        );
    }
    end_turn(rt, shared, leave);
    match answered {
        Ok(outcome) => {
            if outcome.closes {
                Some(Answered::Closes)
            } else if state.out.len() >= GATHERED {
                Some(Answered::Full)
            } else {
                None
            }
        }
        Err(_) => Some(Answered::Failed),
    }
}

/// How many bytes of answers stand behind so many.
fn answered_since(state: &WorkerState, before: usize) -> usize {
    state.out.len().saturating_sub(before)
}

/// Counts a request of so many bytes, of which that became, with so many bytes of answer, which was begun at that moment.
fn count_answer<R: Clock>(
    rt: &R,
    traffic: &Traffic,
    outcome: &RequestOutcome,
    request: usize,
    response: usize,
    begun: u64,
) {
    let took = microseconds(rt).saturating_sub(begun);
    traffic.count(outcome.endpoint, outcome.status, request, response, took);
}

/// Answers the request at the front, behind the answers that are gathered. Where that fails these stay as they are. A command is done with
/// a turn of commands alone, once all answers before it are sent, and where there is room for its own.
fn answer_front<D: SharedDesk>(
    alloc: Global,
    state: &mut WorkerState,
    desk: &mut D,
    connection: &mut Connection<TcpStream, D::Standing>,
    len: usize,
    leave: &Option<Leave>,
) -> Result<RequestOutcome, ServeError>
    requires fits { len ≤ length connection.old.conversation }
    requires whole { IsWhole (take len connection.old.conversation) }
    requires ready { IsReady GATHERED connection.old.conversation state.old.out.items (vec_capacity state.old.out) leave.now }
    ensures answered { IfOk result (AnswersKnowing D.asks D.commands D.stands D.learns desk.old connection.old.standing
        connection.old.conversation (Some state.old.out.items) (Some state.new.out.items)
        connection.new.standing connection.new.conversation desk.new) }
    ensures failed { OnErr result (state.new.out.items ≡ state.old.out.items) }
{
    let whole = state.out.len();
    let mut out = Device::new(mem::replace(&mut state.out, Vec::new(alloc)));
    let answered = answer_one(
        alloc,
        &mut state.paths,
        &mut connection.conversation,
        len,
        &mut connection.standing,
        &mut out,
        desk,
    );
    state.out = out.into_inner();
    if answered.is_err() {
        state.out.truncate(whole);
    }
    answered
}

/// No request is whole: where the client has ended its side, what is held is answered, and the connection
/// closes.
fn answer_end<R: Clock, D: SharedDesk>(
    rt: &R,
    alloc: Global,
    traffic: &Traffic,
    state: &mut WorkerState,
    desk: &mut D,
    connection: &mut Connection<TcpStream, D::Standing>,
) -> Answered {
    if !connection.ended {
        return Answered::All;
    }
    let before = state.out.len();
    let begun = microseconds(rt);
    let held = connection.conversation.held_len();
    if connection.conversation.front_len().is_some() {
        return Answered::Closes;
    }
    match answer_rest(alloc, state, desk, connection) {
        Ok(Some(outcome)) => {
            count_answer(
                rt,
                traffic,
                &outcome,
                held,
                answered_since(state, before),
                begun,
            );
            Answered::Closes
        }
        Ok(None) => Answered::Closes,
        Err(_) => Answered::Failed,
    }
}

/// Answers what is held, which is short of a request, behind the answers that are gathered. Where that fails these stay as they are.
fn answer_rest<D: SharedDesk>(
    alloc: Global,
    state: &mut WorkerState,
    desk: &mut D,
    connection: &mut Connection<TcpStream, D::Standing>,
) -> Result<Option<RequestOutcome>, ServeError>
    requires short { IsShort (front_of connection.old.conversation) }
    ensures answered { OnOk result ((told : D) × HasLearnt D.learns desk.old connection.old.standing told
        × RepliesAll D.asks D.commands told connection.old.conversation (Some state.old.out.items) (Some state.new.out.items) desk.new) }
    ensures outcome { IfOk result (EndsAs connection.old.conversation (Some state.old.out.items) (Some state.new.out.items)) }
    ensures failed { OnErr result (state.new.out.items ≡ state.old.out.items) }
{
    let whole = state.out.len();
    let mut out = Device::new(mem::replace(&mut state.out, Vec::new(alloc)));
    let answered = answer_last(
        alloc,
        &mut state.paths,
        &mut connection.conversation,
        &mut connection.standing,
        &mut out,
        desk,
    );
    state.out = out.into_inner();
    if answered.is_err() {
        state.out.truncate(whole);
    }
    answered
}

/// The turn that the request at the front takes, by its method and its target. Where a worker couldn't have the memory for its table of
/// paths at its start, each request takes a turn of commands until an answer has made that table.
fn kind_of_turn<T: Drop>(
    state: &WorkerState,
    connection: &Connection<TcpStream, T>,
) -> Option<TurnKind>
    ensures { kind_in connection.now.conversation ≡ Some TurnKind.Command → result ≡ Some TurnKind.Command }
{
    match &state.paths {
        Some(paths) => turn_kind(paths, connection.conversation.bytes()),
        None => Some(TurnKind::Command),
    }
}

/// The turn that the request at the front takes, once that is begun and the request may be done: where its connection was given one
/// while it waited, it is that. Else how the answers of this turn end.
fn be_ready<R: Wait, T: Drop>(
    rt: &R,
    shared: &SharedState<T>,
    state: &mut WorkerState,
    connection: &mut Connection<TcpStream, T>,
) -> Result<Option<Leave>, Answered>
    ensures held { connection.new.conversation ≡ connection.old.conversation }
    ensures ready { IfOk result (λ leave. IsReady GATHERED connection.old.conversation state.new.out.items (vec_capacity state.new.out) leave) }
{
    let kind = kind_of_turn(state, connection);
    let held = take_up(connection);
    match kind {
        Some(kind) => match begin_turn(rt, shared, state, held, kind) {
            Ok(leave) => Ok(Some(leave)),
            Err(last) => Err(last),
        },
        None => {
            end_turn(rt, shared, held);
            Ok(None)
        }
    }
}

/// Begins a turn of that kind, where the worker hasn't one. `Err` says how the answers of this turn end. What is answered is sent before
/// a command, which may wait, and a command is done only once there is room for its answer.
fn begin_turn<R: Wait, T: Drop>(
    rt: &R,
    shared: &SharedState<T>,
    state: &mut WorkerState,
    held: Option<Leave>,
    kind: TurnKind,
) -> Result<Leave, Answered>
    ensures turn { IfOk result (λ leave. leave.kind ≡ kind) }
    ensures all_sent { OnOk result (kind ≡ TurnKind.Command → state.new.out.items ≡ []) }
    ensures room { OnOk result (kind ≡ TurnKind.Command → GATHERED ≤ vec_capacity state.new.out) }
{
    if kind == TurnKind::Command {
        if !state.out.is_empty() {
            end_turn(rt, shared, held);
            return Err(Answered::Full);
        }
        if state.out.reserve(GATHERED).is_err() {
            end_turn(rt, shared, held);
            return Err(Answered::Failed);
        }
    }
    match held {
        Some(leave) => {
            if leave.kind() == kind {
                return Ok(leave);
            }
            end_turn(rt, shared, Some(leave));
        }
        None => {}
    }
    match shared.turns.begin(rt, kind) {
        Some(leave) => Ok(leave),
        None => Err(Answered::Waits(kind)),
    }
}

/// Ends a turn, and hands a connection that waits for one to the workers.
fn end_turn<R: Wait, T: Drop>(rt: &R, shared: &SharedState<T>, leave: Option<Leave>) {
    let Some(leave) = leave else {
        return;
    };
    if let Some(next) = shared.turns.end(rt, leave) {
        let place = next.place;
        if !shared.hand(rt, next) {
            shared.give_back(
                rt,
                Returned {
                    place,
                    connection: None,
                },
            );
        }
    }
}

/// Sends what was answered, and says what becomes of the connection. Where an answer failed, those before it are sent, and the
/// connection closes.
fn send_out<T: Drop>(
    alloc: Global,
    state: &mut WorkerState,
    connection: &mut Connection<TcpStream, T>,
    answered: Answered,
) -> After {
    let closes = answered == Answered::Closes || answered == Answered::Failed;
    let mut sent = 0;
    match send_some(&mut connection.stream, &state.out, &mut sent) {
        Ok(true) => {}
        Ok(false) => {
            let answers = mem::replace(&mut state.out, Vec::new(alloc));
            connection.keep(answers, sent, closes);
            return After::Returns;
        }
        Err(_) => return After::Over,
    }
    match answered {
        Answered::All => After::Rests,
        Answered::Full => After::GoesOn,
        Answered::Waits(kind) => After::Queues(kind),
        Answered::Closes | Answered::Failed => closed(connection),
    }
}

/// What becomes of a connection whose last answer is sent.
fn closed<T: Drop>(connection: &mut Connection<TcpStream, T>) -> After {
    match connection.close() {
        Turn::Over => After::Over,
        Turn::Waits | Turn::Again | Turn::Ready => After::Returns,
    }
}

/// Whether each connection that was ready has had a worker for some times in a row.
fn is_lull<T: Drop>(shared: &SharedState<T>, state: &mut WorkerState) -> bool {
    if !shared.is_calm() {
        state.calm = 0;
        return false;
    }
    if state.calm < CALM {
        state.calm += 1;
        return false;
    }
    true
}

/// Takes the connection out of the poll, so that its reads may wait.
fn stay<T: Drop>(shared: &SharedState<T>, connection: &mut Connection<TcpStream, T>) -> bool {
    shared.unwatch(connection) && connection.stream.set_patient(true).is_ok()
}

/// Leaves a connection to the poller, to another worker, or to its turn.
fn leave<R: Wait, T: Drop>(
    rt: &R,
    shared: &SharedState<T>,
    connection: Connection<TcpStream, T>,
    after: After,
) {
    let place = connection.place;
    let returned = match after {
        After::Rests | After::Returns => Some(connection),
        After::Over => None,
        After::GoesOn => {
            if shared.hand(rt, connection) {
                return;
            }
            None
        }
        After::Queues(kind) => match shared.turns.wait(rt, kind, connection) {
            Ok(None) => return,
            Ok(Some(connection)) => {
                if shared.hand(rt, connection) {
                    return;
                }
                None
            }
            Err(AllocError) => None,
        },
    };
    shared.give_back(
        rt,
        Returned {
            place,
            connection: returned,
        },
    );
}
