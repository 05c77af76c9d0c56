// A process over a shared log: the base, the history, and then the ports.
ghost use Rattle.std.specs.Prelude.{◌≡◌, ◌≤◌, [], IfOk};
ghost use Rattle.reg_topic.specs.Topic.{topic_from};
ghost use Rattle.reg_shared.specs.Held.{held_of};
ghost use Rattle.reg_join_service.specs.Base.{BeginsWith, MayBegin};

use crate::base::{Base, read_base};
use crate::desks::{make_desks, waits_of};
use crate::error::JoinError;
use crate::following::Following;
use crate::history::{end_of, take_history};
use crate::opening::{OpenedBase, open_base};
use crate::size::joined_size;
use crate::taking::Taker;
use crate::talking::start_talking;
use crate::watch::Watch;
use reg_adapter_line::{AdapterChain, AdapterLine, LineEnd, Overhear};
use reg_chain::Chain;
use reg_feed::{Copies, FeedName, Stored, Unnamed};
use reg_join_desk::{JoinedPen, SharedCheck};
use reg_meters::Traffic;
use reg_pen::Pass;
use reg_records::Device;
use reg_service::{Endpoints, ServiceError, Size, serve_desks};
use reg_shared::Shared;
use reg_topic::Item;
use std::alloc::Global;
use std::hash::RandomState;
use std::io::{BufRead, Write};
use std::marker::Brand;
use std::mem;
use std::net::Net;
use std::random::RandomSource;
use std::sync::{Arc, Mutex, Wait};
use std::thread::Threads;
use std::time::{Clock, Duration};

/// How long a command waits for an answer of the adapter, in seconds.
const ANSWER_WITHIN: u64 = 30;

/// How long a registration of what is live waits for an answer to a check, in milliseconds. Without
/// one it is told the id that it has here.
const LIVE_WITHIN: u64 = 300;

/// How long a check for lookups waits for an answer, in seconds. A command may have to wait for the
/// check.
const CHECKED_WITHIN: u64 = 1;

/// Serves a log that other processes write too. The adapter tells it on `reader`, and is asked to
/// append on `writer`. First comes the base, then what is behind it; the ports listen once all that
/// was told before `ready` is taken in. A port has from 2 to 16 workers, of which all but one may
/// wait for the log. The log is asked for news if it wasn't for `every`; for `None`, only if a lookup
/// waits for them. `traffic` counts the connections and requests of all ports, and `overhear` hears
/// all messages to and from the adapter.
///
/// With a limit the call returns once all ports have ended. Without one it returns once the adapter
/// tells no more; after `ready`, the end of the input isn't an error.
///
/// Fails if the base can't be served, if the adapter ends before `ready` or with a fault, if the
/// ports can't be started, or if memory is refused.
pub fn serve_joined<
    B: BufRead + Send + Drop + 'static,
    O: Write + Send + Drop + 'static,
    R: Threads + Wait + Clock + Net + RandomSource + Sync + Send + Copy + Drop + 'static,
    H: Overhear + Send + Sync + Drop + 'static,
    W: Watch + Sync,
    E: Endpoints,
>(
    rt: R,
    alloc: Global,
    size: Size,
    every: Option<Duration>,
    reader: B,
    writer: O,
    overhear: &Arc<H, Global>,
    traffic: &Traffic,
    watch: &W,
    endpoints: &mut E,
) -> Result<(), JoinError> {
    let mut device = Device::new(reader);
    let base = read_base(alloc, &mut device)?;
    let mut adapter = Some(Adapter {
        reader: device.into_inner(),
        writer,
    });
    serve_base::<Brand, B, O, R, H, W, E>(
        &rt,
        alloc,
        joined_size(size),
        every,
        Unnamed::new(),
        base,
        &mut adapter,
        overhear,
        traffic,
        watch,
        endpoints,
    )
}

/// The two ends of the adapter: its messages come from `reader`, and requests go to `writer`.
#[derive(Drop)]
struct Adapter<B: Drop, O: Drop> {
    reader: B,
    writer: O,
}

/// Opens the pen over a base, starts to talk with the adapter, and goes on with the history.
// The adapter is lent and taken out, since the prover covers no function that owns what holds a
// type parameter and names types made of one; `held` is lent below for the same reason.
fn serve_base<
    N: FeedName<Item, Shared> + Send + Sync,
    B: BufRead + Send + Drop + 'static,
    O: Write + Send + Drop + 'static,
    R: Threads + Wait + Clock + Net + RandomSource + Sync + Send + Copy + Drop + 'static,
    H: Overhear + Send + Sync + Drop + 'static,
    W: Watch + Sync,
    E: Endpoints,
>(
    rt: &R,
    alloc: Global,
    size: Size,
    every: Option<Duration>,
    list: Unnamed<Item>,
    base: Base,
    adapter: &mut Option<Adapter<B, O>>,
    overhear: &Arc<H, Global>,
    traffic: &Traffic,
    watch: &W,
    endpoints: &mut E,
) -> Result<(), JoinError>
    requires name { (list.reached.book ≡ N.book) × (N.first ≡ held_of (topic_from base.log.records.items base.log.next base.log.floor)) }
    requires begins { MayBegin base.log }
    requires begun { BeginsWith base.log base.begun }
{
    let next = base.log.next;
    let Ends { line, chain, rest } = ends_behind(*rt, alloc, next)?;
    // A pass and a reader for each desk, and for what takes in.
    let count = size.desks().saturating_add(1);
    let opened = open_base::<N, AdapterChain<R>, R>(*rt, alloc, list, base, chain, count)?;
    let mut held = hold(alloc, opened, next, rest)?;
    if let Some(Adapter { reader, writer }) = adapter.take() {
        start_talking(*rt, alloc, reader, writer, &line, overhear)?;
    }
    serve_history(
        rt, alloc, size, every, &line, &mut held, traffic, watch, endpoints,
    )
}

/// The line to an adapter, and two ends of the chain behind it.
#[derive(Drop)]
struct Ends<R: Wait + Clock + Drop> {
    line: Arc<AdapterLine, Global>,
    chain: AdapterChain<R>,
    rest: AdapterChain<R>,
}

/// Makes a line to an adapter on which nothing was said yet, behind a base with this next offset.
fn ends_behind<R: Wait + Clock + Copy + Drop>(
    rt: R,
    alloc: Global,
    next: u64,
) -> Result<Ends<R>, ServiceError>
    ensures { IfOk result (λ ends. ends.chain ≡ []) }
{
    let line = Arc::new(alloc, AdapterLine::new(alloc, next))?;
    let patience = Duration::from_secs(ANSWER_WITHIN);
    let brief = Duration::from_millis(LIVE_WITHIN);
    let chain = AdapterChain::of_pen(rt, alloc, Arc::try_clone(&line)?, patience, brief);
    let patience = Duration::from_secs(CHECKED_WITHIN);
    let rest = AdapterChain::new(rt, alloc, Arc::try_clone(&line)?, patience);
    Ok(Ends { line, chain, rest })
}

/// The pen, what takes in batches, and the passes of the desks.
#[derive(Drop)]
struct Held<
    N: FeedName<Item, Shared>,
    S: Copies<Item, Shared, N>,
    C: Chain + Drop,
    R: Wait + Drop,
> {
    pen: Mutex<JoinedPen<N, S, C, R>>,
    taker: Mutex<Taker<N, S, C>>,
    passes: Vec<Pass<N>>,
}

/// Gives what takes in batches one of the passes and a reader of its own.
fn hold<N: FeedName<Item, Shared>, C: Chain + Drop, R: Wait + Drop>(
    alloc: Global,
    opened: OpenedBase<N, C, R>,
    next: u64,
    rest: C,
) -> Result<Held<N, Stored<Item, Shared, N>, C, R>, ServiceError> {
    let OpenedBase {
        mut pen,
        mut passes,
    } = opened;
    let pass = passes.pop().ok_or(ServiceError::NoPlace)?;
    let list = pen.reader()?;
    let taker = Taker::new(alloc, pass, list, next, rest);
    Ok(Held {
        pen: Mutex::new(pen),
        taker: Mutex::new(taker),
        passes,
    })
}

/// Takes in the history and serves at the ports until they end. Fails if the adapter ended for
/// another reason than the end of the input.
fn serve_history<
    N: FeedName<Item, Shared> + Send + Sync,
    S: Copies<Item, Shared, N> + Send + Sync,
    C: Chain + Send + Drop,
    R: Threads + Wait + Clock + Net + RandomSource + Sync + Send + Copy + Drop,
    W: Watch + Sync,
    E: Endpoints,
>(
    rt: &R,
    alloc: Global,
    size: Size,
    every: Option<Duration>,
    line: &AdapterLine,
    held: &mut Held<N, S, C, R>,
    traffic: &Traffic,
    watch: &W,
    endpoints: &mut E,
) -> Result<(), JoinError>
    requires floor { N.first.kept.floor ≤ N.first.next }
{
    take_history(rt, line, held.taker.get_mut(), held.pen.get_mut(), watch)?;
    serve_held(
        rt, alloc, size, every, line, held, traffic, watch, endpoints,
    )?;
    match end_of(rt, line) {
        LineEnd::Input => Ok(()),
        end => Err(JoinError::Adapter(end)),
    }
}

/// Makes the desks and serves at the ports, while what is told is taken in.
fn serve_held<
    'a,
    N: FeedName<Item, Shared> + Send + Sync,
    S: Copies<Item, Shared, N> + Send + Sync,
    C: Chain + Send + Drop,
    R: Threads + Wait + Clock + Net + RandomSource + Sync + Send + Copy + Drop,
    W: Watch + Sync,
    E: Endpoints,
>(
    rt: &'a R,
    alloc: Global,
    size: Size,
    every: Option<Duration>,
    line: &'a AdapterLine,
    held: &mut Held<N, S, C, R>,
    traffic: &Traffic,
    watch: &'a W,
    endpoints: &mut E,
) -> Result<(), ServiceError>
    requires floor { N.first.kept.floor ≤ N.first.next }
{
    let next = held.taker.get_mut().next();
    let mut passes = mem::replace(&mut held.passes, Vec::new(alloc));
    let keys = RandomState::new(rt)?;
    let waits = waits_of(alloc, size)?;
    let check = SharedCheck::new();
    let following = Following {
        rt,
        line,
        pen: &held.pen,
        taker: &held.taker,
        check: &check,
        every,
        watch,
    };
    let mut desks = make_desks(&following, alloc, size, &waits, &mut passes, keys)?;
    serve_desks(
        rt,
        alloc,
        size,
        traffic,
        &mut desks,
        endpoints,
        next,
        Some(&following),
    )
}
