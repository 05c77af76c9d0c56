// What is tried over sockets.
use crate::counting::count_all;
use crate::crowd::visit_nodes;
use crate::crowded::look_beside;
use crate::holding::play_held;
use crate::kept::play_kept;
use crate::rows::{play_pages, play_rows};
use crate::serve::{play_clients, send_pieces};
use crate::slow::work_beside_checks;
use std::alloc::Global;
use std::io;
use std::net::{Net, SocketAddr, TcpListener, TcpStream};
use std::random::RandomSource;
use std::sync::Wait;
use std::thread::Threads;
use std::time::Clock;
use test_tools::Tally;

/// What nodes and their clients run on.
pub(crate) trait Machine: Threads
    + Wait
    + Clock
    + Net<Listener = TcpListener, Stream = TcpStream>
    + RandomSource
    + Sync {}

impl<
    R: Threads
        + Wait
        + Clock
        + Net<Listener = TcpListener, Stream = TcpStream>
        + RandomSource
        + Sync,
> Machine for R {}

/// What is tried.
#[derive(Clone, Copy)]
pub(crate) enum Trial {
    Clients,
    Counted,
    Crowd,
    Crowded,
    Held,
    Kept,
    /// At that address.
    Pages(SocketAddr),
    Pieces,
    Rows,
    Slow,
}

/// Counts what comes of each case.
fn go<R: Machine>(alloc: Global, rt: &R, trial: Trial, tally: &mut Tally) -> io::Result<()> {
    match trial {
        Trial::Clients => play_clients(alloc, rt, tally),
        Trial::Counted => count_all(alloc, rt, tally),
        Trial::Crowd => visit_nodes(alloc, rt, tally),
        Trial::Crowded => look_beside(alloc, rt, tally),
        Trial::Held => play_held(alloc, rt, tally),
        Trial::Kept => play_kept(alloc, rt, tally),
        Trial::Pages(address) => play_pages(alloc, rt, address, tally),
        Trial::Pieces => send_pieces(alloc, rt, tally),
        Trial::Rows => play_rows(alloc, rt, tally),
        Trial::Slow => work_beside_checks(alloc, rt, tally),
    }
}

/// What comes of a trial. A test calls it, and names these bounds by it.
pub(crate) fn tried<
    R: Threads
        + Wait
        + Clock
        + Net<Listener = TcpListener, Stream = TcpStream>
        + RandomSource
        + Sync,
>(alloc: Global, rt: &R, trial: Trial) -> io::Result<Tally> {
    let mut tally = Tally::new(alloc);
    go(alloc, rt, trial, &mut tally)?;
    Ok(tally)
}
