// `registrylog follow`: nodes over the lines of the standard input.
use crate::ends::{Finished, followed, kept};
use crate::fault::KeepError;
use crate::hearing::CountedLines;
use crate::place::Place;
use crate::watching::SharedBoard;
use reg_follow::serve_lines;
use reg_service::{Endpoints, ServiceError};
use std::alloc::Global;
use std::io::{self, BufReader, Eprint, Read};
use std::net::{Net, TcpListener, TcpStream};
use std::sync::{Arc, Wait};
use std::thread::Threads;
use std::time::Clock;

/// How many bytes of the input are read at a time at most.
pub(crate) const PIECE: usize = 65_536;

/// The ports of the nodes.
#[derive(Drop)]
struct FollowPorts<R: Drop> {
    rt: R,
    alloc: Global,
    place: Place,
    board: SharedBoard,
}

impl<R: Net<Listener = TcpListener, Stream = TcpStream> + Eprint + Drop> Endpoints
    for FollowPorts<R> {
    fn listen(&mut self) -> Result<Vec<TcpListener>, ServiceError> {
        self.place.listen(&self.rt, self.alloc)
    }

    fn ready(&mut self, reached: u64) -> bool {
        self.board.marks.listens.set(true);
        let _told = self
            .rt
            .eprintln(format_args!("following, {reached} lines so far"));
        true
    }
}

/// Serves the lines of the input.
pub(crate) fn follow<
    I: Read + Send + Drop + 'static,
    R: Threads
        + Wait
        + Clock
        + Net<Listener = TcpListener, Stream = TcpStream>
        + Eprint
        + Sync
        + Send
        + Copy
        + Drop
        + 'static,
>(rt: R, alloc: Global, input: I, place: Place, board: SharedBoard) -> io::Result<Finished> {
    let lines = CountedLines::new(rt, input, Arc::try_clone(&board)?);
    let reader = BufReader::with_capacity(alloc, PIECE, lines)?;
    let mut ports = FollowPorts {
        rt,
        alloc,
        place,
        board: Arc::try_clone(&board)?,
    };
    let size = place.size();
    let served = serve_lines(rt, alloc, size, reader, &board.traffic, &mut ports);
    if board.is_whole.is_set() {
        return kept(&rt, Err(KeepError::Whole));
    }
    followed(&rt, served)
}
