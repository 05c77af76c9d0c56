// What an operator watches: whether commands are answered, and the metrics.
use exposition::page_text;
use log_arguments::{LogCommand, VERSION};
use reg_journal::SystemError;
use reg_meters::{Mark, Traffic, microseconds};
use reg_metrics::{
    AdapterMeters, BatchMeters, FileMeters, LineMeters, Marks, Pages, Stage, adapter_families,
    batch_families, file_families, line_families, process_families, process_numbers,
    stage_families, traffic_families,
};
use std::alloc::{Alloc, AllocError, Global};
use std::fs::Files;
use std::io::ErrorKind;
use std::net::SocketAddr;
use std::sync::Arc;
use std::time::Clock;

/// What a process serves.
#[derive(Clone, Copy, Debug, PartialEq, Eq)]
pub(crate) enum Served {
    /// The log of a file.
    Kept,
    /// The lines of the input.
    Followed,
    /// A shared log.
    Joined,
}

impl Served {
    /// Returns the command that serves it.
    fn command(self) -> &'static str {
        match self {
            Served::Kept => "keep",
            Served::Followed => "follow",
            Served::Joined => "join",
        }
    }
}

/// The state of a serving process, and its numbers.
#[derive(Drop)]
pub(crate) struct Board {
    pub(crate) marks: Marks,
    pub(crate) traffic: Traffic,
    pub(crate) batches: BatchMeters,
    /// Only for `keep`.
    pub(crate) file: FileMeters,
    /// Whether the disk of a kept log, or its owner's quota of it, is used up.
    pub(crate) is_disk_full: Mark,
    pub(crate) is_quota_used_up: Mark,
    /// Only for `follow`.
    pub(crate) lines: LineMeters,
    /// Whether a line behind those says where they end.
    pub(crate) is_whole: Mark,
    /// Only for `join`.
    pub(crate) adapter: AdapterMeters,
}

impl Board {
    /// Notes that the disk or the owner's quota is used up.
    pub(crate) fn ran_out(&self, error: SystemError) {
        match error.kind {
            ErrorKind::QuotaExceeded => self.is_quota_used_up.set(true),
            _ => self.is_disk_full.set(true),
        }
    }

    /// Returns that the disk or the owner's quota is used up, if that was noted.
    pub(crate) fn full_disk(&self) -> Option<SystemError> {
        let kind = if self.is_disk_full.is_set() {
            ErrorKind::StorageFull
        } else if self.is_quota_used_up.is_set() {
            ErrorKind::QuotaExceeded
        } else {
            return None;
        };
        Some(SystemError { kind, number: None })
    }
}

/// The board of a process, shared by its threads.
pub(crate) type SharedBoard = Arc<Board, Global>;

/// Makes the board of a process that begins now.
pub(crate) fn make_board<R: Clock>(rt: &R, alloc: Global) -> Result<SharedBoard, AllocError> {
    let board = Board {
        marks: Marks::new(),
        traffic: Traffic::new(),
        batches: BatchMeters::new(),
        file: FileMeters::new(),
        is_disk_full: Mark::new(),
        is_quota_used_up: Mark::new(),
        lines: LineMeters::new(),
        is_whole: Mark::new(),
        adapter: AdapterMeters::new(),
    };
    let begun = date(rt);
    board.lines.last.set(begun);
    board.adapter.last.set(begun);
    Ok(Arc::new(alloc, board)?)
}

/// Returns the microseconds since 1970; 0 if there is no clock.
pub(crate) fn date<R: Clock>(rt: &R) -> u64 {
    match rt.since_1970() {
        Ok(date) => date
            .as_secs()
            .saturating_mul(1_000_000)
            .saturating_add(u64::from(date.subsec_micros())),
        Err(_) => 0,
    }
}

/// What is shown of a process.
#[derive(Drop)]
pub(crate) struct Shown<R: Drop> {
    rt: R,
    board: SharedBoard,
    served: Served,
}

impl<R: Drop> Shown<R> {
    pub(crate) fn new(rt: R, board: &SharedBoard, served: Served) -> Result<Shown<R>, AllocError> {
        let board = Arc::try_clone(board)?;
        Ok(Shown { rt, board, served })
    }
}

impl<R: Files + Alloc + Clock + Clone + Drop> Pages for Shown<R> {
    fn metrics(&self, alloc: Global) -> Result<Vec<u8>, AllocError> {
        let board = &self.board;
        let command = self.served.command();
        let mut families = Vec::new(alloc);
        stage_families(alloc, VERSION, command, self.stage(), &mut families)?;
        traffic_families(alloc, &board.traffic, &mut families)?;
        match self.served {
            Served::Kept => {
                batch_families(alloc, &board.batches, &mut families)?;
                file_families(alloc, &board.file, &mut families)?;
            }
            Served::Followed => line_families(alloc, &board.lines, &mut families)?,
            Served::Joined => {
                batch_families(alloc, &board.batches, &mut families)?;
                adapter_families(alloc, &board.adapter, &mut families)?;
            }
        }
        if let Some((numbers, begun)) = process_numbers(&self.rt) {
            process_families(alloc, &numbers, begun, &mut families)?;
        }
        page_text(alloc, &families)
    }

    fn stage(&self) -> Stage {
        let is_away = self.board.adapter.is_away(microseconds(&self.rt));
        self.board.marks.condition(is_away).stage()
    }
}

/// Returns what a command serves, and the address where its metrics are shown, if it has one.
pub(crate) fn shown_by(command: &LogCommand<'_>) -> Option<(Served, SocketAddr)> {
    match command {
        LogCommand::Keep { metrics, .. } => metrics.map(|address| (Served::Kept, address)),
        LogCommand::Follow { metrics, .. } => metrics.map(|address| (Served::Followed, address)),
        LogCommand::Join { metrics, .. } => metrics.map(|address| (Served::Joined, address)),
        _ => None,
    }
}
