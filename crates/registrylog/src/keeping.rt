// `registrylog keep`: nodes over a log in a file.
use crate::fault::KeepError;
use crate::metered::MeteredFile;
use crate::opening::{Locked, check_no_end, open_file, start_log, sync_folder};
use crate::place::Place;
use crate::progress::Progress;
use crate::telling::Telling;
use crate::watching::SharedBoard;
use reg_file_keep::{LogKeep, Started, start_closed};
use reg_inspection::obstacles;
use reg_journal::{Disk, StoredFile, SystemError, look};
use reg_pen::{KeptLog, Told};
use reg_records::Log;
use reg_service::{Endpoints, ServiceError};
use std::alloc::Global;
use std::fmt;
use std::fs::{File, Files};
use std::io::Eprint;
use std::net::{Net, TcpListener, TcpStream};
use std::sync::Arc;
use std::thread::Threads;
use std::time::Clock;

/// The ports of the nodes.
#[derive(Drop)]
pub(crate) struct KeepPorts<R: Drop> {
    rt: R,
    alloc: Global,
    place: Place,
    /// What was read of the log: its records and its bytes.
    records: u64,
    bytes: u64,
    progress: Option<Progress>,
    /// Whether the log was made by this start.
    is_new: bool,
    board: SharedBoard,
}

impl<R: Drop> KeepPorts<R> {
    pub(crate) fn new(
        rt: R,
        alloc: Global,
        place: Place,
        progress: Progress,
        is_new: bool,
        board: SharedBoard,
    ) -> KeepPorts<R> {
        KeepPorts {
            rt,
            alloc,
            place,
            records: 0,
            bytes: 0,
            progress: Some(progress),
            is_new,
            board,
        }
    }

    /// Notes how many bytes will be read.
    fn has_size(&self, bytes: u64) {
        if let Some(progress) = &self.progress {
            progress.has_size(bytes);
        }
    }

    /// Notes that the log was read, from so many lines and bytes.
    fn has_read(&mut self, log: &Log, lines: u64, bytes: u64) {
        if let Some(progress) = &self.progress {
            progress.has_read(lines, bytes);
        }
        self.records = log.records.len() as u64;
        self.bytes = bytes;
        self.board.file.lines.set(lines);
        self.board.file.bytes.set(bytes);
        self.board.file.next.set(log.next);
    }
}

impl<R: Net<Listener = TcpListener, Stream = TcpStream> + Threads + Eprint + Clock + Drop> Endpoints
    for KeepPorts<R> {
    fn listen(&mut self) -> Result<Vec<TcpListener>, ServiceError> {
        self.place.listen(&self.rt, self.alloc)
    }

    fn ready(&mut self, reached: u64) -> bool {
        let (records, bytes) = (self.records, self.bytes);
        if let Some(progress) = self.progress.take() {
            progress.end(&self.rt);
        }
        self.board.marks.listens.set(true);
        if self.is_new {
            let _told = self.rt.eprintln("made a new log");
        }
        let _told = self.rt.eprintln(format_args!(
            "serving {records} records, next offset {reached}, {bytes} bytes"
        ));
        true
    }
}

/// The log of a file with its keep, which reports what goes wrong.
pub(crate) type ToldLog<R> = KeptLog<Told<LogKeep<MeteredFile<R>>, Telling<R>>>;

/// Makes the disk of a log's file.
fn disk_of<R: Files<File = File> + Clock + Copy + Drop>(
    rt: R,
    alloc: Global,
    path: &str,
    file: File,
    board: &SharedBoard,
) -> Result<MeteredFile<R>, KeepError> {
    let disk = StoredFile::new(alloc, rt, path, file)?;
    Ok(MeteredFile::new(rt, disk, Arc::try_clone(board)?))
}

/// Opens the file of a log for commands, and compacts it if that is due.
pub(crate) fn open_log<R: Files<File = File> + Clock + Eprint + Copy + Drop>(
    rt: R,
    alloc: Global,
    locked: &Locked,
    ports: &mut KeepPorts<R>,
    board: &SharedBoard,
) -> Result<ToldLog<R>, KeepError> {
    let path = locked.path.as_str();
    let file = open_file(&rt, path)?;
    check_no_end(&rt, alloc, path)?;
    sync_folder(&rt, path)?;
    let like = file.metadata()?;
    ports.has_size(like.len());
    let mut disk = StoredFile::new(alloc, rt, path, file)?;
    // Another process may have put a new file there before this one was locked.
    if !matches!(disk.is_named(), Ok(true)) {
        return Err(KeepError::Unnamed);
    }
    disk.remove_unfinished()?;
    let disk = MeteredFile::new(rt, disk, Arc::try_clone(board)?);
    let Started {
        kept,
        end,
        cut: _,
        mark: _,
    } = start_log(rt, alloc, disk, path, like)?;
    let mut telling = Telling::new(rt, Arc::try_clone(board)?);
    if let LogKeep::Open(keep) = kept.keep() {
        let bytes = (end as u64).saturating_add(1);
        ports.has_read(kept.log(), keep.journal().lines(), bytes);
        telling.tell_fault(keep);
    }
    Ok(kept.telling(telling))
}

/// Why only lookups are served.
#[derive(Clone, Copy, Debug, PartialEq, Eq)]
enum Shortage {
    /// The log has no line left for the id mark that it owes.
    Lines,
    /// The disk had no room for what the start has to write.
    Disk(SystemError),
}

impl fmt::Display for Shortage {
    fn fmt<W: fmt::Write>(&self, f: &mut fmt::Formatter<W>) -> fmt::Result {
        match self {
            Shortage::Lines => f.write_str(
                "log is full: no line is left for the mark of ids. Lookups are served, commands are declined until a start over a \
                 smaller log",
            ),
            Shortage::Disk(error) => write!(
                f,
                "{error}: the log couldn't be made ready for commands. Lookups are served, commands are declined until a start with \
                 room on the disk"
            ),
        }
    }
}

/// Opens the log of a file for lookups only if a start ended for lack of room; else gives back how
/// it ended.
pub(crate) fn open_short<R: Files<File = File> + Clock + Eprint + Copy + Drop>(
    rt: R,
    alloc: Global,
    locked: &Locked,
    ended: Result<(), KeepError>,
    ports: &mut KeepPorts<R>,
    board: &SharedBoard,
) -> Result<ToldLog<R>, Result<(), KeepError>> {
    let Some(shortage) = shortage_of(ended, board) else {
        return Err(ended);
    };
    match open_closed(rt, alloc, locked, shortage, ports, board) {
        Ok(log) => Ok(log),
        Err(fault) => Err(Err(fault)),
    }
}

/// Returns why a start ended, if lookups can be served all the same.
fn shortage_of(ended: Result<(), KeepError>, board: &SharedBoard) -> Option<Shortage> {
    match ended {
        Err(KeepError::Start(ServiceError::Full)) => Some(Shortage::Lines),
        Err(KeepError::Start(ServiceError::NotKept)) => board.full_disk().map(Shortage::Disk),
        Err(fault) => fault.of_full_disk().map(Shortage::Disk),
        Ok(()) => None,
    }
}

/// Reads the log of a file for lookups only, and reports why.
fn open_closed<R: Files<File = File> + Clock + Eprint + Copy + Drop>(
    rt: R,
    alloc: Global,
    locked: &Locked,
    shortage: Shortage,
    ports: &mut KeepPorts<R>,
    board: &SharedBoard,
) -> Result<ToldLog<R>, KeepError> {
    let path = locked.path.as_str();
    let file = open_file(&rt, path)?;
    let bytes = file.metadata()?.len();
    let mut disk = disk_of(rt, alloc, path, file, board)?;
    let kept = match start_closed(alloc, &mut disk) {
        Ok(kept) => kept,
        Err(error) => return Err(KeepError::of_opening(error, disk.trouble())),
    };
    let lines = (kept.log().records.len() as u64).saturating_add(kept.log().foreign);
    ports.has_read(kept.log(), lines, bytes);
    let marks = &board.marks;
    marks.is_lost.set(false);
    match shortage {
        Shortage::Lines => marks.is_full.set(true),
        Shortage::Disk(_) => marks.is_declined.set(true),
    }
    let _told = rt.eprintln(shortage);
    Ok(kept.telling(Telling::new(rt, Arc::try_clone(board)?)))
}

/// Ends nodes over the log of a file. If the log can't be taken over, reports why.
pub(crate) fn ended<R: Files<File = File> + Eprint + Copy + Drop>(
    rt: R,
    alloc: Global,
    locked: &Locked,
    served: Result<(), ServiceError>,
) -> Result<(), KeepError> {
    if let Err(ServiceError::Closed(_)) = served {
        tell_obstacles(rt, alloc, locked.path.as_str())?;
    }
    Ok(served?)
}

/// Reports what keeps the log of a file from being taken over, one line each.
fn tell_obstacles<R: Files<File = File> + Eprint + Copy + Drop>(
    rt: R,
    alloc: Global,
    path: &str,
) -> Result<(), KeepError> {
    let file = File::open(&rt, path)?;
    let mut disk = StoredFile::new(alloc, rt, path, file)?;
    let found = match look(alloc, &mut disk) {
        Ok(found) => found,
        Err(error) => return Err(KeepError::of_opening(error, disk.trouble())),
    };
    for obstacle in obstacles(alloc, &found.log)? {
        let text = obstacle.text(alloc)?;
        let _told = rt.eprintln(format_args!("{text}"));
    }
    Ok(())
}
