// `registrylog check`, `registrylog compact` and `registrylog base`: what a log holds, what
// compacting leaves of it, and the base that a log from an offset on begins with.
ghost use Rattle.std.specs.Prelude.{◌≤◌, IfSome};
ghost use Rattle.reg_records.specs.declared.limits.TheConstants.{OFFSET_LIMIT};

use crate::ends::{Finished, filtered, kept};
use crate::fault::KeepError;
use crate::progress::Progress;
use crate::replacing::NewFile;
use reg_base::{BaseError, base as write_base};
use reg_compaction::{compact as write_compact, compact_to, write_whole_log};
use reg_inspection::inspect;
use std::alloc::Global;
use std::fs::{File, Files};
use std::io::{self, BufWriter, Eprint, Input, Print, Read, Write};
use std::thread::Threads;
use std::time::Clock;

/// Runs `registrylog check`.
pub(crate) fn check<
    R: Input
        + Print
        + Eprint
        + Files<File = File>
        + Threads
        + Clock
        + Copy
        + Send
        + Sync
        + Drop
        + 'static,
>(rt: R, alloc: Global, file: Option<&str>, quiet: bool) -> io::Result<Finished> {
    let progress = Progress::begin(rt, alloc, file, quiet)?;
    let ended = check_log(&rt, alloc, file, &progress);
    progress.end(&rt);
    ended
}

/// Writes what the log of a file, or that of the input, holds.
fn check_log<R: Input + Print + Eprint + Files<File = File>>(
    rt: &R,
    alloc: Global,
    file: Option<&str>,
    progress: &Progress,
) -> io::Result<Finished> {
    let Some(path) = file else {
        let mut reader = progress.counted(rt.reader())?;
        return check_from(rt, alloc, &mut reader);
    };
    match open_log_file(rt, path, progress) {
        Ok(file) => {
            let mut reader = progress.counted(file)?;
            check_from(rt, alloc, &mut reader)
        }
        Err(error) => kept(rt, Err(KeepError::from(error))),
    }
}

fn check_from<R: Print + Eprint, S: Read>(
    rt: &R,
    alloc: Global,
    reader: &mut S,
) -> io::Result<Finished> {
    let mut writer = BufWriter::new(alloc, io::writer(rt))?;
    let inspected = inspect(alloc, reader, &mut writer);
    filtered(rt, inspected.map_err(BaseError::from))
}

/// Runs `registrylog base`.
pub(crate) fn base<
    R: Input
        + Print
        + Eprint
        + Files<File = File>
        + Threads
        + Clock
        + Copy
        + Send
        + Sync
        + Drop
        + 'static,
>(
    rt: R,
    alloc: Global,
    file: Option<&str>,
    below: u64,
    quiet: bool,
    whole: bool,
) -> io::Result<Finished> {
    let progress = Progress::begin(rt, alloc, file, quiet)?;
    let ended = base_log(&rt, alloc, file, below, whole, &progress);
    progress.end(&rt);
    ended
}

/// Writes the base that a log from the offset `below` on begins with.
fn base_log<R: Input + Print + Eprint + Files<File = File>>(
    rt: &R,
    alloc: Global,
    file: Option<&str>,
    below: u64,
    whole: bool,
    progress: &Progress,
) -> io::Result<Finished> {
    let Some(path) = file else {
        let mut reader = progress.counted(rt.reader())?;
        return base_from(rt, alloc, &mut reader, below, whole);
    };
    match open_log_file(rt, path, progress) {
        Ok(file) => {
            let mut reader = progress.counted(file)?;
            base_from(rt, alloc, &mut reader, below, whole)
        }
        Err(error) => kept(rt, Err(KeepError::from(error))),
    }
}

fn base_from<R: Print + Eprint, S: Read>(
    rt: &R,
    alloc: Global,
    reader: &mut S,
    below: u64,
    whole: bool,
) -> io::Result<Finished> {
    let mut writer = BufWriter::new(alloc, io::writer(rt))?;
    let written = if whole {
        whole_base(alloc, reader, below, &mut writer)
    } else {
        write_base(alloc, below, reader, &mut writer)
    };
    filtered(rt, written.map(|()| true))
}

/// Writes a base, and the line that says where it ends.
fn whole_base<S: Read, W: Write>(
    alloc: Global,
    reader: &mut S,
    below: u64,
    writer: &mut W,
) -> Result<(), BaseError> {
    let mut text: Vec<u8> = Vec::new(alloc);
    write_base(alloc, below, reader, &mut text)?;
    Ok(write_whole_log(alloc, text, writer)?)
}

/// Opens the file of a log for reading.
fn open_log_file<R: Files<File = File>>(
    rt: &R,
    path: &str,
    progress: &Progress,
) -> io::Result<File> {
    let file = File::open(rt, path)?;
    progress.has_size(file.metadata()?.len());
    Ok(file)
}

/// What compacting is asked for.
#[derive(Clone, Copy)]
pub(crate) struct Wish<'a> {
    /// The log's file; `None` for the input.
    pub(crate) file: Option<&'a str>,
    /// The floor to compact to; `None` for the log's own.
    pub(crate) floor: Option<u64>,
    /// Where to write the result; `None` for the output.
    pub(crate) output: Option<&'a str>,
    /// Whether the line that says where a log ends is to stand behind it.
    pub(crate) whole: bool,
}

/// Runs `registrylog compact`.
pub(crate) fn compact<
    R: Input
        + Print
        + Eprint
        + Files<File = File>
        + Threads
        + Clock
        + Copy
        + Send
        + Sync
        + Drop
        + 'static,
>(rt: R, alloc: Global, wish: Wish<'_>, quiet: bool) -> io::Result<Finished>
    requires { IfSome wish.floor (λ offset. offset ≤ OFFSET_LIMIT) }
{
    let progress = Progress::begin(rt, alloc, wish.file, quiet)?;
    let ended = compact_log(&rt, alloc, wish, &progress);
    progress.end(&rt);
    ended
}

/// Writes what compacting leaves of the log.
fn compact_log<R: Input + Print + Eprint + Files<File = File>>(
    rt: &R,
    alloc: Global,
    wish: Wish<'_>,
    progress: &Progress,
) -> io::Result<Finished>
    requires { IfSome wish.floor (λ offset. offset ≤ OFFSET_LIMIT) }
{
    let Some(path) = wish.file else {
        let mut reader = progress.counted(rt.reader())?;
        return compact_from(rt, alloc, &mut reader, wish);
    };
    match open_log_file(rt, path, progress) {
        Ok(file) => {
            let mut reader = progress.counted(file)?;
            compact_from(rt, alloc, &mut reader, wish)
        }
        Err(error) => kept(rt, Err(KeepError::from(error))),
    }
}

fn compact_from<R: Print + Eprint + Files<File = File>, S: Read>(
    rt: &R,
    alloc: Global,
    reader: &mut S,
    wish: Wish<'_>,
) -> io::Result<Finished>
    requires { IfSome wish.floor (λ offset. offset ≤ OFFSET_LIMIT) }
{
    let Some(path) = wish.output else {
        let mut writer = BufWriter::new(alloc, io::writer(rt))?;
        let written = compacted(alloc, reader, wish, &mut writer);
        return filtered(rt, written.map(|()| true));
    };
    match NewFile::begin(rt, alloc, path) {
        Ok(mut new) => {
            let written = compacted(alloc, reader, wish, &mut new.file);
            put(rt, &new, written)
        }
        Err(fault) => kept(rt, Err(fault)),
    }
}

/// Puts a new file in its place, or removes it if it wasn't written.
fn put<R: Eprint + Files<File = File>>(
    rt: &R,
    new: &NewFile,
    written: Result<(), BaseError>,
) -> io::Result<Finished> {
    if written.is_err() {
        new.remove(rt);
        return filtered(rt, written.map(|()| true));
    }
    let put = new.put(rt);
    if put.is_err() {
        new.remove(rt);
    }
    kept(rt, put)
}

fn compacted<S: Read, W: Write>(
    alloc: Global,
    reader: &mut S,
    wish: Wish<'_>,
    writer: &mut W,
) -> Result<(), BaseError>
    requires { IfSome wish.floor (λ offset. offset ≤ OFFSET_LIMIT) }
{
    if !wish.whole {
        return lasts(alloc, reader, wish.floor, writer);
    }
    let mut text: Vec<u8> = Vec::new(alloc);
    lasts(alloc, reader, wish.floor, &mut text)?;
    Ok(write_whole_log(alloc, text, writer)?)
}

fn lasts<S: Read, W: Write>(
    alloc: Global,
    reader: &mut S,
    floor: Option<u64>,
    writer: &mut W,
) -> Result<(), BaseError>
    requires { IfSome floor (λ offset. offset ≤ OFFSET_LIMIT) }
{
    match floor {
        Some(floor) => Ok(compact_to(alloc, floor, reader, writer)?),
        None => Ok(write_compact(alloc, reader, writer)?),
    }
}
