// Opens the file of a log under its lock.
use crate::fault::KeepError;
use crate::metered::MeteredFile;
use reg_compaction::{Aside, Opens, is_end};
use reg_file_keep::{NotStarted, Started, start_file_keep};
use reg_journal::{DiskError, StoredFile, lock_file, make_alike, remove_if_there};
use std::alloc::Global;
use std::fs::{File, Files, Metadata, Permissions};
use std::io::{self, Eprint, ErrorKind, Read, Seek, SeekFrom};
use std::os::unix::fs::{MetadataExt, OpenOptionsExt, PermissionsExt, fchown};
use std::path::Path;
use std::time::Clock;

/// How many bytes at the end of a file are looked at for the line that says where its log ends.
const END_BYTES: u64 = 64;

/// The permissions of a lock: whoever can read it could take it.
const LOCK_RIGHTS: u32 = 0o600;

/// The lock of a log's file. While it exists no other process has the log.
#[derive(Drop)]
pub(crate) struct Locked {
    /// The path of the file, with all links resolved.
    pub(crate) path: String,
    pub(crate) lock: File,
}

/// Takes the lock of a log's file: a file beside it that is never removed. Refused if another
/// process has it, if the log is missing, or if a new log is asked for and there is one.
pub(crate) fn lock<R: Files<File = File>>(
    rt: &R,
    alloc: Global,
    file: &str,
    is_new: bool,
) -> Result<Locked, KeepError> {
    check_new(rt, file, is_new)?;
    if is_new {
        let mut how = File::options();
        let made = how.write(true).create(true).open(rt, file)?;
        drop(made);
    }
    let found = rt.canonicalize(alloc, file)?;
    let path = String::from_str(alloc, found.as_path().as_str())?;
    let like = rt.metadata(path.as_str())?;
    let lock = open_lock(rt, beside(alloc, path.as_str(), ".lock")?.as_str(), &like)?;
    taken(lock_file(&lock))?;
    // Checked again, since another process may have had the lock until now.
    check_new(rt, path.as_str(), is_new)?;
    Ok(Locked { path, lock })
}

/// Refuses a missing log, or an existing one if a new one is asked for. An empty file counts as
/// missing.
fn check_new<R: Files>(rt: &R, path: &str, is_new: bool) -> Result<(), KeepError> {
    match (has_bytes(rt.metadata(path))?, is_new) {
        (true, true) => Err(KeepError::Exists),
        (false, false) => Err(KeepError::Missing),
        _ => Ok(()),
    }
}

/// Returns whether the file exists and isn't empty.
fn has_bytes(found: io::Result<Metadata>) -> io::Result<bool> {
    match found {
        Ok(found) => Ok(found.len() > 0),
        Err(error) if error.kind() == ErrorKind::NotFound => Ok(false),
        Err(error) => Err(error),
    }
}

/// Turns the refusal of a lock that another process has into `InUse`.
pub(crate) fn taken(locked: io::Result<()>) -> Result<(), KeepError> {
    match locked {
        Ok(()) => Ok(()),
        Err(error) if error.kind() == ErrorKind::WouldBlock => Err(KeepError::InUse),
        Err(error) => Err(KeepError::from(error)),
    }
}

/// Opens the file of a lock, and makes it if it is missing. It gets the log's owner and the
/// permissions `LOCK_RIGHTS`, even if it is older, as far as this process may set them.
fn open_lock<R: Files<File = File>>(rt: &R, path: &str, log: &Metadata) -> io::Result<File> {
    let mut how = File::options();
    how.read(true).write(true).create(true).mode(LOCK_RIGHTS);
    let lock = how.open(rt, path)?;
    let found = lock.metadata()?;
    if found.permissions().mode() & 0o777 != LOCK_RIGHTS {
        let _others = lock.set_permissions(Permissions::from_mode(LOCK_RIGHTS));
    }
    if found.uid() != log.uid() || found.gid() != log.gid() {
        let _others = fchown(&lock, Some(log.uid()), Some(log.gid()));
    }
    Ok(lock)
}

/// Opens a log's file for reading and writing, and locks it too: the lock beside it may have been
/// removed, and another name of the file has none.
pub(crate) fn open_file<R: Files<File = File>>(rt: &R, path: &str) -> Result<File, KeepError> {
    let file = File::options().read(true).write(true).open(rt, path)?;
    taken(lock_file(&file))?;
    Ok(file)
}

/// Refuses the file of a log with a line behind it that says where it ends: nothing is appended
/// there.
pub(crate) fn check_no_end<R: Files<File = File>>(
    rt: &R,
    alloc: Global,
    path: &str,
) -> Result<(), KeepError> {
    let mut file = File::open(rt, path)?;
    let from = file.metadata()?.len().saturating_sub(END_BYTES);
    file.seek(SeekFrom::Start(from))?;
    let mut bytes = Vec::new(alloc);
    file.read_to_end(&mut bytes)?;
    if has_end(&bytes) {
        return Err(KeepError::Whole);
    }
    Ok(())
}

/// Returns whether such a line stands behind an LF of these bytes.
pub(crate) fn has_end(bytes: &[u8]) -> bool {
    for place in 0..bytes.len() {
        if bytes[place] == b'\n' && is_end(&bytes[place + 1..]) {
            return true;
        }
    }
    false
}

/// Returns the path with `more` after its name.
fn beside(alloc: Global, path: &str, more: &str) -> Result<String, KeepError> {
    let mut other = String::from_str(alloc, path)?;
    other.push_str(more)?;
    Ok(other)
}

/// Syncs the folder of a file, so that the names in it are on the disk.
pub(crate) fn sync_folder<R: Files<File = File>>(rt: &R, path: &str) -> io::Result<()> {
    let folder = match Path::new(path).parent() {
        Some(folder) if !folder.as_str().is_empty() => folder.as_str(),
        _ => ".",
    };
    File::open(rt, folder)?.sync_all()
}

/// Makes the file for what follows a log: first under a name that no other has, and under its own
/// once it is complete.
#[derive(Drop)]
struct CutFile<R: Drop> {
    rt: R,
    alloc: Global,
    /// The log's file, whose owner and permissions it gets.
    like: Metadata,
    path: String,
    /// Where it is written first.
    unfinished: String,
    /// Why it wasn't made.
    fault: Option<KeepError>,
}

impl<R: Files<File = File> + Copy + Drop> CutFile<R> {
    fn make(&self) -> io::Result<StoredFile<R>> {
        let path = self.unfinished.as_str();
        remove_if_there(&self.rt, path)?;
        let file = make_alike(&self.rt, path, &self.like)?;
        StoredFile::new(self.alloc, self.rt, path, file)
    }

    fn noted<T: Drop>(&mut self, made: io::Result<T>) -> Result<T, DiskError> {
        match made {
            Ok(made) => Ok(made),
            Err(error) => {
                self.fault = Some(KeepError::from(error));
                Err(DiskError::Failed)
            }
        }
    }
}

impl<R: Files<File = File> + Copy + Drop> Opens<StoredFile<R>> for CutFile<R> {
    fn open_disk(&mut self) -> Result<StoredFile<R>, DiskError> {
        let made = self.make();
        self.noted(made)
    }

    fn put_in_place(&mut self, disk: &StoredFile<R>) -> Result<(), DiskError> {
        let moved = disk.move_to(self.path.as_str());
        self.noted(moved)
    }
}

/// Starts over a log's file. What follows its empty line is copied to a file whose name ends with
/// `.cut`, before it is cut off.
pub(crate) fn start_log<R: Files<File = File> + Clock + Eprint + Copy + Drop>(
    rt: R,
    alloc: Global,
    disk: MeteredFile<R>,
    path: &str,
    like: Metadata,
) -> Result<Started<MeteredFile<R>>, KeepError> {
    let cut = CutFile {
        rt,
        alloc,
        like,
        path: beside(alloc, path, ".cut")?,
        unfinished: beside(alloc, path, ".cut.new")?,
        fault: None,
    };
    let mut aside = Aside {
        opener: cut,
        disk: None,
    };
    let started = start_file_keep(alloc, disk, &mut aside);
    let Aside { opener, disk: put } = aside;
    match started {
        Ok(started) => {
            tell_changes(&rt, started.cut, opener.path.as_str(), started.mark);
            Ok(started)
        }
        Err(NotStarted { disk, error }) => {
            let cut = put.and_then(|put| put.trouble());
            let trouble = disk.trouble().or(cut);
            Err(opener.fault.unwrap_or(KeepError::of_start(error, trouble)))
        }
    }
}

/// Reports what a start changed: how many bytes behind the log were put into the file `cut`, and the
/// mark of ids that was appended.
fn tell_changes<R: Eprint>(rt: &R, count: usize, cut: &str, mark: Option<u32>) {
    if count > 0 {
        let _told = rt.eprintln(format_args!("{count} bytes behind the log were put into {cut}"));
    }
    if let Some(id) = mark {
        let _told = rt.eprintln(format_args!(
            "mark of ids {id} appended: the log had none, and {id} is the highest id that its lines name"
        ));
    }
}
