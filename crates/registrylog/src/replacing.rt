// A new file in place of an old one, or where there was none.
use crate::fault::KeepError;
use crate::opening::taken;
use reg_journal::{lock_file, make_alike};
use std::alloc::Global;
use std::fs::{File, Files};
use std::io::{self, ErrorKind};
use std::path::Path;

/// A file that is being written beside a path, with `.new` after its name, to be moved to that
/// path.
#[derive(Drop)]
pub(crate) struct NewFile {
    pub(crate) file: File,
    path: String,
    beside: String,
    /// The old file at the path, if there is one, and the lock of the log there, if it has one,
    /// both locked: meanwhile no process serves that log.
    old: Option<File>,
    lock: Option<File>,
}

impl NewFile {
    /// Creates the file, with the owner and the permissions of the one at the path, if there is
    /// one. Refused if another process serves the log there, or if the `.new` file exists.
    pub(crate) fn begin<R: Files<File = File>>(
        rt: &R,
        alloc: Global,
        path: &str,
    ) -> Result<NewFile, KeepError> {
        let old = found(File::open(rt, path))?;
        let path = match &old {
            Some(_) => with_no_link(rt, alloc, path)?,
            None => String::from_str(alloc, path)?,
        };
        let lock = lock_of(rt, alloc, path.as_str())?;
        if let Some(old) = &old {
            taken(lock_file(old))?;
        }
        let beside = with_ending(alloc, path.as_str(), ".new")?;
        let file = match made(rt, beside.as_str(), &old) {
            Ok(file) => file,
            Err(error) if error.kind() == ErrorKind::AlreadyExists => {
                return Err(KeepError::Unfinished);
            }
            Err(error) => return Err(KeepError::from(error)),
        };
        Ok(NewFile {
            file,
            path,
            beside,
            old,
            lock,
        })
    }

    /// Moves the file to its path, once all that was written is on the disk.
    pub(crate) fn put<R: Files<File = File>>(&self, rt: &R) -> Result<(), KeepError> {
        self.file.sync_all()?;
        rt.rename(self.beside.as_str(), self.path.as_str())?;
        let folder = match Path::new(self.path.as_str()).parent() {
            Some(folder) if !folder.as_str().is_empty() => folder.as_str(),
            _ => ".",
        };
        Ok(File::open(rt, folder)?.sync_all()?)
    }

    /// Removes what was written.
    pub(crate) fn remove<R: Files<File = File>>(&self, rt: &R) {
        let _gone = rt.remove_file(self.beside.as_str());
    }
}

/// Returns the opened file; `None` if there is no such file.
fn found(opened: io::Result<File>) -> io::Result<Option<File>> {
    match opened {
        Ok(file) => Ok(Some(file)),
        Err(error) if error.kind() == ErrorKind::NotFound => Ok(None),
        Err(error) => Err(error),
    }
}

/// Creates a new file, with the owner and the permissions of an old one, if there is one.
fn made<R: Files<File = File>>(rt: &R, path: &str, old: &Option<File>) -> io::Result<File> {
    match old {
        Some(old) => make_alike(rt, path, &old.metadata()?),
        None => File::options().write(true).create_new(true).open(rt, path),
    }
}

/// Takes the lock of the log at a path; `None` if it has none. Refused if another process has it.
fn lock_of<R: Files<File = File>>(
    rt: &R,
    alloc: Global,
    path: &str,
) -> Result<Option<File>, KeepError> {
    let name = with_ending(alloc, path, ".lock")?;
    let Some(lock) = found(File::open(rt, name.as_str()))? else {
        return Ok(None);
    };
    taken(lock_file(&lock))?;
    Ok(Some(lock))
}

fn with_no_link<R: Files<File = File>>(
    rt: &R,
    alloc: Global,
    path: &str,
) -> Result<String, KeepError> {
    let found = rt.canonicalize(alloc, path)?;
    Ok(String::from_str(alloc, found.as_path().as_str())?)
}

fn with_ending(alloc: Global, path: &str, ending: &str) -> Result<String, KeepError> {
    let mut name = String::from_str(alloc, path)?;
    name.push_str(ending)?;
    Ok(name)
}
