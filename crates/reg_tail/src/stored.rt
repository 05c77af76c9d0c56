// A file of the system. No clause can say what it holds, so nothing is known of it as a source.
ghost use Rattle.std.specs.Prelude.{[], ⊤};

use crate::source::Source;
use reg_journal::DiskError;
use std::alloc::Global;
use std::fs::{File, Files, OpenOptions};
use std::io::{self, ErrorKind, Read, Seek, SeekFrom};
use std::os::unix::fs::MetadataExt;

/// A file of the system that another process writes, open for reading.
#[derive(Drop)]
pub struct StoredTail<'a, R: Files<File = File>> {
    files: &'a R,
    path: &'a str,
    file: File,
    /// The device and the number: the system tells it from others by these.
    device: u64,
    number: u64,
}

impl<'a, R: Files<File = File>> StoredTail<'a, R> {
    /// Opens the file that has this path now, for reading.
    pub fn open(files: &'a R, path: &'a str) -> Result<StoredTail<'a, R>, DiskError> {
        let mut how = OpenOptions::new();
        how.read(true);
        let file = answer(files.open_file(&how, path))?;
        let found = answer(file.metadata())?;
        Ok(StoredTail {
            files,
            path,
            file,
            device: found.dev(),
            number: found.ino(),
        })
    }
}

fn answer<T: Drop>(given: io::Result<T>) -> Result<T, DiskError> {
    match given {
        Ok(value) => Ok(value),
        Err(error) => match error.kind() {
            ErrorKind::OutOfMemory => Err(DiskError::OutOfMemory),
            _ => Err(DiskError::Failed),
        },
    }
}

impl<'a, R: Files<File = File>> Source for StoredTail<'a, R> {
    ghost known = { λ f. ⊥ };

    ghost seen = { λ f. [] };

    ghost may_leave = { λ f c. ⊤ };

    ghost left = { λ f. [] };

    ghost is_left = { λ f. ⊥ };

    ghost seen_counts = { λ f is. absurd is };

    fn read_from(&mut self, alloc: Global, place: usize) -> Result<Vec<u8>, DiskError> {
        let mut bytes = Vec::new(alloc);
        answer(self.file.seek(SeekFrom::Start(place as u64)))?;
        answer(self.file.read_to_end(&mut bytes))?;
        Ok(bytes)
    }

    fn sync(&mut self) -> Result<(), DiskError> {
        answer(self.file.sync_all())
    }

    /// This file is held open, so no other has its number.
    fn is_replaced(&mut self) -> Result<bool, DiskError> {
        let found = answer(self.files.metadata(self.path))?;
        Ok(found.dev() != self.device || found.ino() != self.number)
    }

    fn reopen(&mut self) -> Result<(), DiskError> {
        *self = StoredTail::open(self.files, self.path)?;
        Ok(())
    }
}
