// The file of a log, with counts of how long its changes take.
ghost use Rattle.std.specs.Prelude.{[], ⊤};

use crate::watching::SharedBoard;
use reg_journal::{Disk, DiskError, RenewError, Renewable, StoredFile, Trouble};
use reg_meters::microseconds;
use std::alloc::Global;
use std::fs::{File, Files};
use std::time::Clock;

/// The file of a log. As of the file itself, contracts know nothing of it as a disk.
#[derive(Drop)]
pub(crate) struct MeteredFile<R: Files<File = File> + Drop> {
    rt: R,
    file: StoredFile<R>,
    board: SharedBoard,
    /// When its length was last asked for, which is how an append begins, and how long after that
    /// it was last synced, both in microseconds.
    begun: u64,
    took: u64,
    /// Its length in bytes when that was last asked for.
    len: usize,
    /// Why the last failed compaction left the file as it was; `None` if none did.
    unrenewed: Option<Trouble>,
}

impl<R: Files<File = File> + Clock + Drop> MeteredFile<R> {
    pub(crate) fn new(rt: R, file: StoredFile<R>, board: SharedBoard) -> MeteredFile<R> {
        MeteredFile {
            rt,
            file,
            board,
            begun: 0,
            took: 0,
            len: 0,
            unrenewed: None,
        }
    }

    pub(crate) fn path(&self) -> &str {
        self.file.path()
    }

    /// Returns its length in bytes when that was last asked for, which is how an append begins.
    pub(crate) fn len(&self) -> usize {
        self.len
    }

    /// Returns what last went wrong with the file, except in a compaction that left it as it was.
    pub(crate) fn trouble(&self) -> Option<Trouble> {
        self.file.trouble()
    }

    /// Returns why the last failed compaction left the file as it was; `None` if none did.
    pub(crate) fn unrenewed(&self) -> Option<Trouble> {
        self.unrenewed
    }

    /// Returns how long the last append took, in microseconds.
    pub(crate) fn took(&self) -> u64 {
        self.took
    }
}

impl<R: Files<File = File> + Clock + Drop> Disk for MeteredFile<R> {
    ghost is_modelled = { ⊥ };

    ghost known = { λ f. ⊥ };

    ghost seen = { λ f. [] };

    ghost may_leave = { λ f c. ⊤ };

    ghost moment = { λ f. 0 };

    ghost left_since = { λ f t c. ⊤ };

    ghost named = { λ f is. ⊤ };

    ghost seen_counts = { λ f none. absurd none };

    ghost counts_now = { λ f t c none. absurd none };

    ghost only_now = { λ f c none. absurd none };

    fn size(&mut self) -> Result<usize, DiskError> {
        self.begun = microseconds(&self.rt);
        let _earlier = self.file.take_trouble();
        self.len = self.file.size()?;
        Ok(self.len)
    }

    fn read(&mut self, alloc: Global) -> Result<Vec<u8>, DiskError> {
        self.file.read(alloc)
    }

    fn is_named(&mut self) -> Result<bool, DiskError> {
        self.file.is_named()
    }

    fn write_at(&mut self, at: usize, bytes: &[u8]) -> Result<(), DiskError> {
        self.file.write_at(at, bytes)
    }

    fn cut(&mut self, len: usize) -> Result<(), DiskError> {
        self.file.cut(len)
    }

    fn sync(&mut self) -> Result<(), DiskError> {
        let synced = self.file.sync();
        self.took = microseconds(&self.rt).saturating_sub(self.begun);
        synced
    }
}

impl<R: Files<File = File> + Clock + Drop> Renewable for MeteredFile<R> {
    fn renew(&mut self, bytes: &[u8]) -> Result<(), RenewError> {
        let begun = microseconds(&self.rt);
        let renewed = self.file.renew(bytes);
        let meters = &self.board.file;
        meters
            .renewal
            .add(microseconds(&self.rt).saturating_sub(begun));
        match renewed {
            Ok(()) => meters.renewed.add(1),
            Err(_) => meters.not_renewed.add(1),
        }
        if matches!(renewed, Err(RenewError::Kept(_))) {
            self.unrenewed = self.file.take_trouble();
        }
        renewed
    }
}
