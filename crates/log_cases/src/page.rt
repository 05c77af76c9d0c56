// A file in memory to which cases write. A crash leaves what was there at the last sync, or what is there.
ghost use Rattle.std.specs.Prelude.{◌≡◌, ◌⊎◌, ⊤, IsSome, refl};
ghost use Rattle.std.proofs.Common.{inr};

use reg_journal::DiskError;
use reg_tail::Source;
use std::alloc::Global;

#[derive(Drop)]
pub(crate) struct Page {
    alloc: Global,
    pub(crate) bytes: Vec<u8>,
    /// What was there at the last sync.
    pub(crate) synced: Vec<u8>,
    /// The file that has its name by now, where another one has.
    pub(crate) other: Option<Vec<u8>>,
    /// How many syncs there were.
    pub(crate) syncs: u64,
    pub(crate) read_fails: bool,
    pub(crate) sync_fails: bool,
}

impl Page {
    /// A file without bytes.
    pub(crate) fn new(alloc: Global) -> Page {
        Page {
            alloc,
            bytes: Vec::new(alloc),
            synced: Vec::new(alloc),
            other: None,
            syncs: 0,
            read_fails: false,
            sync_fails: false,
        }
    }
}

impl Source for Page {
    ghost known = { λ p. ⊤ };

    ghost seen = { λ p. p.bytes.items };

    ghost may_leave = { λ p c. (c ≡ p.synced.items) ⊎ (c ≡ p.bytes.items) };

    ghost left = { λ p. p.bytes.items };

    ghost is_left = { λ p. IsSome p.other };

    ghost seen_counts = { λ p is. (p.bytes.items, inr refl, λ lines rest are parts. refl) };

    fn read_from(&mut self, alloc: Global, place: usize) -> Result<Vec<u8>, DiskError> {
        if self.read_fails {
            return Err(DiskError::Failed);
        }
        if place > self.bytes.len() {
            return Ok(Vec::new(alloc));
        }
        Ok(self.bytes[place..].to_vec(alloc)?)
    }

    fn sync(&mut self) -> Result<(), DiskError> {
        if self.sync_fails {
            return Err(DiskError::Failed);
        }
        self.synced = self.bytes.to_vec(self.alloc)?;
        self.syncs = self.syncs.saturating_add(1);
        Ok(())
    }

    fn is_replaced(&mut self) -> Result<bool, DiskError> {
        Ok(self.other.is_some())
    }

    fn reopen(&mut self) -> Result<(), DiskError> {
        if let Some(bytes) = self.other.take() {
            self.bytes = bytes;
            self.synced = Vec::new(self.alloc);
        }
        Ok(())
    }
}
