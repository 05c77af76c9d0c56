// A file in memory that keeps what its calls did, so that a crash can be tried at each of them.
ghost use Rattle.std.specs.Prelude.{[], ⊤, All};
ghost use Rattle.reg_records.specs.Written.{HasLine};

use crate::batches::file_of;
use reg_journal::{Disk, DiskError, Journal, RenewError, Renewable};
use reg_records::Record;
use std::alloc::Global;
use std::test::Fail;
use test_tools::Made;

/// A step that no file comes to.
pub(super) const NEVER: usize = 1_000_000;

/// What a call did to the file.
#[derive(Drop)]
pub(crate) enum Step {
    Write { at: usize, bytes: Vec<u8> },
    Cut(usize),
    Sync,
    /// A new file was written beside this one, which isn't touched.
    Prepare,
    /// The new file was renamed over this one.
    Rename(Vec<u8>),
    SyncFolder,
}

#[derive(Drop)]
pub(crate) struct Torn {
    alloc: Global,
    /// What was on the disk at first.
    start: Vec<u8>,
    bytes: Vec<u8>,
    steps: Vec<Step>,
    /// The step that is refused.
    fails_at: usize,
}

impl Torn {
    pub(crate) fn new(alloc: Global, image: &[u8], fails_at: usize) -> Made<Torn> {
        Ok(Torn {
            alloc,
            start: image.to_vec(alloc)?,
            bytes: image.to_vec(alloc)?,
            steps: Vec::new(alloc),
            fails_at,
        })
    }

    /// What a read returns.
    pub(crate) fn bytes(&self) -> &[u8] {
        &self.bytes
    }

    /// How many steps it has made.
    pub(crate) fn steps(&self) -> usize {
        self.steps.len()
    }

    fn step(&mut self, step: Step) -> Result<(), DiskError> {
        let refused = self.steps.len() == self.fails_at;
        self.steps.push(step)?;
        if refused {
            return Err(DiskError::Failed);
        }
        Ok(())
    }

    /// The files that a crash may leave after that many steps.
    pub(crate) fn images(&self, count: usize) -> Made<Vec<Vec<u8>>> {
        let mut on_disk = self.start.to_vec(self.alloc)?;
        let mut seen = self.start.to_vec(self.alloc)?;
        let mut images = Vec::new(self.alloc);
        images.push(self.start.to_vec(self.alloc)?)?;
        for (k, step) in self.steps.iter().enumerate() {
            if k >= count {
                return Ok(images);
            }
            match step {
                Step::Write { at, bytes } => {
                    add_writes(self.alloc, &mut images, &on_disk, *at, bytes)?;
                    seen = overlaid(self.alloc, &seen, *at, bytes)?;
                }
                Step::Cut(len) => {
                    add_cuts(self.alloc, &mut images, &on_disk, *len)?;
                    seen = front(&seen, *len).to_vec(self.alloc)?;
                }
                Step::Prepare => {}
                // The new file is on the disk whole; until the folder is synced, the name may be the old one's.
                Step::Rename(bytes) => {
                    images.push(bytes.to_vec(self.alloc)?)?;
                    seen = bytes.to_vec(self.alloc)?;
                }
                Step::Sync | Step::SyncFolder => {
                    // A sync that was refused may leave what was there before it, or all.
                    if k == self.fails_at {
                        images.push(seen.to_vec(self.alloc)?)?;
                    } else {
                        images = Vec::new(self.alloc);
                        images.push(seen.to_vec(self.alloc)?)?;
                        on_disk = seen.to_vec(self.alloc)?;
                    }
                }
            }
        }
        Ok(images)
    }
}

/// The journal of a file with those records, the step of that number refused.
pub(super) fn journal_of(
    alloc: Global,
    records: &[Record],
    fails_at: usize,
) -> Result<Journal<Torn>, Fail>
    requires { All HasLine records.now }
{
    let file = file_of(alloc, records)?;
    let disk = Torn::new(alloc, &file, fails_at)?;
    Ok(Journal::over(disk, file.len().saturating_sub(1), records.len() as u64))
}

fn front(bytes: &[u8], len: usize) -> &[u8] {
    if len < bytes.len() {
        &bytes[..len]
    } else {
        bytes
    }
}

fn back(bytes: &[u8], from: usize) -> &[u8] {
    if from < bytes.len() {
        &bytes[from..]
    } else {
        &[]
    }
}

/// The file with these bytes at that place.
fn overlaid(alloc: Global, old: &[u8], at: usize, bytes: &[u8]) -> Made<Vec<u8>> {
    let mut new = front(old, at).to_vec(alloc)?;
    new.extend_from_slice(bytes)?;
    new.extend_from_slice(back(old, at.saturating_add(bytes.len())))?;
    Ok(new)
}

/// What a crash leaves of a write: of one byte over another the old or the new one; else any front of it, with
/// nothing, zeros, LFs or digits for the others, or zeros and then the others.
fn add_writes(
    alloc: Global,
    images: &mut Vec<Vec<u8>>,
    old: &[u8],
    at: usize,
    bytes: &[u8],
) -> Made<()> {
    if bytes.len() == 1 && at < old.len() {
        images.push(overlaid(alloc, old, at, bytes)?)?;
        return Ok(());
    }
    for k in 0..=bytes.len() {
        let mut short = front(old, at).to_vec(alloc)?;
        short.extend_from_slice(front(bytes, k))?;
        images.push(short)?;
        images.push(overlaid(alloc, old, at, front(bytes, k))?)?;
        for filler in [0, b'\n', b'7'] {
            images.push(filled(alloc, old, at, bytes, k, filler)?)?;
        }
        images.push(hollow(alloc, old, at, bytes, k)?)?;
    }
    Ok(())
}

/// The front of the bytes, and that byte for each of the others.
fn filled(
    alloc: Global,
    old: &[u8],
    at: usize,
    bytes: &[u8],
    kept: usize,
    filler: u8,
) -> Made<Vec<u8>> {
    let mut torn = front(bytes, kept).to_vec(alloc)?;
    for _ in back(bytes, kept) {
        torn.push(filler)?;
    }
    overlaid(alloc, old, at, &torn)
}

/// Zeros for the front of the bytes, and the others.
fn hollow(alloc: Global, old: &[u8], at: usize, bytes: &[u8], lost: usize) -> Made<Vec<u8>> {
    let mut torn = Vec::new(alloc);
    for _ in front(bytes, lost) {
        torn.push(0)?;
    }
    torn.extend_from_slice(back(bytes, lost))?;
    overlaid(alloc, old, at, &torn)
}

/// What a crash leaves of a cut: any length between, with the old bytes or zeros.
fn add_cuts(alloc: Global, images: &mut Vec<Vec<u8>>, old: &[u8], len: usize) -> Made<()> {
    for k in len..old.len() {
        images.push(front(old, k).to_vec(alloc)?)?;
        let mut zeroed = front(old, len).to_vec(alloc)?;
        for _ in len..k {
            zeroed.push(0)?;
        }
        images.push(zeroed)?;
    }
    Ok(())
}

impl Disk for Torn {
    ghost is_modelled = { ⊥ };

    ghost known = { λ f. ⊥ };

    ghost seen = { λ f. [] };

    ghost may_leave = { λ f c. ⊤ };

    ghost moment = { λ f. 0 };

    ghost left_since = { λ f t c. ⊤ };

    ghost named = { λ f is. ⊤ };

    ghost seen_counts = { λ f none. absurd none };

    ghost counts_now = { λ f t c none. absurd none };

    ghost only_now = { λ f c none. absurd none };

    fn size(&mut self) -> Result<usize, DiskError> {
        Ok(self.bytes.len())
    }

    fn read(&mut self, alloc: Global) -> Result<Vec<u8>, DiskError> {
        Ok(self.bytes.to_vec(alloc)?)
    }

    fn is_named(&mut self) -> Result<bool, DiskError> {
        Ok(true)
    }

    fn write_at(&mut self, at: usize, bytes: &[u8]) -> Result<(), DiskError> {
        let alloc = self.alloc;
        let copied = bytes.to_vec(alloc)?;
        self.step(Step::Write { at, bytes: copied })?;
        self.bytes = overlaid(alloc, &self.bytes, at, bytes)?;
        Ok(())
    }

    fn cut(&mut self, len: usize) -> Result<(), DiskError> {
        let alloc = self.alloc;
        self.step(Step::Cut(len))?;
        self.bytes = front(&self.bytes, len).to_vec(alloc)?;
        Ok(())
    }

    fn sync(&mut self) -> Result<(), DiskError> {
        self.step(Step::Sync)
    }
}

impl Renewable for Torn {
    fn renew(&mut self, bytes: &[u8]) -> Result<(), RenewError> {
        let alloc = self.alloc;
        let next = bytes.to_vec(alloc)?;
        let copied = bytes.to_vec(alloc)?;
        if let Err(error) = self.step(Step::Prepare) {
            return Err(RenewError::Kept(error));
        }
        if self.step(Step::Rename(copied)).is_err() {
            return Err(RenewError::Lost);
        }
        self.bytes = next;
        match self.step(Step::SyncFolder) {
            Ok(()) => Ok(()),
            Err(_) => Err(RenewError::Lost),
        }
    }
}
