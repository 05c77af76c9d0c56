// A file of the system, which a journal appends to and compacts while it is followed.
use crate::batches::batch_of;
use reg_compaction::compact_journal;
use reg_journal::{Journal, StoredFile, open_journal};
use reg_tail::{TailError, follow_file};
use std::alloc::Global;
use std::fs::{self, File, OpenOptions};
use std::io::{self, ErrorKind, Write};
use std::rt::Files;
use std::sync::Wait;
use std::test::Fail;
use std::time::Clock;

/// The file that is followed.
const PATH: &str = "followed.log";

/// What happens to the file once a text was written.
#[derive(Clone, Copy, Drop)]
enum Deed {
    Append(u64),
    /// The file is compacted, and a batch is appended to the new one.
    Renew(u64),
    /// Another file is renamed over it.
    Replace(&'static str),
    /// The writer fails from then on.
    Fail,
}

/// A writer that appends to the file which is followed.
#[derive(Drop)]
struct Scene<'a, R: Files<File = File> + Drop> {
    files: R,
    alloc: Global,
    journal: Journal<StoredFile<R>>,
    deeds: &'a [Deed],
    done: usize,
    written: Vec<u8>,
}

impl<'a, R: Files<File = File> + Drop> Scene<'a, R> {
    fn append(&mut self, offset: u64) -> bool {
        match batch_of(self.alloc, offset, 1) {
            Ok(batch) => self.journal.append(self.alloc, &batch, 0).is_ok(),
            Err(_) => false,
        }
    }

    fn replace(&self, bytes: &str) -> io::Result<()> {
        let mut how = OpenOptions::new();
        how.write(true).create(true).truncate(true);
        let mut file = self.files.open_file(&how, "replacement.log")?;
        file.write_all(bytes.as_bytes())?;
        self.files.rename("replacement.log", PATH)
    }

    fn does(&mut self, deed: Deed) -> bool {
        match deed {
            Deed::Append(offset) => self.append(offset),
            Deed::Renew(offset) => {
                compact_journal(self.alloc, &mut self.journal).is_ok() && self.append(offset)
            }
            Deed::Replace(bytes) => self.replace(bytes).is_ok(),
            Deed::Fail => false,
        }
    }
}

impl<'a, R: Files<File = File> + Drop> Write for Scene<'a, R> {
    fn write(&mut self, buf: &[u8]) -> io::Result<usize> {
        if self.written.extend_from_slice(buf).is_err() || self.done >= self.deeds.len() {
            return Err(io::Error::from(ErrorKind::Other));
        }
        let deed = self.deeds[self.done];
        self.done = self.done.saturating_add(1);
        if self.does(deed) {
            Ok(buf.len())
        } else {
            Err(io::Error::from(ErrorKind::Other))
        }
    }

    fn flush(&mut self) -> io::Result<()> {
        Ok(())
    }
}

/// The journal of a new file with that text.
fn journal_of<R: Files<File = File> + Copy + Drop>(
    rt: R,
    alloc: Global,
    file: &str,
) -> Result<Journal<StoredFile<R>>, Fail> {
    let mut how = OpenOptions::new();
    how.read(true).write(true).create(true).truncate(true);
    let mut begun = how.open(&rt, PATH)?;
    begun.write_all(file.as_bytes())?;
    let disk = StoredFile::new(alloc, rt, PATH, begun)?;
    match open_journal(alloc, disk) {
        Ok((_log, journal)) => Ok(journal),
        Err(_) => Err(Fail::from("not opened")),
    }
}

/// What is written while a file is followed to which that happens, and why it ended.
fn followed<R: Files<File = File> + Wait + Clock + Copy + Drop>(
    rt: R,
    alloc: Global,
    row: &Row,
) -> Result<(Vec<u8>, TailError), Fail> {
    let mut scene = Scene {
        files: rt,
        alloc,
        journal: journal_of(rt, alloc, row.file)?,
        deeds: row.deeds,
        done: 0,
        written: Vec::new(alloc),
    };
    let ended = follow_file(&rt, alloc, PATH, row.from, &mut scene);
    let Scene { written, .. } = scene;
    rt.remove_file(PATH)?;
    Ok((written, ended))
}

/// A file, from where it is followed, what happens to it, what is written, why that ends, and the status of a program that ends so.
struct Row {
    file: &'static str,
    from: Option<u64>,
    deeds: &'static [Deed],
    written: &'static str,
    ended: TailError,
    status: u8,
}

static ROWS: [Row; 3] = [
    // It is followed across batches and compactions.
    Row {
        file: "0\t{\"keytype\":\"NOOP\",\"magic\":0}\t1\n\n",
        from: None,
        deeds: &[
            Deed::Append(1),
            Deed::Append(2),
            Deed::Renew(3),
            Deed::Append(4),
            Deed::Fail,
        ],
        written: "0\t{\"keytype\":\"NOOP\",\"magic\":0}\t1\n1\t{\"keytype\":\"NOOP\",\"magic\":0}\t1\n2\t{\"keytype\":\"NOOP\",\"magic\":0}\t1\n3\t{\"keytype\":\"NOOP\",\"magic\":0}\t1\n4\t{\"keytype\":\"NOOP\",\"magic\":0}\t1\n",
        ended: TailError::WriteFault,
        status: 1,
    },
    // A floor above the lines that were passed ends it.
    Row {
        file: "5\tx\ty\n\n",
        from: Some(5),
        deeds: &[
            Deed::Append(6),
            Deed::Replace("floor\t7\n7\tx\ty\n\n"),
            Deed::Replace("floor\t9\n\n"),
        ],
        written: "5\tx\ty\n6\t{\"keytype\":\"NOOP\",\"magic\":0}\t1\n7\tx\ty\n",
        ended: TailError::Floor(9),
        status: 2,
    },
    Row {
        file: "0\tx\ty\n1\tx\tz\n\n",
        from: Some(1),
        deeds: &[Deed::Replace("floor\t3\n3\tx\ta\n\n")],
        written: "1\tx\tz\n",
        ended: TailError::Floor(3),
        status: 2,
    },
];

#[test]
fn a_file_is_followed_until_that_ends(rt: HostRuntime) -> Result<(), Fail> {
    for row in &ROWS {
        let (written, ended) = followed(rt, rt.alloc(), row)?;
        assert_eq!(rt; written.as_slice(), row.written.as_bytes());
        assert!(rt; ended == row.ended && ended.status() == row.status);
    }
    Ok(())
}

#[test]
fn a_file_that_is_not_there_is_no_log(rt: HostRuntime) -> Result<(), Fail> {
    let alloc: Global = rt.alloc();
    let mut out = Vec::new(alloc);
    let ended = follow_file(&rt, alloc, "nothing.log", None, &mut out);
    assert!(rt; ended == TailError::ReadFault && ended.status() == 1);
    fs::write(&rt, "unended.log", "0\tx\ty\n")?;
    let ended = follow_file(&rt, alloc, "unended.log", Some(0), &mut out);
    assert!(rt; ended == TailError::NoEmptyLine && ended.status() == 2 && out.is_empty());
    fs::remove_file(&rt, "unended.log")?;
    Ok(())
}
