// Files that are followed, look by look.
ghost use Rattle.std.specs.Prelude.{IfOk};
ghost use Rattle.reg_tail.specs.Tail.{HasGiven};

use crate::form::{Came, Form, shown, try_lines};
use crate::page::Page;
use reg_tail::{Source, Tail, TailError, write_begun, write_look, write_more};
use std::alloc::Global;
use std::io::{self, ErrorKind, Write};
use test_tools::{CaseError, Made, Tally, bytes_of, cut, number_of, paragraphs_of};

/// A writer that may fail to take bytes, or take them all and then fail to hand them on.
#[derive(Drop)]
struct Sheet {
    bytes: Vec<u8>,
    write_fails: bool,
    flush_fails: bool,
}

impl Write for Sheet {
    fn write(&mut self, buf: &[u8]) -> io::Result<usize> {
        if self.write_fails {
            return Err(io::Error::from(ErrorKind::Other));
        }
        if !self.flush_fails {
            self.bytes.extend_from_slice(buf)?;
        }
        Ok(buf.len())
    }

    fn flush(&mut self) -> io::Result<()> {
        if self.flush_fails {
            return Err(io::Error::from(ErrorKind::Other));
        }
        Ok(())
    }
}

/// Begins with a file, and looks once more: the two texts together are the lines of the file.
fn begun_and_more<S: Source>(
    alloc: Global,
    source: &mut S,
    from: u64,
) -> Result<(Tail, Vec<u8>), TailError>
    ensures { S.known source.old → IfOk result (λ it. HasGiven it.0 (S.seen source.new) it.1.items) }
{
    let (mut tail, mut text) = Tail::begin(alloc, source, from)?;
    let more = tail.more(alloc, source)?;
    text.extend_from_slice(&more)?;
    Ok((tail, text))
}

/// Why a file isn't followed any more, behind the status of a program that ends so.
fn refused(alloc: Global, error: TailError) -> Came {
    Ok(format!(in alloc; "{}: {error}", error.status())?)
}

/// A file, its reader, and what is written of it.
#[derive(Drop)]
struct Scene {
    page: Page,
    tail: Option<Tail>,
    sheet: Sheet,
}

impl Scene {
    /// What fails from now on, and nothing else.
    fn fail(&mut self, alloc: Global, what: &str) -> Came {
        if !matches!(what, "nothing" | "read" | "sync" | "write" | "flush") {
            return Err(CaseError::NotUnderstood);
        }
        self.page.read_fails = what == "read";
        self.page.sync_fails = what == "sync";
        self.sheet.write_fails = what == "write";
        self.sheet.flush_fails = what == "flush";
        Ok(String::new(alloc))
    }

    /// What was written, and why nothing more is.
    fn written(&mut self, alloc: Global, answer: Result<(), TailError>) -> Came {
        let text = shown(alloc, &self.sheet.bytes)?;
        self.sheet.bytes = Vec::new(alloc);
        match answer {
            Ok(()) => Ok(text),
            Err(error) => {
                let told = refused(alloc, error)?;
                Ok(format!(in alloc; "{} & {}", text.as_str(), told.as_str())?)
            }
        }
    }

    fn begin(&mut self, alloc: Global, from: u64) -> Came {
        match write_begun(alloc, &mut self.page, from, &mut self.sheet) {
            Ok(tail) => {
                self.tail = Some(tail);
                let text = self.written(alloc, Ok(()))?;
                Ok(format!(in alloc; "{} & next {}", text.as_str(), tail.next)?)
            }
            Err(error) => self.written(alloc, Err(error)),
        }
    }

    fn more(&mut self, alloc: Global) -> Came {
        let Some(mut tail) = self.tail else {
            return Err(CaseError::NotUnderstood);
        };
        let answer = write_more(alloc, &mut tail, &mut self.page, &mut self.sheet);
        self.tail = Some(tail);
        self.written(alloc, answer)
    }

    fn look(&mut self, alloc: Global) -> Came {
        let Some(mut tail) = self.tail else {
            return Err(CaseError::NotUnderstood);
        };
        let answer = write_look(alloc, &mut tail, &mut self.page, &mut self.sheet);
        self.tail = Some(tail);
        match answer {
            Ok(false) => self.written(alloc, Ok(())),
            Ok(true) => {
                let text = self.written(alloc, Ok(()))?;
                Ok(format!(in alloc; "{} & another file", text.as_str())?)
            }
            Err(error) => self.written(alloc, Err(error)),
        }
    }

    fn both(&mut self, alloc: Global, from: u64) -> Came {
        match begun_and_more(alloc, &mut self.page, from) {
            Ok((it, text)) => {
                let text = shown(alloc, &text)?;
                let (place, lines, from, next) = (it.place, it.lines, it.from, it.next);
                Ok(format!(in alloc;
                    "{} & place {place}, lines {lines}, from {from}, next {next}",
                    text.as_str()
                )?)
            }
            Err(error) => refused(alloc, error),
        }
    }

    /// How often the file was synced since this was asked last, and whether all that it has was there then.
    fn synced(&mut self, alloc: Global) -> Came {
        let syncs = self.page.syncs;
        self.page.syncs = 0;
        if syncs > 0 && self.page.synced != self.page.bytes {
            return Ok(format!(in alloc; "{syncs}, too early")?);
        }
        Ok(format!(in alloc; "{syncs}")?)
    }
}

impl Form for Scene {
    fn came(&mut self, alloc: Global, asked: &str) -> Came {
        let (command, rest) = cut(asked);
        match command {
            "file" => self.page.bytes = bytes_of(alloc, rest)?,
            "renamed" => self.page.other = Some(bytes_of(alloc, rest)?),
            "fails" => return self.fail(alloc, rest),
            "begin" => return self.begin(alloc, number_of(rest)?),
            "more" => return self.more(alloc),
            "look" => return self.look(alloc),
            "both" => return self.both(alloc, number_of(rest)?),
            "syncs" => return self.synced(alloc),
            _ => return Err(CaseError::NotUnderstood),
        }
        Ok(String::new(alloc))
    }
}

/// A file without bytes, of which nothing was read.
fn new_scene(alloc: Global) -> Scene {
    Scene {
        page: Page::new(alloc),
        tail: None,
        sheet: Sheet {
            bytes: Vec::new(alloc),
            write_fails: false,
            flush_fails: false,
        },
    }
}

/// Tries each paragraph, with a file of its own.
pub(crate) fn try_tails(tally: &mut Tally, text: &str) -> Made<()> {
    for paragraph in &paragraphs_of(tally.alloc, text)? {
        tally.begin(paragraph)?;
        try_lines(tally, paragraph, &mut new_scene(tally.alloc))?;
    }
    Ok(())
}
