// A desk that notes what it is asked and told.
ghost use Rattle.std.specs.Prelude.{⊤};

use base_text::Text;
use reg_http::{Desk, Served, serve};
use reg_leader::{Command, Reply};
use reg_lookup::{Answer, Query};
use reg_records::Device;
use std::alloc::{AllocError, Global};
use std::io::{BufRead, Write};
use test_tools::Made;

/// Answers each query with an empty list, and replies to each command with the number of what was
/// noted. It has no memory for the schema of the id 13.
#[derive(Drop)]
pub(crate) struct NotingDesk {
    pub(crate) notes: String,
    pub(crate) count: u32,
}

impl NotingDesk {
    pub(crate) fn new(alloc: Global) -> NotingDesk {
        NotingDesk {
            notes: String::new(alloc),
            count: 0,
        }
    }

    fn note(&mut self, kind: &str, what: &str) {
        self.count = self.count.saturating_add(1);
        for part in [kind, " ", what, ";"] {
            if self.notes.push_str(part).is_err() {
                self.count = 0;
            }
        }
    }
}

impl Desk for NotingDesk {
    ghost asks = { λ _ _ _ _. ⊤ };

    ghost commands = { λ _ _ _ _. ⊤ };

    fn ask(&mut self, alloc: Global, query: &Query) -> Made<Answer> {
        match query {
            Query::Level {
                subject: _,
                default_global: _,
            } => self.note("level", ""),
            Query::SchemaById { id: 13 } => {
                self.note("no memory", "");
                return Err(AllocError);
            }
            _ => self.note("query", ""),
        }
        Ok(Answer {
            status: 200,
            body: Text::copy_of(alloc, "[]")?,
        })
    }

    fn command(&mut self, command: &Command) -> Reply {
        match command {
            Command::Register { subject, text: _ } => self.note("register", subject.as_str()),
            Command::DeleteSubject {
                subject,
                permanent: _,
            } => self.note("delete", subject.as_str()),
            Command::SetLevel { subject: _, level } => self.note("set", level.as_str()),
            _ => self.note("command", ""),
        }
        Reply::Id(self.count)
    }
}

/// How a call of `serve` ended at a desk.
pub(crate) fn served<R: BufRead, W: Write>(
    alloc: Global,
    reader: &mut Device<R>,
    writer: &mut Device<W>,
    desk: &mut NotingDesk,
) -> Made<String> {
    match serve(alloc, reader, writer, desk) {
        Ok(Served { requests }) => format!(in alloc; "{requests} served"),
        Err(error) => format!(in alloc; "{error:?}"),
    }
}
