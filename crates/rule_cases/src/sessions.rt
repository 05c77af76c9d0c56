// Sessions with a registry.
use crate::judgements::{Fault, asked_of, made, told};
use crate::words::permit_text;
use reg_fold::Registry;
use reg_leader::{Decision, adopt, decide};
use reg_lookup::answer;
use reg_modes::may_set_import;
use reg_records::{Device, Record, read_log};
use reg_replay::candidate;
use reg_set::RecordSet;
use std::alloc::{AllocError, Global};
use test_tools::{CaseError, Made, Said, Tally, halves, number_of, paragraphs_of};
use test_words::{
    adoption_error_text, answer_text, command_in_words, lines_in, parts_of, push_lines,
    query_in_words, record_of, reply_text,
};

/// A session: what stands in its paragraph before the first row, without remarks, its registry, and the next offset.
#[derive(Drop)]
struct Session<'a> {
    alloc: Global,
    head: &'a str,
    registry: Registry,
    next: u64,
}

/// Takes the records of lines.
fn take_all(alloc: Global, set: &mut RecordSet, lines: &str) -> Said<()> {
    for line in lines.lines() {
        set.take(&record_of(alloc, line)?)?;
    }
    Ok(())
}

impl<'a> Session<'a> {
    /// The first line, and the lines of the log.
    fn log(&self) -> (&'a str, &'a str) {
        self.head.split_once('\n').unwrap_or((self.head, ""))
    }

    /// Begins with a log as a file has it, or with records and the next offset.
    fn begin(&mut self) -> Said<()> {
        let (words, lines) = self.log();
        if words == "log read" {
            let text = format!(in self.alloc; "{lines}\n\n")?;
            let read = read_log(self.alloc, &mut Device::new(text.as_bytes()));
            let log = read.ok().ok_or(CaseError::NotUnderstood)?;
            self.next = log.next;
            return Ok(self.registry.apply_all(&log.records)?);
        }
        self.next = number_of(words.strip_prefix("log before ").unwrap_or(""))?;
        for line in lines.lines() {
            if !line.starts_with("judged ") {
                self.registry.apply(&record_of(self.alloc, line)?)?;
            }
        }
        Ok(())
    }

    /// What is decided on a command, with a judgement in words, if there is one.
    fn decided(&self, words: &str, judged: Option<&str>) -> Result<Decision, Fault> {
        let command = command_in_words(self.alloc, words)?;
        let judged = match judged {
            Some(judged) => Some(made(self.alloc, None, &asked_of(self.alloc, judged)?)?),
            None => None,
        };
        Ok(decide(
            self.alloc,
            &self.registry,
            self.next,
            &command,
            judged.as_ref(),
        ))
    }

    /// Whether the batch tells a command that writes the same; one without records tells none.
    fn is_replayed(&self, batch: &[Record]) -> Made<bool> {
        let Some(command) = candidate(self.alloc, &self.registry, batch)? else {
            return Ok(batch.is_empty());
        };
        let again = decide(self.alloc, &self.registry, self.next, &command, None);
        Ok(again.batch.as_slice() == batch)
    }

    /// The reply to a command, and below it what is written.
    fn came(&self, words: &str, judged: Option<&str>) -> Result<String, Fault> {
        let decision = self.decided(words, judged)?;
        let batch = decision.batch.as_slice();
        let mut text = reply_text(self.alloc, &decision.reply)?;
        push_lines(self.alloc, &mut text, batch)?;
        if !self.is_replayed(batch)? {
            text.push_str("\n(these tell no command that writes them)")?;
        }
        Ok(text)
    }

    /// Counts a row, whose words stand before what is wanted in its first line.
    fn count(&self, tally: &mut Tally, row: &str, came: Said<String>) -> Made<()> {
        let (_words, wanted) = halves(row);
        tally.tell(row, wanted, came)
    }

    /// Tries a command without a judgement, and with each that is handed in, and takes what it writes.
    fn try_command(&mut self, tally: &mut Tally, row: &str) -> Made<()> {
        let (words, _wanted) = halves(row);
        self.count(tally, row, told(self.alloc, self.came(words, None)))?;
        for line in self.head.lines() {
            if let Some(judged) = line.strip_prefix("judged ") {
                let came = self.came(words, Some(judged));
                self.count(tally, row, told(self.alloc, came))?;
            }
        }
        if let Ok(decision) = &self.decided(words, None) {
            let batch = decision.batch.as_slice();
            self.registry.apply_all(batch)?;
            self.next = self.next.saturating_add(batch.len() as u64);
        }
        Ok(())
    }

    /// Whether a topic can begin with the set of the log's records, and below that what is due, if that is asked for.
    fn adopted(&self, with_due: bool) -> Said<String> {
        let mut set = RecordSet::new(self.alloc);
        take_all(self.alloc, &mut set, self.log().1)?;
        match &adopt(self.alloc, &set, self.next) {
            Ok(adopted) => {
                let mut text = String::from_str(self.alloc, "adopted")?;
                if with_due {
                    push_lines(self.alloc, &mut text, &adopted.due)?;
                }
                Ok(text)
            }
            Err(error) => Ok(adoption_error_text(self.alloc, *error)?),
        }
    }

    /// What comes of a question.
    fn asked(&self, words: &str) -> Said<String> {
        let (kind, switch, rest) = parts_of(words);
        match kind {
            "adoption" => self.adopted(false),
            "due" => self.adopted(true),
            "may_import" => {
                let subject = if rest == "*" { None } else { Some(rest) };
                permit_text(self.alloc, may_set_import(&self.registry, subject, switch))
            }
            _ => {
                let query = query_in_words(self.alloc, words)?;
                let answer = answer(self.alloc, &self.registry, &query)?;
                Ok(answer_text(self.alloc, &answer)?)
            }
        }
    }

    fn try_rows(&mut self, tally: &mut Tally, rows: &str) -> Made<()> {
        match self.begin() {
            Ok(()) => {}
            Err(CaseError::OutOfMemory) => return Err(AllocError),
            Err(CaseError::NotUnderstood) => return tally.refuse(self.head),
        }
        for row in rows.split("\n> ") {
            let (words, _wanted) = halves(row);
            match words.strip_prefix("ask ") {
                Some(question) => self.count(tally, row, self.asked(question))?,
                None => self.try_command(tally, row)?,
            }
        }
        Ok(())
    }
}

/// Tries each row of a paragraph, without its remarks.
fn try_session(tally: &mut Tally, lines: &str) -> Made<()> {
    let Some((head, rows)) = lines.split_once("\n> ") else {
        return tally.refuse(lines);
    };
    let mut session = Session {
        alloc: tally.alloc,
        head,
        registry: Registry::empty(tally.alloc),
        next: 0,
    };
    session.try_rows(tally, rows)
}

/// Tries each row of each session.
pub(crate) fn try_sessions(tally: &mut Tally, text: &str) -> Made<()> {
    for paragraph in &paragraphs_of(tally.alloc, text)? {
        tally.begin(paragraph)?;
        let lines = lines_in(tally.alloc, paragraph)?;
        try_session(tally, lines.as_str())?;
    }
    Ok(())
}
