// Cases: how they are written in a file, and what came of them.
use std::alloc::{AllocError, AllocFailed, Global};

/// What is made where memory isn't refused.
pub type Made<T> = Result<T, AllocError>;

/// Why nothing comes of words.
#[derive(Clone, Copy, Debug, PartialEq, Eq)]
pub enum CaseError {
    NotUnderstood,
    OutOfMemory,
}

/// What comes of words.
pub type Said<T> = Result<T, CaseError>;

impl From<AllocError> for CaseError {
    fn from(_refused: AllocError) -> CaseError {
        CaseError::OutOfMemory
    }
}

impl<T: Drop> From<AllocFailed<T>> for CaseError {
    fn from(_refused: AllocFailed<T>) -> CaseError {
        CaseError::OutOfMemory
    }
}

/// The number that a word is.
pub fn number_of(word: &str) -> Said<u64> {
    word.parse::<u64>().ok().ok_or(CaseError::NotUnderstood)
}

/// The number of 32 bits that a word is.
pub fn small_of(word: &str) -> Said<u32> {
    word.parse::<u32>().ok().ok_or(CaseError::NotUnderstood)
}

/// What comes before the first space, and what comes after it.
pub fn cut(text: &str) -> (&str, &str) {
    text.split_once(" ").unwrap_or((text, ""))
}

/// What a row asks, and what is wanted of it, which stands behind ` => `.
pub fn halves(row: &str) -> (&str, &str) {
    row.split_once(" => ").unwrap_or((row, ""))
}

/// What a row does, and what is wanted of it, if that is said.
pub fn deed_of(row: &str) -> (&str, Option<&str>) {
    match row.split_once(" => ") {
        Some((words, wanted)) => (words, Some(wanted)),
        None => (row, None),
    }
}

/// Whether a line says something of the cases, and is no part of one.
pub fn is_remark(line: &str) -> bool {
    line.starts_with("#")
}

/// The paragraphs of a file, which empty lines part, without those that hold remarks alone.
pub fn paragraphs_of(alloc: Global, text: &str) -> Made<Vec<&str>> {
    let mut paragraphs = Vec::new(alloc);
    for paragraph in text.split("\n\n") {
        if paragraph
            .lines()
            .any(|line| !line.is_empty() && !is_remark(line))
        {
            paragraphs.push(paragraph)?;
        }
    }
    Ok(paragraphs)
}

/// The lines of a file, or of a paragraph, that are neither empty nor remarks.
pub fn rows_of(alloc: Global, text: &str) -> Made<Vec<&str>> {
    let mut rows = Vec::new(alloc);
    for line in text.lines() {
        if !line.is_empty() && !is_remark(line) {
            rows.push(line)?;
        }
    }
    Ok(rows)
}

/// The texts between which `; ` stands; `none` stands for none.
pub fn parted(alloc: Global, texts: &str) -> Made<Vec<&str>> {
    let mut parts = Vec::new(alloc);
    if texts != "none" {
        for part in texts.split("; ") {
            parts.push(part)?;
        }
    }
    Ok(parts)
}

/// Past so many bytes of what went otherwise no more is printed of a file.
const SHOWN: usize = 50_000;

/// How many cases were tried, and what is printed of those that went otherwise.
#[derive(Drop)]
pub struct Tally {
    pub alloc: Global,
    cases: u64,
    others: String,
    /// What stands above the cases that are tried now.
    title: String,
}

impl Tally {
    pub fn new(alloc: Global) -> Tally {
        Tally {
            alloc,
            cases: 0,
            others: String::new(alloc),
            title: String::new(alloc),
        }
    }

    /// How many cases were counted.
    pub fn cases(&self) -> u64 {
        self.cases
    }

    /// The first cases that went otherwise, each as it stands in its file, below the title of its paragraph, with what was wanted
    /// and what came; empty if there are none.
    pub fn others(&self) -> &str {
        self.others.as_str()
    }

    /// The cases of this paragraph come next: its first line is their title.
    pub fn begin(&mut self, paragraph: &str) -> Made<()> {
        self.title.clear();
        let text = paragraph.trim_start();
        let (title, _rest) = text.split_once('\n').unwrap_or((text, ""));
        self.title.push_str(title)
    }

    /// Counts a case, which is written so in its file, and compares what came of it.
    pub fn count(&mut self, case: &str, wanted: &[u8], came: &[u8]) -> Made<()> {
        self.cases = self.cases.saturating_add(1);
        self.compare(case, wanted, came)
    }

    /// Compares what came of a case that is counted already, as of one that is tried in several ways.
    pub fn compare(&mut self, case: &str, wanted: &[u8], came: &[u8]) -> Made<()> {
        if wanted == came || self.others.len() > SHOWN {
            return Ok(());
        }
        self.show(case)?;
        let wanted = String::from_utf8_lossy(self.alloc, wanted)?;
        let came = String::from_utf8_lossy(self.alloc, came)?;
        write!(self.others, "\n-- wanted\n{wanted}\n-- came\n{came}")
    }

    /// Counts a case of which a text is wanted. One that can't be understood is refused.
    pub fn tell(&mut self, case: &str, wanted: &str, came: Said<String>) -> Made<()> {
        self.cases = self.cases.saturating_add(1);
        self.tell_more(case, wanted, came)
    }

    /// Compares another text of a case that is counted already. One that can't be understood is refused.
    pub fn tell_more(&mut self, case: &str, wanted: &str, came: Said<String>) -> Made<()> {
        match came {
            Ok(came) => self.compare(case, wanted.as_bytes(), came.as_bytes()),
            Err(CaseError::NotUnderstood) => self.show_unclear(case),
            Err(CaseError::OutOfMemory) => Err(AllocError),
        }
    }

    /// Counts a row of which something is wanted. Another one only has to be understood.
    pub fn tell_if(&mut self, row: &str, wanted: Option<&str>, came: Said<String>) -> Made<()> {
        match (wanted, came) {
            (Some(wanted), came) => self.tell(row, wanted, came),
            (None, Err(_)) => self.refuse(row),
            (None, Ok(_)) => Ok(()),
        }
    }

    /// Counts a case that can't be understood.
    pub fn refuse(&mut self, case: &str) -> Made<()> {
        self.cases = self.cases.saturating_add(1);
        self.show_unclear(case)
    }

    fn show_unclear(&mut self, case: &str) -> Made<()> {
        self.show(case)?;
        self.others.push_str("\n-- not understood")
    }

    fn show(&mut self, case: &str) -> Made<()> {
        self.others.push_str("\n== ")?;
        if !self.title.is_empty() && !case.contains(self.title.as_str()) {
            write!(self.others, "{}\n== ", self.title.as_str())?;
        }
        self.others.push_str(case)
    }
}
