// Lines of cases: each asks for something, and says what is to come of it.
use std::alloc::{AllocError, Global};
use test_tools::{CaseError, Made, Said, Tally, bytes_of, deed_of, rows_of};

/// What comes of a line: a text if it asks, and none if it changes what the later ones ask.
pub(crate) type Came = Said<String>;

/// What lines are put to, one after the other.
pub(crate) trait Form {
    /// What comes of a line, up to its arrow.
    fn came(&mut self, alloc: Global, asked: &str) -> Came;
}

/// Bytes as a text, or a `-` for none.
pub(crate) fn shown(alloc: Global, bytes: &[u8]) -> Came {
    if bytes.is_empty() {
        return Ok(String::from_str(alloc, "-")?);
    }
    Ok(String::from_utf8_lossy(alloc, bytes)?)
}

/// Tries a line: it asks, and something is wanted of it, or it is no case and only changes what the later ones ask.
pub(crate) fn try_line<F: Form>(tally: &mut Tally, line: &str, form: &mut F) -> Made<()> {
    let (asked, wanted) = deed_of(line);
    match (wanted, form.came(tally.alloc, asked)) {
        (Some(wanted), Ok(came)) if !came.is_empty() => {
            let wanted = bytes_of(tally.alloc, wanted)?;
            tally.count(line, &wanted, came.as_bytes())
        }
        (None, Ok(came)) if came.is_empty() => Ok(()),
        (_, Err(CaseError::OutOfMemory)) => Err(AllocError),
        _ => tally.refuse(line),
    }
}

/// Tries each line of a text.
pub(crate) fn try_lines<F: Form>(tally: &mut Tally, text: &str, form: &mut F) -> Made<()> {
    for line in &rows_of(tally.alloc, text)? {
        try_line(tally, line, form)?;
    }
    Ok(())
}
