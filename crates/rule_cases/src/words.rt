// Names, and what modes permit.
use reg_fold::Refusal;
use reg_level_names::Level;
use reg_modes::{Mode, may_register, may_write};
use std::alloc::Global;
use test_tools::{CaseError, Made, Said, Tally, cut, halves, rows_of, text_in};
use test_words::{mode_of, refusal_text};

/// `permitted`, or why not.
pub(crate) fn permit_text(alloc: Global, permit: Result<(), Refusal>) -> Said<String> {
    match &permit {
        Ok(()) => Ok(String::from_str(alloc, "permitted")?),
        Err(refusal) => Ok(refusal_text(alloc, refusal)?),
    }
}

fn came_of(alloc: Global, words: &str) -> Said<String> {
    let (kind, rest) = cut(words);
    let text = text_in(alloc, rest)?;
    let name = match kind {
        "level" => Level::parse(text.as_str()).map(|level| level.as_str()),
        "mode" => Mode::parse(text.as_str()).map(|mode| mode.as_str()),
        "register" => return permit_text(alloc, may_register(mode_of(rest)?, false)),
        "import" => return permit_text(alloc, may_register(mode_of(rest)?, true)),
        "write" => return permit_text(alloc, may_write(mode_of(rest)?)),
        _ => return Err(CaseError::NotUnderstood),
    };
    Ok(String::from_str(alloc, name.unwrap_or("none"))?)
}

/// Tries each row.
pub(crate) fn try_words(tally: &mut Tally, text: &str) -> Made<()> {
    for row in &rows_of(tally.alloc, text)? {
        let (words, wanted) = halves(row);
        tally.tell(row, wanted, came_of(tally.alloc, words))?;
    }
    Ok(())
}
