// Words of which commands and queries are made.
use base_text::Text;
use reg_fold::VersionRef;
use reg_level_names::Level;
use reg_modes::Mode;
use std::alloc::Global;
use test_tools::{CaseError, Made, Said, cut, small_of, text_in};

/// The words of a command or a query: its kind, whether a `+` stands behind that, and its arguments.
pub fn parts_of(words: &str) -> (&str, bool, &str) {
    let (kind, rest) = cut(words);
    match kind.strip_suffix("+") {
        Some(kind) => (kind, true, rest),
        None => (kind, false, rest),
    }
}

/// The subject that a word is.
pub fn subject_in_words(alloc: Global, word: &str) -> Made<Text> {
    Text::of_string(text_in(alloc, word)?)
}

/// The subject that a word is; `None` for `*`, which is all subjects.
pub fn scope_of(alloc: Global, word: &str) -> Made<Option<Text>> {
    match word {
        "*" => Ok(None),
        _ => Ok(Some(subject_in_words(alloc, word)?)),
    }
}

/// The text of a schema: what stands behind a `=`, that of the primitive type of the name, or what stands there.
pub fn schema_of(alloc: Global, words: &str) -> Made<Text> {
    if let Some(written) = words.strip_prefix("=") {
        return Text::of_string(text_in(alloc, written)?);
    }
    match words.as_bytes().first() {
        Some(b'a'..=b'z') => Text::of_string(format!(in alloc; "\"{words}\"")?),
        _ => Text::copy_of(alloc, words),
    }
}

/// The version that a word is; `None` for `-`.
pub(crate) fn version_in(word: &str) -> Said<Option<VersionRef>> {
    match word {
        "-" => Ok(None),
        "latest" => Ok(Some(VersionRef::Latest)),
        _ => Ok(Some(VersionRef::Number(small_of(word)?))),
    }
}

/// The version that a word is.
pub(crate) fn version_of(word: &str) -> Said<VersionRef> {
    version_in(word)?.ok_or(CaseError::NotUnderstood)
}

pub fn level_of(name: &str) -> Said<Level> {
    Level::parse(name).ok_or(CaseError::NotUnderstood)
}

pub fn mode_of(name: &str) -> Said<Mode> {
    Mode::parse(name).ok_or(CaseError::NotUnderstood)
}
