// What is drawn of: tables of lines, in whose words the alternatives stand between bars.
use crate::draws::Draws;
use crate::tally::{Made, paragraphs_of};
use std::alloc::Global;

/// The tables of a text: paragraphs whose first line is a name.
#[derive(Drop)]
pub struct Grammar<'t> {
    tables: Vec<&'t str>,
}

impl<'t> Grammar<'t> {
    pub fn of(alloc: Global, text: &'t str) -> Made<Grammar<'t>> {
        let tables = paragraphs_of(alloc, text)?;
        Ok(Grammar { tables })
    }

    /// The lines of the table of that name.
    pub fn table(&self, name: &str) -> &'t str {
        for table in &self.tables {
            let (title, lines) = table.split_once('\n').unwrap_or((*table, ""));
            if title == name {
                return lines.strip_suffix("\n").unwrap_or(lines);
            }
        }
        ""
    }

    /// The number that the table of that name is.
    pub fn number(&self, name: &str) -> u64 {
        self.table(name).parse::<u64>().unwrap_or(0)
    }
}

/// One of the parts of a text.
pub fn drawn_part<'t>(text: &'t str, separator: &str, draws: &mut Draws) -> &'t str {
    let place = draws.place(text.split(separator).count());
    text.split(separator).nth(place).unwrap_or("")
}

/// Adds a word, behind a space but for the first one.
pub fn write_word(out: &mut String, word: &str) -> Made<()> {
    if !out.is_empty() {
        out.push(' ')?;
    }
    out.push_str(word)
}

/// The words of a line that is drawn, after those that stand there already.
pub fn write_drawn(out: &mut String, draws: &mut Draws, lines: &str) -> Made<()> {
    for word in drawn_part(lines, "\n", draws).split(" ") {
        write_word(out, drawn_part(word, "|", draws))?;
    }
    Ok(())
}

/// A line that is drawn.
pub fn drawn_line(alloc: Global, draws: &mut Draws, lines: &str) -> Made<String> {
    let mut words = String::new(alloc);
    write_drawn(&mut words, draws, lines)?;
    Ok(words)
}
