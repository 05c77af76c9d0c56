// Lists of events that are drawn, over bases that are drawn, on a world and on a plain one.
use crate::both::Both;
use reg_records::Log;
use std::alloc::Global;
use test_tools::{
    Draws, Grammar, Made, Said, Tally, drawn_line, drawn_part, write_drawn, write_word,
};
use test_words::{log_of, registry_of};

/// What comes of a list in which everything goes alike.
static ALIKE: &str = "all as on plain lists";

/// Less places than the limit, where anything was written: mostly of what is kept.
fn write_places(out: &mut String, draws: &mut Draws, both: &Both, limit: u64) -> Made<()> {
    let count = both.plain.written.len();
    if count == 0 {
        return Ok(());
    }
    for _ in 0..draws.below(limit) {
        let mut place = draws.place(count);
        for _ in 0..5 {
            if !both.plain.is_kept(place) {
                place = draws.place(count);
            }
        }
        write!(out, " {place}")?;
    }
    Ok(())
}

/// A floor, mostly one between the kept floor and the next offset, and the places of all that may leave what is kept there.
fn write_floor(out: &mut String, draws: &mut Draws, both: &Both, with_places: bool) -> Made<()> {
    let least = both.plain.floor.saturating_sub(1);
    let more = both.plain.next.saturating_sub(least).saturating_add(3);
    let floor = least.saturating_add(draws.below(more));
    write!(out, " {floor}")?;
    for place in 0..both.plain.written.len() {
        if with_places && both.plain.may_leave(place, floor) {
            write!(out, " {place}")?;
        }
    }
    Ok(())
}

/// The words of a line that is drawn, with what stands for places and floors.
fn drawn_other(alloc: Global, draws: &mut Draws, both: &Both, lines: &str) -> Made<String> {
    let mut out = String::new(alloc);
    for word in drawn_part(lines, "\n", draws).split(" ") {
        match word {
            "@" => write_places(&mut out, draws, both, 8)?,
            "%" => write_places(&mut out, draws, both, 3)?,
            "^" => write_floor(&mut out, draws, both, false)?,
            "^!" => write_floor(&mut out, draws, both, true)?,
            _ => write_word(&mut out, drawn_part(word, "|", draws))?,
        }
    }
    Ok(out)
}

/// The log of a base.
fn drawn_base(alloc: Global, draws: &mut Draws, grammar: &Grammar) -> Said<Log> {
    let mut lines = Vec::new(alloc);
    if draws.below(2) == 0 {
        lines.push(drawn_line(alloc, draws, grammar.table("floors"))?)?;
    }
    for _ in 0..draws.below(14) {
        lines.push(drawn_line(alloc, draws, grammar.table("bases"))?)?;
    }
    let mut records = Vec::new(alloc);
    for line in &lines {
        records.push(line.as_str())?;
    }
    log_of(alloc, &records)
}

/// The first base that is drawn and over which a registry takes commands.
fn drawn_log(alloc: Global, draws: &mut Draws, grammar: &Grammar) -> Said<Log> {
    for _ in 0..20 {
        let log = drawn_base(alloc, draws, grammar)?;
        if !registry_of(alloc, &log.records)?.is_closed() {
            return Ok(log);
        }
    }
    log_of(alloc, &[])
}

fn drawn_event(draws: &mut Draws, both: &Both, grammar: &Grammar) -> Made<String> {
    if draws.below(2) != 0 {
        return drawn_other(both.alloc, draws, both, grammar.table("others"));
    }
    let mut words = drawn_line(both.alloc, draws, grammar.table("heads"))?;
    write_drawn(&mut words, draws, grammar.table("commands"))?;
    Ok(words)
}

fn drawn_lookup(alloc: Global, draws: &mut Draws, grammar: &Grammar) -> Made<String> {
    let mut words = String::from_str(alloc, "lookup")?;
    write_drawn(&mut words, draws, grammar.table("nodes"))?;
    write_drawn(&mut words, draws, grammar.table("queries"))?;
    Ok(words)
}

/// The first of the events that has another outcome, or after which the log has other entries or a lookup another answer: than the
/// plain one, or, at a node that is caught up, than the log.
fn other_event(draws: &mut Draws, both: &mut Both, grammar: &Grammar) -> Said<String> {
    for _ in 0..grammar.number("events") {
        let words = drawn_event(draws, both, grammar)?;
        both.step(words.as_str())?;
        both.compare_entries()?;
        if both.differ {
            return Ok(words);
        }
        let words = drawn_lookup(both.alloc, draws, grammar)?;
        both.step(words.as_str())?;
        if both.differ {
            return Ok(words);
        }
    }
    Ok(String::from_str(both.alloc, ALIKE)?)
}

/// What comes of the list of that number.
fn came_of(alloc: Global, list: u64, grammar: &Grammar) -> Said<String> {
    let mut draws = Draws::new(list);
    let log = drawn_log(alloc, &mut draws, grammar)?;
    let mut both = Both::start(alloc, 3, &log)?;
    other_event(&mut draws, &mut both, grammar)
}

/// Tries the lists that are drawn, each of which is a case.
pub(crate) fn try_worlds(tally: &mut Tally, text: &str) -> Made<()> {
    let alloc = tally.alloc;
    let grammar = Grammar::of(alloc, text)?;
    for list in 0..grammar.number("lists") {
        let case = format!(in alloc; "list {list}")?;
        tally.tell(case.as_str(), ALIKE, came_of(alloc, list, &grammar))?;
    }
    Ok(())
}
