// Three nodes that take what is kept after each event of a list, each in its own way.
use crate::both::Both;
use std::alloc::{AllocError, Global};
use test_tools::{Made, Said, Tally, deed_of, paragraphs_of, rows_of};
use test_words::empty_log;

/// Takes what is kept in so many pieces, the later places first, where the node is rebased if it hasn't the kept floor; whether all
/// that is done.
fn take_in(both: &mut Both, node: usize, pieces: usize) -> Said<bool> {
    if !come_to_floor(both, node)? {
        return Ok(false);
    }
    for piece in 0..pieces {
        let mut words = format!(in both.alloc; "take {node}")?;
        for place in (0..both.plain.written.len()).rev() {
            if place.checked_rem(pieces) == Some(piece) && both.plain.is_kept(place) {
                write!(words, " {place}")?;
            }
        }
        if !both.does(words.as_str())? {
            return Ok(false);
        }
    }
    Ok(true)
}

/// Rebases the node where it hasn't the kept floor.
fn come_to_floor(both: &mut Both, node: usize) -> Said<bool> {
    if both.plain.is_at_floor(node) {
        return Ok(true);
    }
    let words = format!(in both.alloc; "rebase {node}")?;
    both.does(words.as_str())
}

/// The second node takes from the first one.
fn merge(both: &mut Both) -> Said<bool> {
    Ok(come_to_floor(both, 1)? && both.does("merge 1 0")?)
}

/// The first node takes what is kept in three pieces and at times compacts it. The second one compacts what it took, begins anew, or
/// takes from the first one, by turns. The third one begins anew.
fn follow(both: &mut Both, turn: usize) -> Said<bool> {
    let is_first = take_in(both, 0, 3)?;
    let is_second = match turn % 5 {
        0 => both.does("restart 1")? && take_in(both, 1, 30)?,
        1 => take_in(both, 1, 1)? && both.does("compact_node 1")?,
        2 => merge(both)?,
        3 => both.does("restart 1")? && merge(both)?,
        _ => take_in(both, 1, 2)? && both.does("merge 1 1")?,
    };
    let is_compacted = turn % 7 != 6 || both.does("compact_node 0")?;
    let is_third = both.does("restart 2")? && take_in(both, 2, 1)?;
    Ok(is_first && is_second && is_compacted && is_third)
}

/// Whether two nodes answer as the third one does.
fn answer_alike(both: &mut Both, query: &str) -> Said<bool> {
    let mut alike = true;
    let words = format!(in both.alloc; "lookup 2 {query}")?;
    let expected = both.step(words.as_str())?;
    for node in 0..2 {
        let words = format!(in both.alloc; "lookup {node} {query}")?;
        let found = both.step(words.as_str())?;
        alike = alike && found.as_str() == expected.as_str();
    }
    Ok(alike)
}

/// What comes of an event, where all goes on as on plain lists behind it. Five of the queries are asked then, and others each time.
fn came_of(both: &mut Both, queries: &[&str], words: &str, turn: usize) -> Said<String> {
    let found = both.step(words)?;
    if both.differ {
        return Ok(String::from_str(both.alloc, "another outcome than on plain lists")?);
    }
    if !follow(both, turn)? {
        return Ok(String::from_str(both.alloc, "behind it a node takes otherwise")?);
    }
    for later in [0, 5, 10, 15, 20] {
        let place = turn.wrapping_add(later).checked_rem(queries.len());
        let query = queries.get(place.unwrap_or(0)).copied().unwrap_or("");
        if !answer_alike(both, query)? || both.differ {
            return Ok(String::from_str(both.alloc, "behind it a node answers otherwise")?);
        }
    }
    Ok(found)
}

fn both_over_nothing(alloc: Global) -> Made<Both> {
    Both::start(alloc, 3, &empty_log(alloc)?)
        .ok()
        .ok_or(AllocError)
}

/// Tries the events in worlds that are lent, so that none has to be dropped on the way.
fn try_rows(tally: &mut Tally, both: &mut Both, queries: &[&str], rows: &[&str]) -> Made<()> {
    for (turn, row) in rows.iter().enumerate() {
        let (words, wanted) = deed_of(row);
        tally.tell_if(row, wanted, came_of(both, queries, words, turn))?;
    }
    Ok(())
}

/// Tries the events, with the queries of the paragraph above them.
pub(crate) fn try_followed(tally: &mut Tally, text: &str) -> Made<()> {
    let paragraphs = paragraphs_of(tally.alloc, text)?;
    let [queries, events] = paragraphs.as_slice() else {
        return tally.refuse(text);
    };
    let queries = rows_of(tally.alloc, queries)?;
    let rows = rows_of(tally.alloc, events)?;
    let mut both = both_over_nothing(tally.alloc)?;
    try_rows(tally, &mut both, &queries, &rows)
}
