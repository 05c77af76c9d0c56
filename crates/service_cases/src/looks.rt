// What becomes of connections at a look.
use crate::stream::{Client, FakeStream, Taker, steps_of};
use reg_connection::{Connection, Limits, Turn};
use std::alloc::Global;
use test_tools::{CaseError, Made, Said};

/// The most looks at a connection.
const LOOKS: u32 = 1_000;

/// The names of what brackets may say.
static NAMES: [&str; 6] = [
    "left",
    "closes",
    "takes",
    "drops",
    "until empty",
    "until over",
];

/// The number behind the name in one of the parts, or nothing where the name stands alone; none where it doesn't stand there.
fn value_in<'p>(parts: &'p str, name: &str) -> Option<&'p str> {
    for part in parts.split(", ") {
        if let Some(value) = part.strip_prefix(name) {
            return Some(value.trim());
        }
    }
    None
}

fn has(parts: &str, name: &str) -> bool {
    value_in(parts, name) == Some("")
}

fn number_in(parts: &str, name: &str) -> Option<u64> {
    value_in(parts, name)?.parse::<u64>().ok()
}

fn is_known(part: &str) -> bool {
    for name in &NAMES {
        if has(part, name) || number_in(part, name).is_some() {
            return true;
        }
    }
    false
}

/// What the brackets say, and the steps behind them, if all of it can be understood.
fn halves_of(given: &str) -> Option<(&str, &str)> {
    let Some(rest) = given.strip_prefix("[") else {
        return Some(("", given));
    };
    let (parts, steps) = rest.split_once("] ")?;
    for part in parts.split(", ") {
        if !is_known(part) {
            return None;
        }
    }
    Some((parts, steps))
}

/// Whether the connection isn't looked at any more.
fn is_met(parts: &str, turn: Turn, held: usize) -> bool {
    if has(parts, "until over") {
        return turn == Turn::Over;
    }
    held == 0 || !has(parts, "until empty")
}

/// Looks at the connection as often as the parts say. How often that was, and what becomes of it.
fn look(
    alloc: Global,
    connection: &mut Connection<FakeStream<'_>, u64>,
    taker: &Taker,
    parts: &str,
) -> (u32, Turn) {
    let mut limits = Limits::of_nodes(1);
    limits.dropped = number_in(parts, "drops").unwrap_or(limits.dropped);
    let takes = number_in(parts, "takes").unwrap_or(0) as usize;
    let mut turn = Turn::Waits;
    for looks in 1..=LOOKS {
        taker.room.set(takes);
        turn = connection.look(alloc, &limits, &mut [0u8; 64], 0);
        if is_met(parts, turn, connection.weight()) {
            return (looks, turn);
        }
    }
    (LOOKS, turn)
}

/// All that is so of a connection of that client.
fn looked(alloc: Global, client: Client<'_>, parts: &str) -> Made<String> {
    let mut connection = Connection::new(alloc, FakeStream::new(client), 0, 0);
    if let Some(left) = number_in(parts, "left") {
        let mut answers = Vec::new(alloc);
        answers.resize(left as usize, b'x')?;
        connection.keep(answers, 0, has(parts, "closes"));
    }
    let (looks, turn) = look(alloc, &mut connection, client.taker, parts);
    let (held, taken) = (connection.weight(), client.taker.taken.get());
    let side = if client.taker.is_told.get() {
        "told"
    } else {
        "open"
    };
    format!(in alloc; "{turn:?}, looks {looks}, held {held}, taken {taken}, {side}")
}

/// Whether all parts of a choice are so.
fn has_all(came: &str, choice: &str) -> bool {
    for part in choice.split(", ") {
        if !came.split(", ").any(|so| so == part) {
            return false;
        }
    }
    true
}

/// What is wanted, where all of one of its choices is so, and else what is so.
fn narrowed(alloc: Global, came: String, wanted: &str) -> Made<String> {
    for choice in wanted.split(" or ") {
        if has_all(came.as_str(), choice) {
            return String::from_str(alloc, wanted);
        }
    }
    Ok(came)
}

/// What is so of a connection of a client.
pub(crate) fn look_text(alloc: Global, given: &str, wanted: &str) -> Said<String> {
    let (parts, text) = halves_of(given).ok_or(CaseError::NotUnderstood)?;
    let steps = steps_of(alloc, text)?;
    let taker = Taker::new();
    let client = Client {
        steps: &steps,
        taker: &taker,
    };
    Ok(narrowed(alloc, looked(alloc, client, parts)?, wanted)?)
}
