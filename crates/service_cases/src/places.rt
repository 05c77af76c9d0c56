// Places that are taken, lent and given back.
use crate::stream::{Client, FakeStream, Taker, steps_of};
use reg_connection::{Connection, Limits, Places};
use std::alloc::Global;
use test_tools::{CaseError, Made, Said, cut, number_of};

/// Places of connections whose clients follow a script.
type FakePlaces<'a> = Places<FakeStream<'a>, u64>;

/// A connection that came at 3 ms is looked at 1 ms later, and held.
fn hold<'a>(
    alloc: Global,
    places: &mut FakePlaces<'a>,
    place: usize,
    client: Client<'a>,
) -> Made<String> {
    let mut connection = Connection::new(alloc, FakeStream::new(client), place, 3);
    let turn = connection.look(alloc, &Limits::of_nodes(1), &mut [0u8; 64], 4);
    places.hold(place, connection);
    format!(in alloc; "{turn:?}")
}

/// The answer to a question.
fn answer(alloc: Global, places: &FakePlaces<'_>, question: &str, number: usize) -> Said<String> {
    Ok(match question {
        "empty" => format!(in alloc; "{}", places.is_empty())?,
        "full" => format!(in alloc; "{}", places.is_full())?,
        "closed" => format!(in alloc; "{}", places.closed())?,
        "weight" => format!(in alloc; "{}", places.weight())?,
        "stirred" => format!(in alloc; "{}", places.was_stirred(number))?,
        "held" => format!(in alloc; "{}", places.held(number).is_some())?,
        "oldest" => format!(in alloc; "{:?}", places.oldest(number as u64))?,
        "heaviest" => format!(in alloc; "{:?}", places.heaviest())?,
        _ => return Err(CaseError::NotUnderstood),
    })
}

/// Does what a part says, and gives what comes of it. What is lent to a worker has seven bytes.
fn part_text<'a>(
    alloc: Global,
    places: &mut FakePlaces<'a>,
    part: &str,
    client: Client<'a>,
) -> Said<String> {
    let (deed, rest) = cut(part);
    let (word, more) = cut(rest);
    let number = word.parse::<usize>().unwrap_or(usize::MAX);
    match deed {
        "take" => return Ok(format!(in alloc; "{:?}", places.take_free())?),
        "hold" => return Ok(hold(alloc, places, number, client)?),
        "stir" => return Ok(format!(in alloc; "{}", places.stir(number).is_some())?),
        "leave" => places.leave(number),
        "lend" => places.lend(number, 7, more == "stirred"),
        _ => return answer(alloc, places, deed, number),
    }
    Ok(String::from_str(alloc, "done")?)
}

/// Does what each part says, and gives what comes of it.
fn parts_text<'a>(
    alloc: Global,
    places: &mut FakePlaces<'a>,
    parts: &str,
    client: Client<'a>,
) -> Said<String> {
    let mut out = String::new(alloc);
    for part in parts.split(", ") {
        out.push_str(if out.is_empty() { "" } else { ", " })?;
        out.push_str(part_text(alloc, places, part, client)?.as_str())?;
    }
    Ok(out)
}

/// What comes of so many places, whose connections are all of that client.
fn in_places(alloc: Global, count: usize, parts: &str, client: Client<'_>) -> Said<String> {
    let mut places = Places::new(alloc, count)?;
    parts_text(alloc, &mut places, parts, client)
}

/// What comes of what is done with places and asked of them. Behind their number, brackets have what the client of each connection does.
pub(crate) fn places_text(alloc: Global, given: &str) -> Said<String> {
    let (above, parts) = given.split_once(": ").unwrap_or(("", given));
    let (count, script) = cut(above);
    let (count, steps) = (number_of(count)?, steps_of(alloc, script)?);
    let taker = Taker::new();
    let client = Client {
        steps: &steps,
        taker: &taker,
    };
    in_places(alloc, count as usize, parts, client)
}
