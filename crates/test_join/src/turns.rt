// Turns at desks of processes over one chain, and what comes of them.
use crate::chains::Shelf;
use crate::desks::wrong_step;
use crate::opening::Common;
use reg_http::{Desk, reply_answer};
use std::alloc::{AllocError, Global};
use std::cell::RefCell;
use std::hash::RandomState;
use std::rc::Rc;
use std::sync::Wait;
use std::test::Fail;
use std::time::Clock;
use test_tools::{Said, Tally, cut, halves, paragraphs_of, rows_of, small_of};
use test_words::{answer_text, command_in_words, query_in_words};

/// Steps at the desk of a process that begins with an empty log, after the turns before.
#[derive(Drop)]
pub(crate) struct Turn<'a> {
    /// How many workers may wait for the log.
    pub(crate) waits: u32,
    pub(crate) steps: &'a [&'a str],
    /// How many batches the chain has at the end.
    pub(crate) batches: usize,
    /// Whether a check is wanted then.
    pub(crate) is_wanted: bool,
    /// Whether the chain is spoilt before, so that nothing more is taken in.
    pub(crate) is_spoilt: bool,
}

/// Each turn has a line with how many workers may wait, how many batches the chain has at the end, and whether a check is `wanted` then, or
/// the chain is `spoilt` before. Then come its steps: a command or a query, and the status and the body of what is answered.
static TURNS: &str = r#"
# Nobody else has written.
1 4 none
register s "int" => 200 {"id":1}
versions s => 200 [1]
schema 1 => 200 {"schema":"\"int\""}
register s "long" => 200 {"id":2}
versions s => 200 [1,2]
schema 2 => 200 {"schema":"\"long\""}
register s  "int"  => 200 {"id":1}
versions s => 200 [1,2]
set_level * FULL => 200 {"compatibility":"FULL"}
level * => 200 {"compatibilityLevel":"FULL"}
delete s 1 => 200 1
versions s => 200 [2]

# The first command takes in what another one wrote, and is refused for it.
1 5 none
versions s => 404 {"error_code":40401,"message":"Subject not found"}
register s "string" => 409 {"error_code":409,"message":"Incompatible with version 2, BACKWARD, at /: TYPE_MISMATCH"}
versions s => 200 [2]
set_level * NONE => 200 {"compatibility":"NONE"}

# The next id and the next version come after those of the others.
1 6 none
register s "string" => 200 {"id":3}
versions s => 200 [2,3]
schema 1 => 200 {"schema":"\"int\""}
level * => 200 {"compatibilityLevel":"NONE"}

# Nobody may wait for the log.
0 6 none
register s "long" => 503 {"error_code":50302,"message":"Store error: declined"}
set_level * FULL => 503 {"error_code":50302,"message":"Store error: declined"}
level * => 200 {"compatibilityLevel":"BACKWARD"}
versions s => 404 {"error_code":40401,"message":"Subject not found"}
schema 2 => 404 {"error_code":40403,"message":"Schema not found"}

# A lookup wants a check that nobody makes. Then the same schema as another's is registered, and nothing is written.
1 6 wanted
schema 2 => 404 {"error_code":40403,"message":"Schema not found"}
register s "long" => 200 {"id":2}
schema 2 => 200 {"schema":"\"long\""}

# What stands last is no command's. All before it is taken in.
1 7 spoilt
register s "bytes" => 503 {"error_code":50302,"message":"Store error: declined"}
versions s => 200 [2,3]
set_level * FULL => 503 {"error_code":50302,"message":"Store error: declined"}
"#;

/// The turn of a first line and its steps.
fn turn_of<'a>(first: &str, steps: &'a [&'a str]) -> Said<Turn<'a>> {
    let (waits, rest) = cut(first);
    let (batches, wanted) = cut(rest);
    Ok(Turn {
        waits: small_of(waits)?,
        steps,
        batches: small_of(batches)? as usize,
        is_wanted: wanted == "wanted",
        is_spoilt: wanted == "spoilt",
    })
}

/// Whether what is asked in the step is answered at the desk as it says.
pub(crate) fn comes_out<D: Desk>(alloc: Global, desk: &mut D, step: &str) -> Said<bool> {
    let (asked, wanted) = halves(step);
    let answer = match query_in_words(alloc, asked) {
        Ok(query) => desk.ask(alloc, &query)?,
        Err(_) => reply_answer(alloc, &desk.command(&command_in_words(alloc, asked)?))?,
    };
    let came = answer_text(alloc, &answer)?;
    Ok(came.as_str() == wanted)
}

/// The first step of a turn that doesn't come out, or their number where its end doesn't.
fn wrong_step_in<R: Wait + Clock + Drop + Copy>(
    common: &Common<R>,
    paragraph: &str,
    keys: RandomState,
) -> Result<Option<usize>, Fail> {
    let rows = rows_of(common.alloc, paragraph)?;
    let (first, steps) = rows.split_first().ok_or(AllocError)?;
    wrong_step(common, &turn_of(first, steps)?, keys)
}

/// Takes each turn. What all are opened over is lent, so that it hasn't to be dropped on the way.
fn take_turns<R: Wait + Clock + Drop + Copy>(
    common: &Common<R>,
    keys: RandomState,
    tally: &mut Tally,
) -> Result<(), Fail> {
    for paragraph in &paragraphs_of(common.alloc, TURNS)? {
        let came = match wrong_step_in(common, paragraph, keys)? {
            Some(place) => format!(in common.alloc; "wrong at {place}")?,
            None => String::new(common.alloc),
        };
        tally.count(paragraph, b"", came.as_bytes())?;
    }
    Ok(())
}

#[test]
fn desks_take_in_what_others_wrote(rt: HostRuntime) -> Result<(), Fail> {
    let mut shelf = Shelf::new(rt.alloc(), 0);
    let _was_behind = shelf.mend();
    let common = Common {
        alloc: rt.alloc(),
        rt: &rt,
        shelf: Rc::new(rt.alloc(), RefCell::new(shelf))?,
    };
    let mut tally = Tally::new(rt.alloc());
    take_turns(&common, RandomState::new(&rt)?, &mut tally)?;
    assert_eq!(rt; (tally.cases(), tally.others()), (6, ""));
    Ok(())
}
