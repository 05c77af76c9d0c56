// What is done at a pen, whose keep may not take each batch.
ghost use Rattle.std.specs.Prelude.{◌≤◌};

use crate::desks::at_desk;
use crate::judgements::{has_text, judge_of, judge_text};
use crate::nodes::{asked_anew, number_text};
use crate::topics::{Course, Place, Writing, go_through};
use base_text::Text;
use reg_feed::{Copies, FeedName};
use reg_http::{Desk, reply_answer, serve};
use reg_judge::Judge;
use reg_leader::{Command, Reply};
use reg_lookup::{Answer, Query};
use reg_pen::{Keep, Kept, KeptLog, Lack, OpenError, Pass, Pen};
use reg_records::{Device, Record};
use reg_shared::Shared;
use reg_topic::Item;
use std::alloc::Global;
use std::hash::RandomState;
use std::sync::{Mutex, Wait};
use test_tools::{
    CaseError, Made, Said, Tally, bytes_of, cut, deed_of, number_of, paragraphs_of, sorted_rows,
    text_in,
};
use test_words::{command_in_words, log_of};

/// Batches come to these fates, one after the other, and each one behind them to the last.
#[derive(Drop)]
pub(crate) struct Turning {
    lent: usize,
    fates: Vec<Kept>,
    behind: Kept,
}

impl Keep for Turning {
    ghost use Rattle.std.specs.Prelude.{⊤};

    ghost keeps = { λ _ _ _ _. ⊤ };

    fn keep(&mut self, _batch: &[Record]) -> Kept {
        let fate = self.fates.get(self.lent).copied();
        self.lent = self.lent.saturating_add(1);
        fate.unwrap_or(self.behind)
    }
}

static FATES: [(&str, Kept); 7] = [
    ("taken", Kept::Taken),
    ("unknown", Kept::Unknown),
    ("lost", Kept::Lost),
    ("declined memory", Kept::Declined(Lack::Memory)),
    ("declined numbers", Kept::Declined(Lack::Numbers)),
    ("declined overtaken", Kept::Declined(Lack::Overtaken)),
    ("declined store", Kept::Declined(Lack::Store)),
];

/// The keep of those words: `all` takes each batch; of each other one those are lost that come behind the fates, and `none` tells none.
fn keep_of(alloc: Global, words: &str) -> Said<Turning> {
    let mut fates = Vec::new(alloc);
    if words != "all" && words != "none" {
        for word in words.split(", ") {
            let found = FATES.iter().find(|fate| fate.0 == word);
            fates.push(found.ok_or(CaseError::NotUnderstood)?.1)?;
        }
    }
    let behind = if words == "all" {
        Kept::Taken
    } else {
        Kept::Lost
    };
    Ok(Turning {
        lent: 0,
        fates,
        behind,
    })
}

/// What comes of opening a pen.
fn opening_text(alloc: Global, refused: &Option<OpenError>) -> Made<String> {
    match refused {
        None => String::from_str(alloc, "opened"),
        Some(OpenError::Declined(lack)) => {
            let fate = Kept::Declined(*lack);
            let found = FATES.iter().find(|named| named.1 == fate);
            String::from_str(alloc, found.map(|named| named.0).unwrap_or("declined"))
        }
        Some(OpenError::Lost) => String::from_str(alloc, "lost"),
        Some(OpenError::Adopt(refused)) => format!(in alloc; "{refused}"),
    }
}

/// A desk that lends each command to the pen, and answers each query with the count of published batches.
#[derive(Drop)]
struct Counting<'x, P: Place> {
    place: &'x mut P,
}

impl<'x, P: Place> Desk for Counting<'x, P> {
    ghost use Rattle.std.specs.Prelude.{⊤};

    ghost asks = { λ _ _ _ _. ⊤ };

    ghost commands = { λ _ _ _ _. ⊤ };

    fn ask(&mut self, alloc: Global, _query: &Query) -> Made<Answer> {
        Ok(Answer {
            status: 200,
            body: Text::of_string(number_text(alloc, self.place.numbers().batches)?)?,
        })
    }

    fn command(&mut self, command: &Command) -> Reply {
        self.place.submit(command)
    }
}

/// The offsets of what is kept.
fn kept_text<P: Place>(alloc: Global, place: &P) -> Made<String> {
    let mut text = String::new(alloc);
    for record in &place.kept()? {
        if !text.is_empty() {
            text.push_str(" ")?;
        }
        write!(text, "{}", record.offset)?;
    }
    if text.is_empty() {
        text.push_str("none")?;
    }
    Ok(text)
}

/// How many batches are published, and the body of the answer or that the batch isn't settled.
fn settled_text(alloc: Global, reply: &Reply, batches: u64) -> Said<String> {
    if let Reply::Unsettled(offset) = reply {
        return Ok(format!(in alloc; "{batches} unsettled {offset}")?);
    }
    let answer = reply_answer(alloc, reply)?;
    Ok(format!(in alloc; "{batches} {}", answer.body.as_str())?)
}

fn replied_text<P: Place>(alloc: Global, place: &mut P, words: &str) -> Said<String> {
    let command = command_in_words(alloc, words)?;
    let reply = place.submit(&command);
    settled_text(alloc, &reply, place.numbers().batches)
}

fn compacted_text<P: Place>(alloc: Global, place: &mut P, floor: u64) -> Made<String> {
    let end = match place.compact_to(floor) {
        Some(error) => format!(in alloc; "{error}")?,
        None => String::from_str(alloc, "done")?,
    };
    let numbers = place.numbers();
    let kept = kept_text(alloc, place)?;
    let (floor, compacted) = (numbers.floor, numbers.compacted);
    format!(in alloc; "{end}, floor {floor}, compacted {compacted}, kept {kept}")
}

/// What is written where those requests are served.
fn served_text<P: Place>(alloc: Global, place: &mut P, requests: &str) -> Made<String> {
    let requests = bytes_of(alloc, requests)?;
    let mut reader = Device::new(requests.as_slice());
    let mut writer = Device::new(Vec::new(alloc));
    let mut desk = Counting { place };
    match serve(alloc, &mut reader, &mut writer, &mut desk) {
        Ok(_served) => String::from_utf8_lossy(alloc, writer.into_inner().as_slice()),
        Err(_) => String::from_str(alloc, "not served"),
    }
}

/// What comes of what a row does, and is to come of it.
pub(crate) fn came_of<P: Place>(
    alloc: Global,
    place: &mut P,
    judge: &mut Judge,
    words: &str,
    wanted: &str,
) -> Said<String> {
    let (act, rest) = cut(words);
    match act {
        "judge" => judge_text(alloc, place, judge, rest, wanted),
        "has" => has_text(alloc, judge, rest),
        "new" => asked_anew(alloc, place, rest),
        _ => done_text(alloc, place, act, rest, words),
    }
}

/// What comes of what a row does at the pen.
fn done_text<P: Place>(
    alloc: Global,
    place: &mut P,
    act: &str,
    rest: &str,
    words: &str,
) -> Said<String> {
    match act {
        "batches" => Ok(number_text(alloc, place.numbers().batches)?),
        "compact_to" => Ok(compacted_text(alloc, place, number_of(rest)?)?),
        "is_compacted" => {
            let is_done = place.compact_to(number_of(rest)?).is_none();
            Ok(String::from_str(alloc, if is_done { "yes" } else { "no" })?)
        }
        "kept" => Ok(kept_text(alloc, place)?),
        "serve" => Ok(served_text(alloc, place, rest)?),
        _ => replied_text(alloc, place, words),
    }
}

/// The rows of a paragraph below its keep, which may be tried at a desk.
#[derive(Drop)]
pub(crate) struct Rows<'x> {
    pub(crate) rows: &'x [&'x str],
    at_desk: bool,
    pub(crate) keys: RandomState,
    pub(crate) judge: &'x mut Judge,
    pub(crate) tally: &'x mut Tally,
}

impl<'x> Rows<'x> {
    /// Tells what came of a row. What is served is wanted as bytes are written.
    pub(crate) fn tell(&mut self, row: &str, came: Said<String>) -> Made<()> {
        let (words, wanted) = deed_of(row);
        if !words.starts_with("serve ") {
            return self.tally.tell_if(row, wanted, came);
        }
        let wanted = text_in(self.tally.alloc, wanted.unwrap_or(""))?;
        self.tally.tell(row, wanted.as_str(), came)
    }

    fn try_at<P: Place>(&mut self, place: &mut P) -> Made<()> {
        for row in self.rows {
            let (words, wanted) = deed_of(row);
            let came = came_of(
                self.tally.alloc,
                place,
                self.judge,
                words,
                wanted.unwrap_or(""),
            );
            self.tell(row, came)?;
        }
        Ok(())
    }
}

impl<'x> Course<Turning> for Rows<'x> {
    fn go<N: FeedName<Item, Shared>, S: Copies<Item, Shared, N>, R: Wait + Drop + Copy>(
        &mut self,
        rt: R,
        pen: &Mutex<Pen<N, S, Turning, R>>,
        pass: Pass<N>,
        other: Pass<N>,
    ) -> Made<()> {
        try_in(rt, pen, pass, other, self)
    }
}

fn try_in<N: FeedName<Item, Shared>, S: Copies<Item, Shared, N>, R: Wait + Drop + Copy>(
    rt: R,
    pen: &Mutex<Pen<N, S, Turning, R>>,
    pass: Pass<N>,
    other: Pass<N>,
    rows: &mut Rows,
) -> Made<()>
    requires { N.first.kept.floor ≤ N.first.next }
{
    let mut place = Writing { rt, pen, pass };
    if rows.at_desk {
        return at_desk(&mut place, other, rows);
    }
    rows.try_at(&mut place)
}

/// The log of the records, and the keep that the row names.
fn kept_of(alloc: Global, records: &[&str], opening: &str) -> Said<KeptLog<Turning>> {
    let (words, _wanted) = deed_of(opening);
    let keep = words.strip_prefix("keep ").ok_or(CaseError::NotUnderstood)?;
    Ok(KeptLog::new(log_of(alloc, records)?, keep_of(alloc, keep)?))
}

/// Opens a pen, and tries the rows at it. Where none is opened, no row is understood.
fn try_pen<R: Wait + Drop + Copy>(
    rt: R,
    kept: KeptLog<Turning>,
    opening: &str,
    course: &mut Rows,
) -> Made<()> {
    let alloc = course.tally.alloc;
    let refused = go_through(alloc, rt, kept, course)?;
    course.tell(opening, Ok(opening_text(alloc, &refused)?))?;
    if refused.is_some() {
        for row in course.rows {
            course.tally.refuse(row)?;
        }
    }
    Ok(())
}

/// Tries a paragraph at a pen of its own, with a judge that is asked by all rows: the records of a log, a row with its keep, and what is
/// done at the pen, or at a desk.
fn try_paragraph<R: Wait + Drop + Copy>(
    tally: &mut Tally,
    rt: R,
    keys: RandomState,
    paragraph: &str,
    at_desk: bool,
) -> Made<()> {
    let alloc = tally.alloc;
    let (records, acts) = sorted_rows(alloc, paragraph)?;
    let Some((opening, rows)) = acts.split_first() else {
        return tally.refuse(paragraph);
    };
    let Ok(kept) = kept_of(alloc, &records, opening) else {
        return tally.refuse(paragraph);
    };
    let mut judge = judge_of(alloc, keys, 16)?;
    let mut course = Rows {
        rows,
        at_desk,
        keys,
        judge: &mut judge,
        tally,
    };
    try_pen(rt, kept, opening, &mut course)
}

/// Tries each paragraph.
pub(crate) fn try_pens<R: Wait + Drop + Copy>(
    tally: &mut Tally,
    rt: R,
    keys: RandomState,
    text: &str,
    at_desk: bool,
) -> Made<()> {
    for paragraph in &paragraphs_of(tally.alloc, text)? {
        tally.begin(paragraph)?;
        try_paragraph(tally, rt, keys, paragraph, at_desk)?;
    }
    Ok(())
}
