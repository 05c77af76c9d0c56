// Registries over small logs, in every order of their lines.
use crate::answers::push_answer;
use crate::rows::bytes_in;
use reg_fold::Registry;
use reg_records::{Device, LogError, Record, read_log};
use reg_set::RecordSet;
use std::alloc::Global;
use test_tools::{Made, Tally, paragraphs_of, rows_of};

/// The lines of a log, the questions with their answers, and these as they are wanted.
#[derive(Clone, Copy)]
struct Case<'a> {
    log: &'a [&'a str],
    questions: &'a [&'a str],
    wanted: &'a str,
}

/// Whether the registry's copy of each record is that record.
fn copies_hold(registry: &Registry, records: &[Record]) -> Made<bool> {
    for record in records {
        if registry.copy_of(record)? != *record {
            return Ok(false);
        }
    }
    Ok(true)
}

/// The questions with the answers of a registry over the records.
fn told(
    alloc: Global,
    registry: &Registry,
    records: &[Record],
    questions: &[&str],
) -> Made<String> {
    let mut told = String::new(alloc);
    for row in questions {
        let (asked, _) = row.split_once(" => ").unwrap_or((*row, ""));
        write!(told, "{asked} => ")?;
        push_answer(&mut told, registry, asked)?;
        told.push('\n')?;
    }
    if !copies_hold(registry, records)? {
        told.push_str("a copy of a record is another one")?;
    }
    Ok(told)
}

/// Adds the records one by one or in one go, beside another registry or none.
fn fill(
    registry: &mut Registry,
    records: &[Record],
    is_grown: bool,
    other: Option<&Registry>,
) -> Made<()> {
    if !is_grown {
        return registry.apply_all_beside(records, other, None);
    }
    for record in records {
        registry.apply_beside(record, other, None)?;
    }
    Ok(())
}

fn told_by(
    alloc: Global,
    records: &[Record],
    questions: &[&str],
    is_grown: bool,
    other: Option<&Registry>,
) -> Made<String> {
    let mut registry = Registry::empty(alloc);
    fill(&mut registry, records, is_grown, other)?;
    told(alloc, &registry, records, questions)
}

fn read(alloc: Global, records: &[Record]) -> Made<Registry> {
    let set = RecordSet::of(alloc, records)?;
    Registry::of_set(alloc, &set)
}

/// What is told by a registry that is read from a set, and by those that take the records in another way, the first that tells what isn't
/// wanted.
fn told_by_all(alloc: Global, records: &[Record], case: Case) -> Made<String> {
    let whole = read(alloc, records)?;
    let half = read(alloc, records.get(..records.len() / 2).unwrap_or(&[]))?;
    let mut came = told(alloc, &whole, records, case.questions)?;
    for other in [None, Some(&whole), Some(&half)] {
        for is_grown in [true, false] {
            if came.as_str() != case.wanted {
                return Ok(came);
            }
            came = told_by(alloc, records, case.questions, is_grown, other)?;
        }
    }
    Ok(came)
}

/// The lines in one of their orders: six lines have the orders 0 to 719.
fn log_in_order(alloc: Global, lines: &[&str], order: u64) -> Made<Vec<u8>> {
    let mut left = lines.to_vec(alloc)?;
    let mut order = order;
    let mut log = String::new(alloc);
    for _line in lines {
        let count = left.len() as u64;
        let place = order.checked_rem(count).unwrap_or(0) as usize;
        order = order.checked_div(count).unwrap_or(0);
        if place < left.len() {
            log.push_str(left.remove(place))?;
            log.push_str("^n")?;
        }
    }
    bytes_in(alloc, log.as_str())
}

fn told_in_order(alloc: Global, case: Case, order: u64) -> Result<String, LogError> {
    let log = log_in_order(alloc, case.log, order)?;
    let log = read_log(alloc, &mut Device::new(log.as_slice()))?;
    if log.records.len() != case.log.len() {
        return Ok(String::from_str(alloc, "a line has no record")?);
    }
    Ok(told_by_all(alloc, &log.records, case)?)
}

/// How many orders the lines of a log have.
fn orders_of(log: &[&str]) -> u64 {
    let mut orders = 1u64;
    for count in 1..=log.len() {
        orders = orders.saturating_mul(count as u64);
    }
    orders
}

/// What comes in the orders of the lines, the first that isn't wanted.
fn came_of(alloc: Global, case: Case) -> Made<String> {
    for order in 0..orders_of(case.log) {
        match told_in_order(alloc, case, order) {
            Ok(came) if came.as_str() == case.wanted => {}
            Ok(came) => return Ok(came),
            Err(error) => return format!(in alloc; "{error}"),
        }
    }
    String::from_str(alloc, case.wanted)
}

/// Tries each paragraph.
pub(crate) fn try_registries(tally: &mut Tally, text: &str) -> Made<()> {
    let alloc = tally.alloc;
    for paragraph in &paragraphs_of(alloc, text)? {
        let (mut log, mut questions) = (Vec::new(alloc), Vec::new(alloc));
        let mut wanted = String::new(alloc);
        for row in &rows_of(alloc, paragraph)? {
            if matches!(row.as_bytes().first(), Some(b'0'..=b'9')) {
                log.push(*row)?;
            } else {
                questions.push(*row)?;
                writeln!(wanted, "{row}")?;
            }
        }
        let case = Case {
            log: &log,
            questions: &questions,
            wanted: wanted.as_str(),
        };
        tally.tell(paragraph, wanted.as_str(), Ok(came_of(alloc, case)?))?;
    }
    Ok(())
}
