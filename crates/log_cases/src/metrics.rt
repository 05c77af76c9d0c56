// Numbers on a page, what the system says, and requests for pages.
use crate::form::{Came, Form, shown};
use exposition::{Family, page_text};
use reg_meters::{ConnectionTally, Ending, Traffic};
use reg_metrics::{
    AdapterMeters, BatchMeters, Condition, FileMeters, LineMeters, PageRequest, Stage,
    adapter_families, answer_to, asked_in, batch_families, file_families, line_families,
    numbers_in, process_families, stage_families, started_in, traffic_families,
};
use reg_routes::Paths;
use std::alloc::Global;
use test_tools::{CaseError, Made, Said, bytes_of, cut, number_of};

static ENDINGS: [Ending; 5] = [
    Ending::Done,
    Ending::Late,
    Ending::Room,
    Ending::Memory,
    Ending::Failed,
];

/// A process' line, as Linux has it (proc(5)), of a program whose name has a bracket.
const STAT: &str =
    "42 (a) b) S 1 42 42 0 -1 4194560 900 0 0 0 20 15 0 0 20 0 9 0 5000 8192000 250 1844674407 1 1 0 0\n";

/// Counts 40 connections, of which 15 were closed.
fn count_connections(traffic: &Traffic) {
    let mut tally = ConnectionTally::new();
    for _connection in 0..40u64 {
        tally.accept();
    }
    for (place, ending) in ENDINGS.iter().enumerate() {
        for _connection in 0..=place {
            tally.close(*ending);
        }
    }
    traffic.connections.count(tally);
}

fn count_log(batches: &BatchMeters, file: &FileMeters) {
    batches.kept.add(2);
    batches.declined.add(3);
    batches.lost.add(4);
    batches.unknown.add(6);
    batches.overtaken.add(5);
    batches.seconds.count(1_000_000);
    batches.seconds.count(5_000_001);
    file.records.add(6);
    file.lines.set(7);
    file.bytes.set(8);
    file.next.set(9);
    file.renewed.add(2);
    file.not_renewed.add(1);
    file.renewal.add(1_500_000);
    file.is_uncompacted.set(true);
}

/// All families, each with its numbers.
fn families(alloc: Global, traffic: &Traffic) -> Made<Vec<Family>> {
    let mut out = Vec::new(alloc);
    stage_families(alloc, "1.2", "keep", Stage::Lost, &mut out)?;
    traffic_families(alloc, traffic, &mut out)?;
    let (batches, file) = (BatchMeters::new(), FileMeters::new());
    count_log(&batches, &file);
    batch_families(alloc, &batches, &mut out)?;
    file_families(alloc, &file, &mut out)?;
    let lines = LineMeters::new();
    lines.lines.add(12);
    lines.last.set(1_700_000_000_250_000);
    line_families(alloc, &lines, &mut out)?;
    let adapter = AdapterMeters::new();
    adapter.kept.add(1);
    adapter.behind.add(2);
    adapter.declined.add(3);
    adapter.last.set(1_700_000_001_500_000);
    adapter_families(alloc, &adapter, &mut out)?;
    if let Some(numbers) = numbers_in(STAT) {
        process_families(alloc, &numbers, 0, &mut out)?;
    }
    Ok(out)
}

/// The number of the line that begins so on a page.
fn number_on<'p>(page: &'p str, name: &str) -> &'p str {
    for line in page.lines() {
        match line.rsplit_once(' ') {
            Some((front, number)) if front == name => return number,
            _ => {}
        }
    }
    "no such line"
}

/// The samples of the metric of that name, each with an LF and without that name.
fn samples_on(alloc: Global, page: &str, name: &str) -> Came {
    let mut samples = String::new(alloc);
    for line in page.lines() {
        if let Some(rest) = line.strip_prefix(name) {
            samples.push_str(rest)?;
            samples.push('\n')?;
        }
    }
    shown(alloc, samples.as_bytes())
}

/// What the system says of a process.
fn process_in(alloc: Global, stat: &str) -> Made<String> {
    let Some(it) = numbers_in(stat) else {
        return String::from_str(alloc, "none");
    };
    let (cpu, begun, addresses, memory) = (it.cpu, it.begun, it.addresses, it.memory);
    format!(in alloc; "cpu {cpu}, begun {begun}, addresses {addresses}, memory {memory}")
}

/// When the system started.
fn start_in(alloc: Global, stat: &str) -> Made<String> {
    match started_in(stat) {
        Some(start) => format!(in alloc; "{start}"),
        None => String::from_str(alloc, "none"),
    }
}

/// What is asked for, and the response where a process is lost.
fn response_to(alloc: Global, head: &[u8]) -> Came {
    let asked = asked_in(head);
    let response = shown(alloc, &answer_to(alloc, asked, Stage::Lost, b"a 1\n")?)?;
    Ok(format!(in alloc; "{asked:?} {}", response.as_str())?)
}

/// How far a process is of which these words are true, and what `/ready` says then.
fn stage_of(alloc: Global, words: &str) -> Came {
    let known = Condition {
        listens: words.contains("listens"),
        is_lost: words.contains("lost"),
        is_declined: words.contains("declined"),
        is_full: words.contains("full"),
        is_unlawful: words.contains("unlawful"),
        has_ended: words.contains("ended"),
        is_away: words.contains("away"),
    };
    let stage = known.stage();
    let response = shown(alloc, &answer_to(alloc, PageRequest::Ready, stage, b"")?)?;
    Ok(format!(in alloc; "{} {}", stage.word(), response.as_str())?)
}

/// What is counted, and the page of it.
#[derive(Drop)]
pub(crate) struct Metrics {
    paths: Paths,
    traffic: Traffic,
    page: String,
}

impl Metrics {
    /// Nothing is answered.
    pub(crate) fn new(alloc: Global) -> Made<Metrics> {
        let traffic = Traffic::new();
        count_connections(&traffic);
        let mut metrics = Metrics {
            paths: Paths::new(alloc)?,
            traffic,
            page: String::new(alloc),
        };
        metrics.write_page(alloc)?;
        Ok(metrics)
    }

    /// Writes the page of all families.
    fn write_page(&mut self, alloc: Global) -> Made<()> {
        let page = page_text(alloc, &families(alloc, &self.traffic)?)?;
        self.page = String::from_utf8_lossy(alloc, page.as_slice())?;
        Ok(())
    }

    /// Counts so many requests of 10 bytes of a method and a target, and answers of 100 bytes with a status, each after so many microseconds.
    fn count(&mut self, alloc: Global, row: &str) -> Said<()> {
        let (times, rest) = cut(row);
        let (method, rest) = cut(rest);
        let (target, rest) = cut(rest);
        let (status, took) = cut(rest);
        let endpoint = self.paths.endpoint(method, target);
        let Ok(status) = status.parse::<u16>() else {
            return Err(CaseError::NotUnderstood);
        };
        let took = number_of(took)?;
        for _answer in 0..number_of(times)? {
            self.traffic.count(endpoint, status, 10, 100, took);
        }
        Ok(self.write_page(alloc)?)
    }
}

impl Form for Metrics {
    fn came(&mut self, alloc: Global, asked: &str) -> Came {
        let (command, rest) = cut(asked);
        let bytes = bytes_of(alloc, rest)?;
        let text = String::from_utf8_lossy(alloc, bytes.as_slice())?;
        match command {
            "answer" => {
                self.count(alloc, rest)?;
                Ok(String::new(alloc))
            }
            "page" => Ok(String::from_str(alloc, number_on(self.page.as_str(), rest))?),
            "samples" => samples_on(alloc, self.page.as_str(), rest),
            "stat" => Ok(process_in(alloc, text.as_str())?),
            "started" => Ok(start_in(alloc, text.as_str())?),
            "request" => response_to(alloc, &bytes),
            "stage" => stage_of(alloc, rest),
            _ => Err(CaseError::NotUnderstood),
        }
    }
}
