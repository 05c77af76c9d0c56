// What the system says of a process.
use std::alloc::Alloc;
use std::fs::{self, Files};

/// How many ticks a second has in the times of a process on Linux.
const TICKS: u64 = 100;

/// The bytes of a page on x86-64.
const PAGE: u64 = 4_096;

const MICROSECONDS: u64 = 1_000_000;

/// The numbers that the system has of a process.
#[derive(Clone, Copy, Debug, PartialEq, Eq)]
pub struct ProcessNumbers {
    /// The processor time that it took, in microseconds.
    pub cpu: u64,
    /// How long after the start of the system it began, in microseconds.
    pub begun: u64,
    /// The bytes of its address space, and those of its memory.
    pub addresses: u64,
    pub memory: u64,
}

/// Reads the numbers from the text of `/proc/PID/stat` (proc(5)); `None` if it isn't such a text.
pub fn numbers_in(stat: &str) -> Option<ProcessNumbers> {
    // The program's name is in brackets, and may have any byte.
    let (_name, rest) = stat.rsplit_once(") ")?;
    let user = field(rest, 11)?;
    let system = field(rest, 12)?;
    let begun = field(rest, 19)?;
    let addresses = field(rest, 20)?;
    let pages = field(rest, 21)?;
    Some(ProcessNumbers {
        cpu: microseconds(user.saturating_add(system)),
        begun: microseconds(begun),
        addresses,
        memory: pages.saturating_mul(PAGE),
    })
}

/// Returns the number at that place among words.
fn field(words: &str, place: usize) -> Option<u64> {
    words.split(' ').nth(place)?.parse::<u64>().ok()
}

fn microseconds(ticks: u64) -> u64 {
    ticks.saturating_mul(MICROSECONDS / TICKS)
}

/// Reads from the text of `/proc/stat` (proc(5)) when the system started, in microseconds since
/// 1970; `None` if it doesn't say.
pub fn started_in(stat: &str) -> Option<u64> {
    for line in stat.lines() {
        if let Some(seconds) = line.strip_prefix("btime ") {
            return Some(
                seconds
                    .trim()
                    .parse::<u64>()
                    .ok()?
                    .saturating_mul(MICROSECONDS),
            );
        }
    }
    None
}

/// Returns the numbers of this process, and when it began, in microseconds since 1970; `None` if
/// the system doesn't say.
pub fn process_numbers<R: Files + Alloc + Clone + Drop>(rt: &R) -> Option<(ProcessNumbers, u64)> {
    let own = fs::read_to_string(rt, "/proc/self/stat").ok()?;
    let system = fs::read_to_string(rt, "/proc/stat").ok()?;
    let numbers = numbers_in(own.as_str())?;
    let started = started_in(system.as_str())?;
    Some((numbers, started.saturating_add(numbers.begun)))
}
