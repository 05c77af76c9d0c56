// The texts of errors, and the laws.
use reg_floored::{FloorError, MergeError};
use reg_records::{
    LineError, LogError, LogFault, ReadLineError, WriteLineError, floors_are_of_the_grammar,
    lines_are_of_the_grammar, record_limits_are_as_written, written_keys_are_apart,
};
use reg_values::{written_values_have_lines, written_values_read_back};
use std::alloc::Global;
use test_tools::Made;

static FAULTS: [(LogFault, &str); 7] = [
    (LogFault::Line(LineError::Truncated), "Truncated"),
    (LogFault::Line(LineError::TooLong), "TooLong"),
    (LogFault::Line(LineError::BadUtf8), "BadUtf8"),
    (LogFault::Line(LineError::BadTabs), "BadTabs"),
    (LogFault::Line(LineError::BadOffset), "BadOffset"),
    (LogFault::BadFloor, "BadFloor"),
    (LogFault::TooManyLines, "TooManyLines"),
];

/// Whether that is the name of a fault, its text, and behind the line's number that of a log with it.
fn is_told(alloc: Global, fault: LogFault, name: &str) -> Made<bool> {
    let error = LogError::Fault { line: 7, fault };
    let told = format!(in alloc; "{fault} {error}")?;
    let wanted = format!(in alloc; "{name} line 7: {name}")?;
    Ok(fault.name() == name && told == wanted)
}

#[test]
fn faults_have_their_texts(rt: HostRuntime) {
    for (fault, name) in &FAULTS {
        assert!(rt; is_told(rt.alloc(), *fault, name) == Ok(true), "{name}");
    }
}

fn other_errors(alloc: Global) -> Made<String> {
    format!(in alloc;
        "{}, {}, {}, {}, {}, {}, {}, {}",
        ReadLineError::Line(LineError::BadTabs),
        ReadLineError::OutOfMemory,
        WriteLineError::TooLong,
        WriteLineError::OutOfMemory,
        LogError::ReadFault { line: 1_000_001 },
        LogError::OutOfMemory,
        FloorError::OutOfMemory,
        MergeError::OutOfMemory
    )
}

fn are_told(alloc: Global) -> Made<bool> {
    let told = other_errors(alloc)?;
    Ok(
        told.as_str()
            == "BadTabs, out of memory, TooLong, out of memory, line 1000001: ReadFault, out of memory, out of memory, out of memory",
    )
}

#[test]
fn errors_have_their_texts(rt: HostRuntime) {
    assert!(rt; are_told(rt.alloc()) == Ok(true));
}

#[test]
fn the_laws_are_called() {
    written_keys_are_apart();
    lines_are_of_the_grammar();
    floors_are_of_the_grammar();
    written_values_read_back();
    written_values_have_lines();
    record_limits_are_as_written();
}
