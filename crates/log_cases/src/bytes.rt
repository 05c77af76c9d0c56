// Logs: what compacting leaves of them, and what is said of them.
ghost use Rattle.std.specs.Prelude.{◌≤◌};
ghost use Rattle.reg_records.specs.declared.limits.TheConstants.{OFFSET_LIMIT};

use crate::form::{Came, Form, shown};
use reg_compaction::{
    ToFloorError, compact, compacted, compacted_in_order, compacted_to, compacted_to_in_order,
    write_whole_log,
};
use reg_inspection::{cause_of, obstacles};
use reg_records::{Device, Log, OFFSET_LIMIT, read_log};
use std::alloc::Global;
use test_tools::{CaseError, Made, bytes_of, cut, number_of};

/// What a command leaves of a log.
fn left_of(alloc: Global, command: &str, floor: u64, log: &[u8]) -> Result<Vec<u8>, ToFloorError> {
    let floor = floor.min(OFFSET_LIMIT);
    match command {
        "compact" => Ok(compacted(alloc, log)?),
        "order" => Ok(compacted_in_order(alloc, log)?),
        "compact-to" => compacted_to(alloc, log, floor),
        _ => compacted_to_in_order(alloc, log, floor),
    }
}

/// What a command leaves of a log, or why the log isn't compacted.
fn left(alloc: Global, command: &str, floor: u64, log: &str) -> Came {
    match left_of(alloc, command, floor, &bytes_of(alloc, log)?) {
        Ok(text) => shown(alloc, &text),
        Err(error) => Ok(format!(in alloc; "{error:?}")?),
    }
}

/// What a filter writes of a log, or why it ends.
fn written(alloc: Global, command: &str, log: &str) -> Came {
    let bytes = bytes_of(alloc, log)?;
    let mut text = Vec::new(alloc);
    let ended = if command == "whole" {
        write_whole_log(alloc, bytes, &mut text)
    } else {
        compact(alloc, &mut bytes.as_slice(), &mut text)
    };
    match ended {
        Ok(()) => shown(alloc, &text),
        Err(error) => Ok(format!(in alloc; "{error}")?),
    }
}

/// Why each record can't be read, a line each.
fn causes(alloc: Global, log: &Log) -> Made<String> {
    let mut told = String::new(alloc);
    for record in &log.records {
        match cause_of(alloc, record)? {
            Some(cause) => writeln!(told, "{cause}")?,
            None => told.push_str("none\n")?,
        }
    }
    Ok(told)
}

/// What keeps a log from being taken over, a line each.
fn obstacles_of(alloc: Global, log: &Log) -> Made<String> {
    let mut told = String::new(alloc);
    for obstacle in &obstacles(alloc, log)? {
        writeln!(told, "{}", obstacle.text(alloc)?)?;
    }
    Ok(told)
}

/// What is said of a log.
fn said(alloc: Global, command: &str, log: &[u8]) -> Came {
    let Ok(log) = read_log(alloc, &mut Device::new(log)) else {
        return Err(CaseError::NotUnderstood);
    };
    match command {
        "causes" => shown(alloc, causes(alloc, &log)?.as_bytes()),
        "obstacles" => shown(alloc, obstacles_of(alloc, &log)?.as_bytes()),
        _ => Err(CaseError::NotUnderstood),
    }
}

/// Logs.
#[derive(Drop)]
pub(crate) struct Bytes;

impl Form for Bytes {
    fn came(&mut self, alloc: Global, asked: &str) -> Came {
        let (command, rest) = cut(asked);
        let (floor, log) = cut(rest);
        match command {
            "compact" | "order" => left(alloc, command, 0, rest),
            "compact-to" | "order-to" => left(alloc, command, number_of(floor)?, log),
            "whole" | "filter" => written(alloc, command, rest),
            _ => said(alloc, command, &bytes_of(alloc, rest)?),
        }
    }
}
