// Command lines, and what they come to.
ghost use Rattle.std.specs.Io.{WritesAtMost};

use crate::form::{Came, Form};
use log_arguments::{Environment, read_arguments};
use std::alloc::Global;
use std::env::FillError;
use std::rt::Env;
use test_tools::Made;

/// An environment whose variables are a text, `NAME=VALUE` and a space behind each.
#[derive(Clone, Copy)]
struct Variables<'a> {
    text: &'a str,
}

impl Env for Variables<'_> {
    fn arg(&self, _i: usize, _buf: &mut [u8]) -> Result<usize, FillError> {
        Err(FillError::NotPresent)
    }

    fn var(&self, name: &str, buf: &mut [u8]) -> Result<usize, FillError> {
        match value_in(self.text, name) {
            Some(value) => fill(value.as_bytes(), buf),
            None => Err(FillError::NotPresent),
        }
    }

    fn var_at(&self, _i: usize, _buf: &mut [u8]) -> Result<usize, FillError> {
        Err(FillError::NotPresent)
    }
}

/// The value of a variable, if a text of them has one of that name.
fn value_in<'a>(text: &'a str, name: &str) -> Option<&'a str> {
    for entry in text.split(' ') {
        if let Some((found, value)) = entry.split_once('=') {
            if found == name {
                return Some(value);
            }
        }
    }
    None
}

/// Copies a value to the start of a buffer that has room for it. `~` becomes a byte that isn't text.
fn fill(value: &[u8], buf: &mut [u8]) -> Result<usize, FillError>
    ensures bound { WritesAtMost result buf.new }
{
    if buf.len() < value.len() {
        return Err(FillError::TooLong);
    }
    for at in 0..value.len() {
        buf[at] = if value[at] == b'~' { 0xff } else { value[at] };
    }
    Ok(value.len())
}

/// What a command line asks for, or the whole text of why it is refused. The text in front of `; ` has variables of the environment.
fn outcome_of(alloc: Global, line: &str) -> Made<String> {
    let (text, line) = line.split_once("; ").unwrap_or(("", line));
    let environment = match Environment::read(&(Variables { text }, alloc)) {
        Ok(environment) => environment,
        Err(error) => return format!(in alloc; "error: {error}"),
    };
    let mut words = Vec::new(alloc);
    for word in line.split(' ') {
        words.push(String::from_str(alloc, word)?)?;
    }
    match read_arguments(alloc, words.as_slice(), environment.settings()) {
        Ok(command) => format!(in alloc; "{command:?}"),
        Err(error) => format!(in alloc; "{error}"),
    }
}

/// Command lines.
#[derive(Drop)]
pub(crate) struct Lines;

impl Form for Lines {
    fn came(&mut self, alloc: Global, asked: &str) -> Came {
        if let Some(line) = asked.strip_prefix("whole ") {
            return Ok(outcome_of(alloc, line)?);
        }
        let outcome = outcome_of(alloc, asked)?;
        let first = outcome.as_str().lines().next().unwrap_or("");
        Ok(String::from_str(alloc, first)?)
    }
}
