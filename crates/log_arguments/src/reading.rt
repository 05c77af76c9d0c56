// What the words ask for.
ghost use Rattle.std.specs.Prelude.{◌≡◌, [], IfErr, IfOk, codes, map, string_bytes};
ghost use Rattle.clap.specs.Words.{fault_of, found_of, rows_of, subcommand_rows_of};
ghost use Rattle.log_arguments.specs.Asked.{AskFor, Asks, HasOffsetInLimits, IsAskedBy, IsMisuse, IsRefusalOf};
ghost use Rattle.log_arguments.specs.Line.{program_line};
ghost use Rattle.log_arguments.specs.Values.{Finds};

use crate::command::LogCommand;
use crate::fault::{Fault, refusal};
use crate::line::program;
use crate::settings::Settings;
use crate::values::{
    CHECK_EVERY, Place, has_flag, metrics_in, number_in, offset_in, path_in, place_in, switch_in,
    text_in,
};
use clap::{ArgMatches, Error};
use std::alloc::Global;

/// Returns the command that the words ask for; the first word is the name of the program. What `set`
/// has for an option counts if the words don't give it. The error says why they are no command line,
/// or which value of an option or a setting is bad, or has the help or the version if they ask for
/// that. Print it with `Error::print`.
pub fn read_arguments<'a>(
    alloc: Global,
    words: &'a [String],
    set: Settings<'a>,
) -> Result<LogCommand<'a>, Error>
    ensures asked { IfOk result (AskFor set.entry (map string_bytes words.now)) }
    ensures within { IfOk result HasOffsetInLimits }
    ensures taken { IfOk result (λ _. fault_of program_line (map string_bytes words.now) ≡ []) }
    ensures refused { IfErr result (IsRefusalOf set.entry (map string_bytes words.now)) }
{
    let line = program(alloc)?;
    match line.try_get_matches_from(words) {
        Ok(found) => read_found(alloc, &found, set),
        Err(error) => Err(error),
    }
}

/// Returns the command that the matches ask for, or an error with the usage.
fn read_found<'a>(
    alloc: Global,
    found: &ArgMatches<'a>,
    set: Settings<'a>,
) -> Result<LogCommand<'a>, Error>
    ensures asked { IfOk result (Asks set.entry (subcommand_rows_of found.now)) }
    ensures refused { IfErr result (IsMisuse set.entry (subcommand_rows_of found.now)) }
{
    match asked_in(found, set) {
        Ok(command) => Ok(command),
        Err((name, fault)) => {
            let error = refusal(alloc, name, fault)?;
            Err(error)
        }
    }
}

/// Returns the command that the matches ask for, or the name of the command and its fault.
fn asked_in<'a>(
    found: &ArgMatches<'a>,
    set: Settings<'a>,
) -> Result<LogCommand<'a>, (&'a str, Fault<'a>)>
    ensures { Finds (Asks set.entry (subcommand_rows_of found.now)) result }
{
    let Some((name, values)) = found.subcommand() else {
        return Err(("", Fault::Command));
    };
    let given = Given { found: values, set };
    match command_in(name, given) {
        Ok(command) => Ok(command),
        Err(fault) => Err((name, fault)),
    }
}

/// What is given to a command: the values that were found for it, and the settings.
#[derive(Clone, Copy)]
struct Given<'m, 'a> {
    found: &'m ArgMatches<'a>,
    set: Settings<'a>,
}

/// Returns what the command of that name asks for, with the values found for it.
fn command_in<'a>(name: &str, given: Given<'_, 'a>) -> Result<LogCommand<'a>, Fault<'a>>
    ensures { Finds (IsAskedBy given.entry.set (name.now, rows_of (found_of given.entry.found.now))) result }
{
    if name == "keep" {
        keep_in(given)
    } else if name == "follow" {
        follow_in(given)
    } else if name == "join" {
        join_in(given)
    } else if name == "tail" {
        tail_in(given)
    } else if name == "check" {
        Ok(check_in(given))
    } else if name == "compact" {
        compact_in(given)
    } else if name == "base" {
        base_in(given)
    } else {
        Err(Fault::Command)
    }
}

fn keep_in<'a>(given: Given<'_, 'a>) -> Result<LogCommand<'a>, Fault<'a>>
    ensures { Finds (IsAskedBy given.entry.set (codes "keep", rows_of (found_of given.entry.found.now))) result }
{
    let Some(file) = text_in(given.found, "file") else {
        return Err(Fault::File);
    };
    let quiet = match switch_in(given.found, given.set.quiet, "quiet", "QUIET") {
        Ok(quiet) => quiet,
        Err(fault) => return Err(fault),
    };
    let is_new = match switch_in(given.found, given.set.new, "new", "NEW") {
        Ok(is_new) => is_new,
        Err(fault) => return Err(fault),
    };
    let place = match place_in(given.found, given.set, 1) {
        Ok(place) => place,
        Err(fault) => return Err(fault),
    };
    let Place {
        listen,
        nodes,
        workers,
    } = place;
    match metrics_in(given.found, given.set.metrics) {
        Ok(metrics) => Ok(LogCommand::Keep {
            file,
            listen,
            nodes,
            workers,
            metrics,
            quiet,
            is_new,
        }),
        Err(fault) => Err(fault),
    }
}

fn follow_in<'a>(given: Given<'_, 'a>) -> Result<LogCommand<'a>, Fault<'a>>
    ensures { Finds (IsAskedBy given.entry.set (codes "follow", rows_of (found_of given.entry.found.now))) result }
{
    let place = match place_in(given.found, given.set, 1) {
        Ok(place) => place,
        Err(fault) => return Err(fault),
    };
    let Place {
        listen,
        nodes,
        workers,
    } = place;
    match metrics_in(given.found, given.set.metrics) {
        Ok(metrics) => Ok(LogCommand::Follow {
            listen,
            nodes,
            workers,
            metrics,
        }),
        Err(fault) => Err(fault),
    }
}

fn join_in<'a>(given: Given<'_, 'a>) -> Result<LogCommand<'a>, Fault<'a>>
    ensures { Finds (IsAskedBy given.entry.set (codes "join", rows_of (found_of given.entry.found.now))) result }
{
    if has_flag(given.found, "rules") {
        return Ok(LogCommand::Rules);
    }
    let place = match place_in(given.found, given.set, 2) {
        Ok(place) => place,
        Err(fault) => return Err(fault),
    };
    let Place {
        listen,
        nodes,
        workers,
    } = place;
    let metrics = match metrics_in(given.found, given.set.metrics) {
        Ok(metrics) => metrics,
        Err(fault) => return Err(fault),
    };
    match number_in(given.found, given.set.check_every, CHECK_EVERY) {
        Ok(check_every) => Ok(LogCommand::Join {
            listen,
            nodes,
            workers,
            metrics,
            check_every,
        }),
        Err(fault) => Err(fault),
    }
}

fn tail_in<'a>(given: Given<'_, 'a>) -> Result<LogCommand<'a>, Fault<'a>>
    ensures { Finds (IsAskedBy given.entry.set (codes "tail", rows_of (found_of given.entry.found.now))) result }
{
    let Some(file) = text_in(given.found, "file") else {
        return Err(Fault::File);
    };
    match offset_in(given.found, "from") {
        Ok(from) => Ok(LogCommand::Tail { file, from }),
        Err(fault) => Err(fault),
    }
}

fn check_in<'a>(given: Given<'_, 'a>) -> LogCommand<'a>
    ensures { IsAskedBy given.entry.set (codes "check", rows_of (found_of given.entry.found.now)) result }
{
    let file = path_in(given.found, "file");
    let quiet = has_flag(given.found, "quiet");
    LogCommand::Check { file, quiet }
}

fn compact_in<'a>(given: Given<'_, 'a>) -> Result<LogCommand<'a>, Fault<'a>>
    ensures { Finds (IsAskedBy given.entry.set (codes "compact", rows_of (found_of given.entry.found.now))) result }
{
    let file = path_in(given.found, "file");
    let output = path_in(given.found, "output");
    let quiet = has_flag(given.found, "quiet");
    let whole = has_flag(given.found, "whole");
    match offset_in(given.found, "to") {
        Ok(to) => Ok(LogCommand::Compact {
            file,
            to,
            output,
            quiet,
            whole,
        }),
        Err(fault) => Err(fault),
    }
}

fn base_in<'a>(given: Given<'_, 'a>) -> Result<LogCommand<'a>, Fault<'a>>
    ensures { Finds (IsAskedBy given.entry.set (codes "base", rows_of (found_of given.entry.found.now))) result }
{
    let file = path_in(given.found, "file");
    let quiet = has_flag(given.found, "quiet");
    let whole = has_flag(given.found, "whole");
    match offset_in(given.found, "below") {
        Ok(Some(below)) => Ok(LogCommand::Base {
            file,
            below,
            quiet,
            whole,
        }),
        Ok(None) => Err(Fault::Below),
        Err(fault) => Err(fault),
    }
}
