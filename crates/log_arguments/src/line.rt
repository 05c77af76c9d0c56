// The command line, as a parser of command lines takes it.
ghost use Rattle.std.specs.Prelude.{IfOk, codes, false};
ghost use Rattle.log_arguments.specs.Line.{HasLine, HasRule, bare_program, base_line, below_line, check_line, compact_line, file_line, flag_line, follow_line, join_line, keep_line, option_line, program_line, tail_line};

use crate::command::VERSION;
use clap::{Arg, ArgAction, Command};
use std::alloc::{AllocError, Global};

/// Declares the program with all its commands.
pub(crate) fn program<'a>(alloc: Global) -> Result<Command<'a>, AllocError>
    ensures { IfOk result (HasLine program_line) }
{
    let begun = bare_program(alloc)?;
    let keeping = keep(alloc)?;
    let following = follow(alloc)?;
    let joining = join(alloc)?;
    let tailing = tail(alloc)?;
    let checking = check(alloc)?;
    let compacting = compact(alloc)?;
    let basing = base(alloc)?;
    begun
        .subcommand(keeping)?
        .subcommand(following)?
        .subcommand(joining)?
        .subcommand(tailing)?
        .subcommand(checking)?
        .subcommand(compacting)?
        .subcommand(basing)
}

/// Declares the program without its commands.
fn bare_program<'a>(alloc: Global) -> Result<Command<'a>, AllocError>
    ensures { IfOk result (HasLine bare_program) }
{
    let named = Command::new(alloc, "registrylog").bin_name("registrylog")?;
    Ok(
        named
            .version(VERSION)
            .about("Keeps the log of a registry of Avro schemas in a file, and looks after it")
            .after_help("Begin with: registrylog keep --new ~/registry.log")
            .subcommand_required(true)
            .arg_required_else_help(true),
    )
}

/// `keep`.
pub(crate) fn keep<'a>(alloc: Global) -> Result<Command<'a>, AllocError>
    ensures { IfOk result (HasLine keep_line) }
{
    let file = file(alloc).required(true).help("The log");
    Command::new(alloc, "keep")
        .about("Serves a registry over HTTP whose log is kept in a file")
        .after_help(
            "A new log is made once: registrylog keep --new ~/registry.log\n\n\
            The environment sets options too: REGISTRY_LISTEN, REGISTRY_NODES, REGISTRY_WORKERS, REGISTRY_METRICS, \
            and as true or false REGISTRY_QUIET and REGISTRY_NEW.\n\n\
            Example: registrylog keep --listen 0.0.0.0:9000 ~/registry.log",
        )
        .arg(new_log(alloc))?
        .arg(listen(alloc))?
        .arg(nodes(alloc))?
        .arg(workers(alloc))?
        .arg(metrics(alloc))?
        .arg(quiet(alloc))?
        .arg(file)
}

/// `follow`.
pub(crate) fn follow<'a>(alloc: Global) -> Result<Command<'a>, AllocError>
    ensures { IfOk result (HasLine follow_line) }
{
    Command::new(alloc, "follow")
        .about("Serves the log whose lines come on standard input, to readers alone")
        .after_help(
            "The environment sets options too: REGISTRY_LISTEN, REGISTRY_NODES, REGISTRY_WORKERS, REGISTRY_METRICS.\n\n\
            Example: registrylog tail ~/registry.log | registrylog follow --listen 0.0.0.0:9100",
        )
        .arg(listen(alloc))?
        .arg(nodes(alloc))?
        .arg(workers(alloc))?
        .arg(metrics(alloc))
}

/// `join`.
pub(crate) fn join<'a>(alloc: Global) -> Result<Command<'a>, AllocError>
    ensures { IfOk result (HasLine join_line) }
{
    let workers = option(alloc, "workers", "N").help(
        "How many workers each node has, 2 to 16 [default: 4]",
    );
    let rules = flag(alloc, "rules").help("Print the number of the registry's rules, and end");
    Command::new(alloc, "join")
        .about(
            "Serves a log that other processes write too, as the adapter that started it tells it",
        )
        .after_help(
            "An adapter starts it, and keeps the log: its messages come on standard input, and requests go to standard output.\n\n\
            The environment sets options too: REGISTRY_LISTEN, REGISTRY_NODES, REGISTRY_WORKERS, REGISTRY_METRICS, \
            REGISTRY_CHECK_EVERY.\n\n\
            Example of an adapter's command: registrylog join --listen 0.0.0.0:9000",
        )
        .arg(listen(alloc))?
        .arg(nodes(alloc))?
        .arg(workers)?
        .arg(metrics(alloc))?
        .arg(check_every(alloc))?
        .arg(rules)
}

/// `tail`.
pub(crate) fn tail<'a>(alloc: Global) -> Result<Command<'a>, AllocError>
    ensures { IfOk result (HasLine tail_line) }
{
    let from = option(alloc, "from", "OFFSET").help(
        "The offset to begin at, 0 to 9223372036854775807 [default: that of the first line]",
    );
    let file = file(alloc)
        .required(true)
        .help("The log, which registrylog keep serves");
    Command::new(alloc, "tail")
        .about("Writes the lines of a kept log, and each more once it is kept")
        .after_help("Example: registrylog tail --from 1000 ~/registry.log")
        .arg(from)?
        .arg(file)
}

/// `check`.
pub(crate) fn check<'a>(alloc: Global) -> Result<Command<'a>, AllocError>
    ensures { IfOk result (HasLine check_line) }
{
    Command::new(alloc, "check")
        .about("Writes what a log holds, and what keeps it from being served")
        .after_help("Example: registrylog check ~/registry.log")
        .arg(quiet(alloc))?
        .arg(file(alloc).help(INPUT))
}

/// `compact`.
pub(crate) fn compact<'a>(alloc: Global) -> Result<Command<'a>, AllocError>
    ensures { IfOk result (HasLine compact_line) }
{
    let floor = option(alloc, "to", "FLOOR").help(
        "Drop deletes below this offset, 0 to 9223372036854775807, the log's new floor [default: keep all]",
    );
    let output = option(alloc, "output", "SMALLER").help(
        "The file to write, put there once all of it is on the disk [default: standard output]",
    );
    Command::new(alloc, "compact")
        .about("Writes a log without the records that later ones replace")
        .after_help(
            "Example: registrylog compact --output smaller.log registry.log\n\n\
            Beware of registrylog compact FILE > FILE: the shell empties FILE before it is read. --output FILE is safe.",
        )
        .arg(floor)?
        .arg(output)?
        .arg(whole(alloc))?
        .arg(quiet(alloc))?
        .arg(file(alloc).help(INPUT))
}

/// `base`.
pub(crate) fn base<'a>(alloc: Global) -> Result<Command<'a>, AllocError>
    ensures { IfOk result (HasLine base_line) }
{
    let below = option(alloc, "below", "OFFSET")
        .required(true)
        .help("Where the log goes on, 0 to 9223372036854775807");
    Command::new(alloc, "base")
        .about(
            "Writes what a log begins with that goes on at an offset: a compaction of what is below",
        )
        .after_help("Example: registrylog base --below 1000 registry.log > base.log")
        .arg(below)?
        .arg(whole(alloc))?
        .arg(quiet(alloc))?
        .arg(file(alloc).help(INPUT))
}

const INPUT: &str = "The log [default: standard input, as for -]";

/// Declares an option `--NAME VALUE`.
fn option<'a>(alloc: Global, name: &'a str, value: &'a str) -> Arg<'a>
    ensures { HasRule (option_line name.now) result }
{
    Arg::new(alloc, name).long(name).value_name(value)
}

fn listen<'a>(alloc: Global) -> Arg<'a>
    ensures { HasRule (option_line (codes "listen")) result }
{
    option(alloc, "listen", "ADDRESS:PORT").help(
        "Where the first node listens, others at the ports after it [default: 127.0.0.1:8081]",
    )
}

fn check_every<'a>(alloc: Global) -> Arg<'a>
    ensures { HasRule (option_line (codes "check-every")) result }
{
    option(alloc, "check-every", "S").help(
        "Ask the store for news if it wasn't asked for so many seconds, 1 to 3600, or 0 for never [default: 5]",
    )
}

fn nodes<'a>(alloc: Global) -> Arg<'a>
    ensures { HasRule (option_line (codes "nodes")) result }
{
    option(alloc, "nodes", "N").help("How many nodes, 1 to 3 [default: 1]")
}

fn workers<'a>(alloc: Global) -> Arg<'a>
    ensures { HasRule (option_line (codes "workers")) result }
{
    option(alloc, "workers", "N").help("How many workers each node has, 1 to 16 [default: 4]")
}

fn metrics<'a>(alloc: Global) -> Arg<'a>
    ensures { HasRule (option_line (codes "metrics")) result }
{
    option(alloc, "metrics", "ADDRESS:PORT").help(
        "Where GET /metrics and GET /ready are answered [default: nowhere]",
    )
}

fn quiet<'a>(alloc: Global) -> Arg<'a>
    ensures { HasRule (flag_line (codes "quiet")) result }
{
    flag(alloc, "quiet").help("Don't say on standard error how far the reading is")
}

fn whole<'a>(alloc: Global) -> Arg<'a>
    ensures { HasRule (flag_line (codes "whole")) result }
{
    flag(alloc, "whole").help(
        "Write a line behind the log that says where it ends, as an adapter's init wants it",
    )
}

fn new_log<'a>(alloc: Global) -> Arg<'a>
    ensures { HasRule (flag_line (codes "new")) result }
{
    flag(alloc, "new").help("Make the log, which isn't there yet; without this, it has to be there")
}

/// Declares an option `--NAME` without a value.
fn flag<'a>(alloc: Global, name: &'a str) -> Arg<'a>
    ensures { HasRule (flag_line name.now) result }
{
    Arg::new(alloc, name).long(name).action(ArgAction::SetTrue)
}

/// Declares the file after the options.
fn file<'a>(alloc: Global) -> Arg<'a>
    ensures { HasRule (file_line false) result }
{
    Arg::new(alloc, "file").value_name("FILE")
}
