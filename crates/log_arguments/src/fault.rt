// A value that isn't what its option wants.
ghost use Rattle.std.specs.Prelude.{◌≡◌, IfOk};
ghost use Rattle.clap.specs.Words.{kind_of};
ghost use Rattle.clap.specs.declared.error.kind.ErrorKind.TheVariants.{ValueValidation};

use crate::line::{base, compact, follow, join, keep, tail};
use clap::error::ErrorKind;
use clap::{Command, Error};
use std::alloc::{AllocError, Global};
use std::net::SocketAddr;

/// Where a value stands. Written as a command line or an environment has it.
#[derive(Clone, Copy, Debug, PartialEq, Eq, thiserror::Error)]
pub(crate) enum Origin {
    /// Behind the option of that name.
    #[error("--{0}")]
    Option(&'static str),
    /// In the variable `REGISTRY_` with that ending.
    #[error("REGISTRY_{0}")]
    Variable(&'static str),
}

/// Why a command line is refused whose words `clap` takes. Written as one line.
#[derive(Clone, Copy, Debug, PartialEq, Eq, thiserror::Error)]
pub(crate) enum Fault<'a> {
    #[error("{0} {1}: an address with a port, as 127.0.0.1:8081 or [::1]:8081")]
    Address(Origin, &'a str),
    /// The first node would have no port, or the last one a port past 65535.
    #[error("{origin} {listen}: a port from 1 to {most} with --nodes {nodes}")]
    Port {
        origin: Origin,
        listen: SocketAddr,
        nodes: u64,
        most: u64,
    },
    #[error("{origin} {text}: a number from {least} to {most}")]
    Number {
        origin: Origin,
        text: &'a str,
        least: u64,
        most: u64,
    },
    /// The variable `REGISTRY_` with that ending sets a flag.
    #[error("REGISTRY_{0} {1}: true or false")]
    Switch(&'static str, &'a str),
    #[error("--{option} {text}: an offset from 0 to 9223372036854775807")]
    Offset {
        option: &'static str,
        text: &'a str,
    },
    #[error("{0} {1}: an address with a port, as 127.0.0.1:9081 or [::1]:9081")]
    Metrics(Origin, &'a str),
    /// There is no such command line: `clap` takes none without a file that is wanted.
    #[error("a FILE is wanted")]
    File,
    /// There is no such command line: `clap` takes none without an option that is wanted.
    #[error("--below OFFSET is wanted")]
    Below,
    /// There is no such command line: `clap` takes none without a command.
    #[error("a COMMAND is wanted")]
    Command,
}

/// Makes the error of a fault, with the usage of the command of that name. Fails if memory is
/// refused.
pub(crate) fn refusal(alloc: Global, name: &str, fault: Fault<'_>) -> Result<Error, AllocError>
    ensures { IfOk result (λ error. kind_of error ≡ ValueValidation) }
{
    let text = format!(in alloc; "{fault}")?;
    let mut command = command_named(alloc, name)?;
    command.error(ErrorKind::ValueValidation, text.as_str())
}

/// Returns the command of that name, one that has options with values, as its usage names it.
fn command_named<'a>(alloc: Global, name: &str) -> Result<Command<'a>, AllocError> {
    if name == "keep" {
        keep(alloc)?.bin_name("registrylog keep")
    } else if name == "follow" {
        follow(alloc)?.bin_name("registrylog follow")
    } else if name == "join" {
        join(alloc)?.bin_name("registrylog join")
    } else if name == "tail" {
        tail(alloc)?.bin_name("registrylog tail")
    } else if name == "base" {
        base(alloc)?.bin_name("registrylog base")
    } else {
        compact(alloc)?.bin_name("registrylog compact")
    }
}
