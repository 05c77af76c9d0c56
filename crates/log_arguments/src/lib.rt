//! The command line of the program `registrylog`: what its words ask for, and how to use it.
//!
//! [`read_arguments`] makes a [`LogCommand`] of the words, or an error. The error says what is
//! wrong, or has the help or the version if the words ask for that. The commands are `keep`,
//! `follow`, `join`, `tail`, `check`, `compact` and `base`.
//!
//! One idea: the command line is declared once, for the parser `clap`, and a contract says what
//! that declaration is (`program_line`). So the contract of [`read_arguments`] speaks of the words
//! themselves: which words ask for which command, with which defaults and ranges.
//!
//! Options that the words don't give may be set by the environment: [`Environment`] reads its
//! variables. The parser never sees them.
//!
//! Words that `clap` takes may still be refused, because a value is out of its range. That error
//! has one line and the usage of the command.
//!
//! This crate opens no file, listens nowhere, prints nothing and runs no command.
//!
//! The main contract is that of [`read_arguments`]: its clause `asked` says that the words ask for
//! the command that is returned, and its clause `refused` what an error means.
//!
//! Tests: `log_cases` and `run_cases`.
#![tactic(auto)]

mod command;
mod fault;
mod line;
mod reading;
mod settings;
mod values;

pub use command::{LogCommand, VERSION};
pub use reading::read_arguments;
pub use settings::{Environment, EnvironmentError, Settings};
