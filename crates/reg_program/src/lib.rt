//! All that the program `registryd` does, apart from its system and its ports.
//!
//! [`start`] reads the words of the command line, runs the command and reports how it ended. `fold`
//! reads a log and answers the requests after it ([`fold`]), `sketch` compares two schemas
//! ([`sketch`]), and `serve` is a function that the caller gives.
//!
//! One idea: the program's promise is stated over an [`Invocation`], the words and the streams,
//! which the proof knows nothing about. So the contract covers the whole run, from the words to the
//! exit status, and no part of it can be left out or be given other streams.
//!
//! It doesn't open ports, and it keeps nothing on disk. What the system's own streams do isn't
//! proved.
//!
//! [`start`] carries the theorem: its `ensures` (`Starts`) says what is read and written and which
//! status comes out. [`fold`] says in its clauses `written` and `refused` what the responses are
//! and what was written if it fails.
//!
//! Tests: `run_cases`.
#![tactic(auto)]

mod desk;
mod ended;
mod folding;
mod invocation;
mod running;
mod sketching;
mod spelling;
mod starting;
mod system;
mod telling;
mod text_writing;
mod words;

pub use ended::Ended;
pub use folding::{FoldError, Folded, fold};
pub use invocation::Invocation;
pub use running::run;
pub use sketching::{SketchError, sketch};
pub use spelling::SpellingFault;
pub use starting::{Finished, start};
pub use system::SystemInvocation;
pub use words::{ProgramCommand, command_of};
