//! Commands, queries, replies, records and logs in words, as cases write them.
//!
//! A command or a query is a kind, with a `+` where `permanent`, `force`, `deleted`, `verbose` or `default_global` is true, and arguments,
//! where `*` is all subjects and `-` no version. Commands are `register SUBJECT SCHEMA`, `import SUBJECT ID VERSION SCHEMA`, `delete SUBJECT
//! VERSION`, `delete_all SUBJECT`, `set_level SUBJECT LEVEL`, `clear_level SUBJECT`, `set_mode SUBJECT MODE`, `clear_mode SUBJECT` and
//! `noop`. Queries are `schema ID`, `id_versions ID`, `subjects`, `versions SUBJECT`, `version SUBJECT VERSION`, `version_schema SUBJECT
//! VERSION`, `lookup SUBJECT SCHEMA`, `check SUBJECT VERSION SCHEMA`, or without the version, `level SUBJECT` and `mode SUBJECT`. A schema is
//! the name of a primitive type, or its text; behind a `=`, its text as bytes are written, and so is a subject.
#![tactic(auto)]

mod commands;
mod logs;
mod queries;
mod replies;
mod words;

pub use commands::command_in_words;
pub use logs::{empty_log, lines_in, log_of, push_lines, record_of, registry_of};
pub use queries::query_in_words;
pub use reg_leader;
pub use reg_lookup;
pub use replies::{adoption_error_text, answer_text, refusal_text, reply_text};
pub use words::{level_of, mode_of, parts_of, schema_of, scope_of, subject_in_words};
